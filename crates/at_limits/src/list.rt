// An input to its graph or refusal, for programs: the tables are lent here, once for all of them.
ghost use Rattle.wiring.specs.BuiltAnswer.{built_told};
ghost use Rattle.printing.specs.Limits.{InputWhole, ListedWhole};
ghost use Rattle.reader.specs.Inputs.{is_program, bytes_of};

use super::lent::Tables;
use crate::with_tables;
use printing::list::{MAX_PRINTED, Printed};
use reader::listing::Input;

// With tables that suffice at all limits, and room for the longest graph.
pub fn list_input(input: Input<'_>, out: &mut [u8; MAX_PRINTED]) -> Printed
    ensures { InputWhole (is_program input.entry) (bytes_of input.entry) out.old out.new (built_told result.built) result.len }
{
    let mut t = Tables::zeroed();
    with_tables!(printing::list::list_input, input, t, out)
}

// The same of a text.
pub fn list_text(text: &[u8], out: &mut [u8; MAX_PRINTED]) -> Printed
    ensures { ListedWhole text.now out.old out.new (built_told result.built) result.len }
{
    list_input(Input::Text(text), out)
}
