// The input into the front parts of the reader's tables, as far as the other tables hold as many lines and statements.
ghost use Rattle.std.specs.Prelude.{◌≡◌, ◌*◌, ◌≤◌, length};
ghost use Rattle.program_files.specs.Inputs.{meaning};
ghost use Rattle.passes.specs.Reading.{FittingRead};
ghost use Rattle.reader.specs.Inputs.{is_program, bytes_of};

use layout::columns::{ARG_ENTRIES, STMT_ENTRIES};
use layout::refusals::Refusal;
use reader::listing::{Accepted, Input, read_input};

// What stands behind the front parts becomes zero.
// Kept: tables that are written go one by one: of a struct of `&mut` clauses name what is left by nested pairs.
pub(crate) fn read_fitting(
    input: Input<'_>,
    counts: &mut [u32; 6],
    lines: &mut [u16],
    stmts: &mut [u16],
    args: &mut [u64],
    line_room: usize,
    stmt_room: usize,
) -> Result<Accepted, Refusal>
    requires { (line_room ≤ length lines.old) × (stmt_room * STMT_ENTRIES ≤ length stmts.old) × (stmt_room * ARG_ENTRIES ≤ length args.old) }
    ensures { FittingRead (meaning (is_program input.entry) (bytes_of input.entry)) line_room stmt_room (length lines.old) (length stmts.old) (length args.old) counts.new lines.new stmts.new args.new result }
{
    let stmt_end = stmt_room * STMT_ENTRIES;
    let arg_end = stmt_room * ARG_ENTRIES;
    lines[line_room..].fill(0);
    stmts[stmt_end..].fill(0);
    args[arg_end..].fill(0);
    read_input(
        input,
        counts,
        &mut lines[..line_room],
        &mut stmts[..stmt_end],
        &mut args[..arg_end],
    )
}
