// An input's graph, printed.
ghost use Rattle.passes.specs.TableForms.{sizes_of};
ghost use Rattle.wiring.specs.BuiltAnswer.{built_told};
ghost use Rattle.printing.specs.FromGraph.{SomeGraphFrom, GraphPrintedFrom};
ghost use Rattle.printing.specs.ListGraph.{InputListed, GraphListed};
ghost use Rattle.reader.specs.Inputs.{is_program, bytes_of};

use crate::print::print_graph;
use formatting::page::{Page, print_refusal};
use layout::refusals::Refusal;
use reader::listing::Input;
use tables::graphs::Graph;
use wiring::build::build_input;

// Room for every graph that is printed: within the limits none has more bytes.
pub const MAX_PRINTED: usize = 1048576;

// Prints the graph that the tables hold, on a page of its own.
// Kept: what the tables hold in a `requires`, as `print_graph`.
fn print_counted(g: &Graph<'_>, out: &mut [u8]) -> usize
    requires { SomeGraphFrom g.now }
    ensures { GraphPrintedFrom g.now out.old out.new result }
{
    let mut page = Page::new(out);
    print_graph(g, &mut page);
    page.len()
}

// What was built, and where the next byte of what was printed would go (the length of the part if it did not fit).
// Kept: a length, not the part, since one as long as `out` says that what was printed did not fit.
#[derive(Clone, Copy)]
pub struct Printed {
    pub built: Result<(), Refusal>,
    pub len: usize,
}

// Builds the graph of an input, a saved program or a text, in the lent tables and prints it, or its refusal.
// Inlined, so that a program that makes the tables as zeros does not zero them twice.
// Kept: the C interface lends the tables one by one.
#[inline(always)]
pub fn list_input(
    input: Input<'_>,
    counts: &mut [u32; 6],
    lines: &mut [u16],
    stmts: &mut [u16],
    args: &mut [u64],
    entries: &mut [u16],
    falls: &mut [u16],
    links: &mut [u16],
    lists: &mut [u16],
    returns: &mut [u16],
    succ: &mut [u16],
    pred: &mut [u16],
    out: &mut [u8],
) -> Printed
    ensures { InputListed (is_program input.entry) (bytes_of input.entry) (sizes_of lines.old stmts.old args.old entries.old falls.old links.old lists.old returns.old succ.old pred.old) counts.new lines.new stmts.new args.new entries.new falls.new links.new lists.new returns.new succ.new pred.new out.old out.new (built_told result.built) result.len }
{
    let built = build_input(
        input, counts, lines, stmts, args, entries, falls, links, lists, returns, succ, pred,
    );
    let graph = Graph {
        counts,
        lines,
        stmts,
        args,
        entries,
        falls,
        lists,
        returns,
        succ,
        pred,
    };
    let len = match built {
        Ok(()) => print_counted(&graph, out),
        Err(refusal) => print_refusal(out, refusal),
    };
    Printed { built, len }
}

// The same of a text.
// Kept: the C interface lends the tables one by one.
pub fn list_graph(
    text: &[u8],
    counts: &mut [u32; 6],
    lines: &mut [u16],
    stmts: &mut [u16],
    args: &mut [u64],
    entries: &mut [u16],
    falls: &mut [u16],
    links: &mut [u16],
    lists: &mut [u16],
    returns: &mut [u16],
    succ: &mut [u16],
    pred: &mut [u16],
    out: &mut [u8],
) -> Printed
    ensures { GraphListed text.now (sizes_of lines.old stmts.old args.old entries.old falls.old links.old lists.old returns.old succ.old pred.old) counts.new lines.new stmts.new args.new entries.new falls.new links.new lists.new returns.new succ.new pred.new out.old out.new (built_told result.built) result.len }
{
    let input = Input::Text(text);
    list_input(
        input, counts, lines, stmts, args, entries, falls, links, lists, returns, succ, pred, out,
    )
}
