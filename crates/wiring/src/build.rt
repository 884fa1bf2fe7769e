// From an input, a listing's text or a saved program, to its graph, in lent tables.
ghost use Rattle.std.specs.Prelude.{◌≡◌, replicate};
ghost use Rattle.listings.specs.Cut.{meant};
ghost use Rattle.program_files.specs.Inputs.{meaning};
ghost use Rattle.passes.specs.TableForms.{sizes_of, tables_of};
ghost use Rattle.wiring.specs.BuiltAnswer.{built_told};
ghost use Rattle.wiring.specs.GraphTables.{Zeroed, BuildWrote};
ghost use Rattle.wiring.specs.BuildLaws.{GraphReady, GraphMade};
ghost use Rattle.reader.specs.Inputs.{is_program, bytes_of};

use crate::entries::Entries;
use crate::prepare::prepare;
use crate::reading::read_fitting;
use crate::room::{line_room, stmt_room};
use crate::wire::wire_graph;
use layout::refusals::Refusal;
use reader::listing::{Accepted, Input};
use tables::nodes::Records;

// What the passes before the lists write becomes zero.
// Kept: table by table; tried over an array of `&mut`, which the borrow checker does not cover.
fn clear_links(entries: &mut [u16], falls: &mut [u16], links: &mut [u16])
    ensures { Zeroed entries.old entries.new × Zeroed falls.old falls.new × Zeroed links.old links.new }
{
    entries.fill(0);
    falls.fill(0);
    links.fill(0);
}

// The lists become zero.
// Kept: table by table; tried over an array of `&mut`, which the borrow checker does not cover.
fn clear_lists(lists: &mut [u16], returns: &mut [u16], succ: &mut [u16], pred: &mut [u16])
    ensures { Zeroed lists.old lists.new × Zeroed returns.old returns.new × Zeroed succ.old succ.new × Zeroed pred.old pred.new }
{
    lists.fill(0);
    returns.fill(0);
    succ.fill(0);
    pred.fill(0);
}

// The reader's records become zero.
// Kept: table by table; no array holds tables of several types.
fn clear_records(counts: &mut [u32; 6], lines: &mut [u16], stmts: &mut [u16], args: &mut [u64])
    ensures { (counts.new ≡ replicate 6 0) × Zeroed lines.old lines.new × Zeroed stmts.old stmts.new × Zeroed args.old args.new }
{
    *counts = [0u32; 6];
    lines.fill(0);
    stmts.fill(0);
    args.fill(0);
}

// The graph of the listing that the reader's tables hold; all other tables are zero.
// Kept: tables that are written go one by one: of a struct of `&mut` clauses name what is left by nested pairs.
fn graph_of(
    a: Accepted,
    counts: &mut [u32; 6],
    lines: &mut [u16],
    stmts: &mut [u16],
    args: &mut [u64],
    entries: &mut [u16],
    falls: &mut [u16],
    links: &mut [u16],
    lists: &mut [u16],
    returns: &mut [u16],
    succ: &mut [u16],
    pred: &mut [u16],
) -> Result<(), Refusal>
    requires { GraphReady a.handlers a.lines a.stmts counts.old lines.old stmts.old args.old entries.old falls.old links.old lists.old returns.old succ.old pred.old }
    ensures { GraphMade a.handlers a.lines a.stmts lines.old stmts.old args.old (sizes_of lines.old stmts.old args.old entries.old falls.old links.old lists.old returns.old succ.old pred.old) counts.new lines.new stmts.new args.new entries.new falls.new links.new lists.new returns.new succ.new pred.new (built_told result) }
{
    // that this never refuses is proved, so nothing is cleared behind it
    let n = a.stmts;
    let r = Records { stmts, n };
    prepare(r, lines, args, entries, falls, links, a.lines)?;
    let count = a.lines;
    let w = Entries {
        rows: entries,
        count,
    };
    let wired = wire_graph(
        &r, &w, falls, links, a.handlers, counts, args, lists, returns, succ, pred,
    );
    if wired.is_err() {
        clear_records(counts, lines, stmts, args);
        clear_links(entries, falls, links);
        clear_lists(lists, returns, succ, pred);
    }
    wired
}

// Reads the input, a saved program or a text, and writes the graph of the listing that it means: counts (lines,
// statements, handlers, edges, return targets, entry rows), the reader's records, and what docs/DECISIONS.md says of
// each other table. A refused build leaves every entry zero. Inlined, so that a program that makes the tables as zeros
// does not zero them twice.
// Kept: the C interface lends the tables one by one.
#[inline(always)]
pub fn build_input(
    input: Input<'_>,
    counts: &mut [u32; 6],
    lines: &mut [u16],
    stmts: &mut [u16],
    args: &mut [u64],
    entries: &mut [u16],
    falls: &mut [u16],
    links: &mut [u16],
    lists: &mut [u16],
    returns: &mut [u16],
    succ: &mut [u16],
    pred: &mut [u16],
) -> Result<(), Refusal>
    ensures { BuildWrote (meaning (is_program input.entry) (bytes_of input.entry)) (sizes_of lines.old stmts.old args.old entries.old falls.old links.old lists.old returns.old succ.old pred.old) (tables_of counts.new lines.new stmts.new args.new entries.new falls.new links.new lists.new returns.new succ.new pred.new) (built_told result) }
{
    let most_lines = line_room(lines.len(), entries.len());
    let most_stmts = stmt_room(
        stmts.len(),
        args.len(),
        falls.len(),
        links.len(),
        lists.len(),
        returns.len(),
    );
    clear_links(entries, falls, links);
    clear_lists(lists, returns, succ, pred);
    let a = read_fitting(input, counts, lines, stmts, args, most_lines, most_stmts)?;
    graph_of(
        a, counts, lines, stmts, args, entries, falls, links, lists, returns, succ, pred,
    )
}

// The same of a text.
// Kept: the C interface lends the tables one by one.
pub fn build(
    text: &[u8],
    counts: &mut [u32; 6],
    lines: &mut [u16],
    stmts: &mut [u16],
    args: &mut [u64],
    entries: &mut [u16],
    falls: &mut [u16],
    links: &mut [u16],
    lists: &mut [u16],
    returns: &mut [u16],
    succ: &mut [u16],
    pred: &mut [u16],
) -> Result<(), Refusal>
    ensures { BuildWrote (meant text.now) (sizes_of lines.old stmts.old args.old entries.old falls.old links.old lists.old returns.old succ.old pred.old) (tables_of counts.new lines.new stmts.new args.new entries.new falls.new links.new lists.new returns.new succ.new pred.new) (built_told result) }
{
    let input = Input::Text(text);
    build_input(
        input, counts, lines, stmts, args, entries, falls, links, lists, returns, succ, pred,
    )
}
