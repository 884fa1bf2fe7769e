// The printed graph.
ghost use Rattle.std.specs.Prelude.{◌≡◌, ◌+◌, ◌*◌, ◌≤◌, length};
ghost use Rattle.std.specs.Option.{option_to_list};
ghost use Rattle.graph.specs.Lists.{each, below};
ghost use Rattle.formatting.specs.Pages.{Wrote, pair_text};
ghost use Rattle.printing.specs.FromGraph.{SomeGraphFrom, GraphWroteFrom};
ghost use Rattle.printing.specs.PrintedTables.{entry_text, back_text, returns_text};

use crate::print_nodes::put_nodes;
use formatting::page::Page;
use layout::columns::{ENTRY_ENTRIES, ENTRY_NODE, ENTRY_NUMBER, FALL_ENTRIES};
use tables::calls::is_call;
use tables::counts::Counts;
use tables::graphs::Graph;
use tables::nodes::Records;

// The row of a number with a node, or nothing where there is none.
fn put_some(page: &mut Page<'_>, word: &[u8], a: usize, node: Option<usize>)
    ensures { Wrote page.old page.new (each (pair_text word.now a) (option_to_list node)) }
{
    if let Some(i) = node {
        page.put_pair_row(word, a, i);
    }
}

// The entry in a row of the table; no row where there is none.
fn put_entry(page: &mut Page<'_>, row: &[u16; ENTRY_ENTRIES])
    ensures { Wrote page.old page.new (entry_text row.now 0) }
{
    let number = usize::from(row[ENTRY_NUMBER]);
    let node = usize::from(row[ENTRY_NODE]).checked_sub(1);
    put_some(page, b"(entry", number, node);
}

// The entries of so many rows, by number.
fn put_entries(page: &mut Page<'_>, entries: &[u16], rows: usize)
    requires { rows * ENTRY_ENTRIES ≤ length entries.now }
    ensures { Wrote page.old page.new (each (entry_text entries.now) (below rows)) }
{
    let (all, _) = entries.as_chunks::<ENTRY_ENTRIES>();
    for row in &all[..rows] {
        put_entry(page, row);
    }
}

// The continuation of node i, if it is a call and has one.
fn put_back(page: &mut Page<'_>, records: &Records<'_>, falls: &[u16], i: usize)
    requires { i * FALL_ENTRIES + FALL_ENTRIES ≤ length falls.now }
    ensures { Wrote page.old page.new (back_text records.now.stmts.now falls.now i) }
{
    if is_call(records.word(i)) {
        let fall = usize::from(falls[i * FALL_ENTRIES]).checked_sub(1);
        put_some(page, b"(back", i, fall);
    }
}

// The continuations by call.
fn put_backs(page: &mut Page<'_>, records: &Records<'_>, falls: &[u16])
    requires { records.now.n * FALL_ENTRIES ≤ length falls.now }
    ensures { Wrote page.old page.new (each (back_text records.now.stmts.now falls.now) (below records.now.n)) }
{
    for i in 0..records.n {
        put_back(page, records, falls, i);
    }
}

// The return targets in order.
fn put_returns(page: &mut Page<'_>, returns: &[u16])
    ensures { Wrote page.old page.new (returns_text returns.now) }
{
    page.put_list(b"(returns", returns);
    page.put_bytes(b")\n");
}

// Prints the graph that the tables hold.
// Kept: what the tables hold in a `requires`, here and at `print_counted` alone: a struct with it as a ghost field
// would be made for these two.
pub(crate) fn print_graph(g: &Graph<'_>, page: &mut Page<'_>)
    requires { SomeGraphFrom g.now }
    ensures { GraphWroteFrom g.now page.old page.new }
{
    let used = Counts(g.counts);
    let stmts = g.stmts;
    let n = used.nodes();
    let records = Records { stmts, n };
    page.put_pair(b"(graph", 0, n);
    page.put_bytes(b"\n");
    put_nodes(page, g, &records);
    put_entries(page, g.entries, used.rows());
    put_returns(page, &g.returns[..used.targets()]);
    put_backs(page, &records, g.falls);
    page.put_bytes(b")\n");
}
