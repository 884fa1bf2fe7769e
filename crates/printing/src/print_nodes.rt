// The rows of the nodes, read off the tables.
ghost use Rattle.std.specs.Prelude.{◌≡◌, ◌+◌, ◌*◌, ◌<◌, ◌≤◌, length};
ghost use Rattle.graph.specs.Lists.{each, below};
ghost use Rattle.graph.specs.Print.{joined};
ghost use Rattle.tables.specs.Columns.{succ_start, succ_count, pred_start, pred_count, holder_of, path_in};
ghost use Rattle.formatting.specs.Pages.{Wrote};
ghost use Rattle.printing.specs.FromGraph.{nodes_from, NodesReadableFrom, lists_text_from, node_text_from};
ghost use Rattle.printing.specs.PrintedTables.{head_text, holder_text};

use adjacency::successors::{predecessors, successors};
use formatting::page::Page;
use layout::columns::LIST_ENTRIES;
use layout::limits::MAX_DEPTH;
use tables::graphs::Graph;
use tables::nodes::Records;

// The path of node i: that of the IF that holds it, and then its own number.
// It goes up through `left` IFs at most.
// Kept: here and below, functions of a page and of a graph or its records: all three are types of crates below.
fn put_path(page: &mut Page<'_>, records: &Records<'_>, i: usize, left: usize)
    ensures { Wrote page.old page.new (joined (path_in records.now.stmts.now left i)) }
{
    let index = usize::from(records.index(i));
    match records.holder(i) {
        Some(outer) if left > 0 => {
            put_path(page, records, outer, left - 1);
            page.put_number(index);
        }
        _ => page.put_decimal(index),
    }
}

// The front of a row, as far as the bracket of the path.
fn put_head(page: &mut Page<'_>, i: usize, number: usize, line: usize)
    ensures { Wrote page.old page.new (head_text i number line) }
{
    page.put_pair(b"(node", i, number);
    page.put_number(line);
    page.put_bytes(b" (");
}

// The IF that holds node i, or none, behind its path.
fn put_holder(page: &mut Page<'_>, records: &Records<'_>, i: usize)
    ensures { Wrote page.old page.new (holder_text (holder_of records.now.stmts.now i)) }
{
    page.put_bytes(b") (in");
    if let Some(outer) = records.holder(i) {
        page.put_number(outer);
    }
}

// Both lists of node i, which are parts of the edge tables, and the end of the row.
fn put_lists(page: &mut Page<'_>, g: &Graph<'_>, i: usize)
    requires { (i < nodes_from g.now) × (nodes_from g.now * LIST_ENTRIES ≤ length g.now.lists.now) × (succ_start g.now.lists.now i + succ_count g.now.lists.now i ≤ length g.now.succ.now) × (pred_start g.now.lists.now i + pred_count g.now.lists.now i ≤ length g.now.pred.now) }
    ensures { Wrote page.old page.new (lists_text_from g.now i) }
{
    let own = successors(g.counts, g.lists, g.succ, i);
    let before = predecessors(g.counts, g.lists, g.pred, i);
    page.put_list(b") (succ", own);
    page.put_list(b") (pred", before);
    page.put_bytes(b"))\n");
}

// The row of node i.
// Kept: what can be read in a `requires`: it ties a graph to its records, so a ghost field would want a struct of both,
// made for these two functions.
fn put_node(page: &mut Page<'_>, g: &Graph<'_>, records: &Records<'_>, i: usize)
    requires { (i < records.now.n) × NodesReadableFrom g.now records.now }
    ensures { Wrote page.old page.new (node_text_from g.now records.now i) }
{
    let line = records.line(i);
    put_head(page, i, usize::from(g.lines[line]), line);
    put_path(page, records, i, MAX_DEPTH);
    put_holder(page, records, i);
    put_lists(page, g, i);
}

// The rows of all nodes.
// Kept: what can be read in a `requires`, as `put_node`.
pub(crate) fn put_nodes(page: &mut Page<'_>, g: &Graph<'_>, records: &Records<'_>)
    requires { NodesReadableFrom g.now records.now }
    ensures { Wrote page.old page.new (each (node_text_from g.now records.now) (below records.now.n)) }
{
    for i in 0..records.n {
        put_node(page, g, records, i);
    }
}
