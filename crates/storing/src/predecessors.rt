// The predecessor lists, by counting: how many each node has, where its list begins, then the lists in node order.
// Kept: rows by their places: of what a slice holds behind `as_chunks_mut` std says its length alone.
// Kept: `lists` and `nodes` one by one: a struct of both would be made in `write_predecessors` for five methods, all
// but the last of which would have to promise besides that `nodes` stays.
ghost use Rattle.std.specs.Prelude.{◌*◌, ◌<◌, ◌≤◌, length};
ghost use Rattle.tables.specs.Columns.{pred_count};
ghost use Rattle.passes.specs.Counting.{sum_to};
ghost use Rattle.storing.specs.Predecessors.{Emptied, Countable, Counted, Started, Fillable, Placed};
ghost use Rattle.storing.specs.PredecessorLists.{FillReady, FilledTo, Ready, Written};

use layout::columns::{LIST_ENTRIES, PRED_COUNT, PRED_START};
use layout::limits::MAX_STMTS;
use tables::lists::list_ends;

// No edge counts yet.
fn clear_counts(lists: &mut [u16], nodes: usize)
    requires { (nodes ≤ MAX_STMTS) × (nodes * LIST_ENTRIES ≤ length lists.old) }
    ensures { Emptied nodes nodes lists.old lists.new }
{
    for m in 0..nodes {
        lists[m * LIST_ENTRIES + PRED_COUNT] = 0;
    }
}

// Each edge counts for the node that it leads to.
// Kept: `nodes` is for the contract alone, here and in `fill_list`: it says below what the ids are; as a quantifier it
// would stand in each clause.
fn count_edges(succ: &[u16], lists: &mut [u16], nodes: usize)
    requires { Countable nodes (length succ.now) succ.now lists.old }
    ensures { Counted nodes (length succ.now) succ.now lists.old lists.new }
{
    for &v in succ {
        lists[usize::from(v) * LIST_ENTRIES + PRED_COUNT] += 1;
    }
}

// A node's list begins where those of the nodes before it end; its count begins again at 0, as a cursor.
fn set_starts(lists: &mut [u16], nodes: usize)
    requires { (nodes * LIST_ENTRIES ≤ length lists.old) × (sum_to (pred_count lists.old) nodes < 65536) }
    ensures { Started nodes lists.old lists.new }
{
    let mut start: u16 = 0;
    for m in 0..nodes {
        let row = m * LIST_ENTRIES;
        let count = lists[row + PRED_COUNT];
        lists[row + PRED_START] = start;
        lists[row + PRED_COUNT] = 0;
        start += count;
    }
}

// A node goes to the end of the predecessor list of each of its successors.
fn fill_list(list: &[u16], lists: &mut [u16], nodes: usize, pred: &mut [u16], node: u16)
    requires { Fillable nodes list.now lists.old pred.old }
    ensures { Placed nodes node list.now lists.old lists.new pred.old pred.new }
{
    for &v in list {
        let row = usize::from(v) * LIST_ENTRIES;
        let count = lists[row + PRED_COUNT];
        let at = usize::from(lists[row + PRED_START]) + usize::from(count);
        pred[at] = node;
        lists[row + PRED_COUNT] = count + 1;
    }
}

// The nodes in ascending order, so that each predecessor list ascends.
fn fill_lists(succ: &[u16], lists: &mut [u16], nodes: usize, pred: &mut [u16])
    requires { FillReady nodes succ.now lists.old pred.old }
    ensures { FilledTo nodes nodes succ.now lists.old lists.new pred.old pred.new }
{
    for j in 0..nodes {
        let list = &succ[list_ends(lists, j)];
        fill_list(list, lists, nodes, pred, j as u16);
    }
}

// From the successor lists in succ, which are all that is there, to the predecessor lists in pred; the rows in `lists`
// say where each list stands.
pub(crate) fn write_predecessors(succ: &[u16], lists: &mut [u16], nodes: usize, pred: &mut [u16])
    requires { Ready nodes (length succ.now) succ.now lists.old pred.old }
    ensures { Written nodes (length succ.now) succ.now lists.old lists.new pred.old pred.new }
{
    clear_counts(lists, nodes);
    count_edges(succ, lists, nodes);
    set_starts(lists, nodes);
    fill_lists(succ, lists, nodes, pred);
}
