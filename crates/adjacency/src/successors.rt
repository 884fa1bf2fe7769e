// A node's successors and predecessors, read off tables that any caller may have written.
ghost use Rattle.std.specs.Prelude.{◌≡◌, ◌+◌, ◌*◌, ◌≤◌, length, get_or};
ghost use Rattle.tables.specs.Told.{told};
ghost use Rattle.adjacency.specs.ListsAt.{list_at, successors_at, predecessors_at, part_of};
ghost use Rattle.adjacency.specs.Sides.{column_of, side_at};

use layout::columns::{LIST_ENTRIES, PRED_START};
use layout::refusals::{Reason, Refusal};
use tables::counts::Counts;

// Which of a node's lists, by the column where its start stands; its length stands next.
#[derive(Clone, Copy)]
enum Side {
    Successors = 0,
    Predecessors = PRED_START as isize,
}

impl Side {
    fn column(self) -> usize
        ensures value { result ≡ column_of self }
        ensures few { result ≤ PRED_START }
    {
        self as usize
    }
}

// What says where the lists of nodes stand.
#[derive(Clone, Copy)]
struct Lists<'a> {
    counts: &'a [u32; 6],
    lists: &'a [u16],
}

impl Lists<'_> {
    // Start and length of a node's list, in an edge table of so many entries.
    fn ask(&self, size: usize, node: usize, side: Side) -> Result<(usize, usize), Refusal>
        ensures { told result ≡ side_at side self.now.counts.now self.now.lists.now size node }
    {
        let nodes = Counts(self.counts).nodes();
        if nodes <= node {
            return Err(Reason::NoNode.at(node));
        }
        if self.lists.len() < nodes * LIST_ENTRIES {
            return Err(Reason::Outside.at(0));
        }
        let first = side.column();
        let start = usize::from(self.lists[node * LIST_ENTRIES + first]);
        let count = usize::from(self.lists[node * LIST_ENTRIES + (first + 1)]);
        if size < start + count {
            return Err(Reason::Outside.at(0));
        }
        Ok((start, count))
    }

    // That part of the edge table; empty where the question is refused.
    fn part<'t>(&self, table: &'t [u16], node: usize, side: Side) -> &'t [u16]
        ensures { result.now ≡ part_of (side_at side self.now.counts.now self.now.lists.now (length table.now) node) table.now }
    {
        match self.ask(table.len(), node, side) {
            Ok((start, len)) => &table[start..start + len],
            Err(_) => &[],
        }
    }
}

// Where a node's successors stand in the edge table, start and length, or the refusal.
// Kept: two names, as C has them: with one, each caller would have to pair a side with its table.
pub fn ask_successors(
    counts: &[u32; 6],
    lists: &[u16],
    succ: &[u16],
    node: usize,
) -> Result<(usize, usize), Refusal>
    ensures { told result ≡ successors_at counts.now lists.now (length succ.now) node }
{
    Lists { counts, lists }.ask(succ.len(), node, Side::Successors)
}

// The same of its predecessors, whose columns come after.
// Kept: two names, as `ask_successors`.
pub fn ask_predecessors(
    counts: &[u32; 6],
    lists: &[u16],
    pred: &[u16],
    node: usize,
) -> Result<(usize, usize), Refusal>
    ensures { told result ≡ predecessors_at counts.now lists.now (length pred.now) node }
{
    Lists { counts, lists }.ask(pred.len(), node, Side::Predecessors)
}

// The successors themselves, as they stand in the caller's table.
// Kept: two names, as `ask_successors`.
pub fn successors<'a>(counts: &[u32; 6], lists: &[u16], succ: &'a [u16], node: usize) -> &'a [u16]
    ensures { result.now ≡ part_of (successors_at counts.now lists.now (length succ.now) node) succ.now }
{
    Lists { counts, lists }.part(succ, node, Side::Successors)
}

// The predecessors, whose columns come after.
// Kept: two names, as `ask_successors`.
pub fn predecessors<'a>(counts: &[u32; 6], lists: &[u16], pred: &'a [u16], node: usize) -> &'a [u16]
    ensures { result.now ≡ part_of (predecessors_at counts.now lists.now (length pred.now) node) pred.now }
{
    Lists { counts, lists }.part(pred, node, Side::Predecessors)
}
