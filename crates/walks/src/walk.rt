// The walk through a region, by lists of nodes: a mark for each statement that there may be, and a list of the marked
// nodes, whose end is the worklist.
ghost use Rattle.std.specs.Prelude.{◌≡◌, ℕ, List, true, false, ◌<◌, ◌≤◌, length, replicate};
ghost use Rattle.tables.specs.Readable.{lists_readable};
ghost use Rattle.passes.specs.Walk.{stored_list, Markable, ListMarked, Reached, Stored};

use layout::columns::{LIST_ENTRIES, SUCC_COUNT};
use layout::limits::MAX_STMTS;
use layout::zeroing::all_of;
use tables::nodes::Nodes;

// Marks the nodes of a list, and puts those that had no mark behind the `count` nodes of `work`. A node comes there
// with its mark, so the free marks leave room.
// Kept: a list and how many of it, of which the rest is the room that the walk fills: what is listed is read while it
// grows.
pub(crate) fn mark_all(
    list: &[u16],
    marks: &mut [bool; MAX_STMTS],
    work: &mut [u16],
    count: usize,
) -> usize
    requires { Markable MAX_STMTS list.now marks.old work.old count }
    ensures { ListMarked list.now marks.old work.old count marks.new work.new result }
{
    let mut n = count;
    for &w in list {
        let x = usize::from(w);
        if !marks[x] {
            marks[x] = true;
            work[n] = w;
            n += 1;
        }
    }
    n
}

// No node is marked.
pub fn no_marks() -> [bool; MAX_STMTS]
    ensures { result ≡ replicate MAX_STMTS false }
{
    all_of(false)
}

// n nodes, each with a list of nodes: where in `edges` it stands says the node's row of `lists`.
// Kept: what goes over it (regions.rt) and over `Sets` (closure.rt, return_totals.rt) stands as functions in modules of
// their own, by what they are for: methods would be one `impl` a module.
#[derive(Clone, Copy)]
pub(crate) struct Listed<'a> {
    pub nodes: Nodes<'a>,
    pub lists: &'a [u16],
    pub edges: &'a [u16],
    pub ghost readable: { lists_readable lists.now edges.now nodes.records.n ≡ true },
}

impl<'a> Listed<'a> {
    // Node v's list.
    // Kept: by its row; tried by `tables::lists::list_ends`, which asks whether the table has it: two instructions more
    // at each step of a walk, and 512 walks took 5 % more.
    fn list(&self, v: usize) -> &'a [u16]
        requires { v < self.now.nodes.records.n }
        ensures { result.now ≡ stored_list self.now.lists.now self.now.edges.now v }
    {
        let row = v * LIST_ENTRIES;
        let start = usize::from(self.lists[row]);
        let count = usize::from(self.lists[row + SUCC_COUNT]);
        &self.edges[start..start + count]
    }

    // Lists every node that the stored lists lead to from `from`, each once. The steps of the first `done` of them are
    // marked: the others are the worklist.
    pub(crate) fn region<'b>(&self, from: usize, work: &'b mut [u16; MAX_STMTS]) -> &'b [u16]
        requires { from < self.now.nodes.records.n }
        ensures { (step : ℕ → List ℕ) → Stored self.now.lists.now self.now.edges.now self.now.nodes.records.n step → Reached step from result.now }
    {
        let mut marks = no_marks();
        marks[from] = true;
        work[0] = from as u16;
        let mut done: usize = 0;
        let mut count: usize = 1;
        // Kept: the list grows while it is walked, so there is no range to run over.
        while done < count {
            let v = usize::from(work[done]);
            done += 1;
            count = mark_all(self.list(v), &mut marks, work, count);
        }
        &work[..count]
    }
}
