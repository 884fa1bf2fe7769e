// A node's successors and predecessors.
ghost use Rattle.std.specs.Prelude.{◌≡◌, length};
ghost use Rattle.tables.specs.Told.{told};
ghost use Rattle.adjacency.specs.ListsAt.{successors_at, predecessors_at, part_of};

use layout::refusals::Refusal;

// The successors: that part of the lent edge table; empty where the question is refused.
// Kept: two names, as C has them: with one, each caller would have to pair a side with its table.
pub fn successors<'a>(counts: &[u32; 6], lists: &[u16], succ: &'a [u16], node: usize) -> &'a [u16]
    ensures { result.now ≡ part_of (successors_at counts.now lists.now (length succ.now) node) succ.now }
{
    adjacency::successors::successors(counts, lists, succ, node)
}

// The predecessors, as the successors.
// Kept: two names, as `successors`.
pub fn predecessors<'a>(counts: &[u32; 6], lists: &[u16], pred: &'a [u16], node: usize) -> &'a [u16]
    ensures { result.now ≡ part_of (predecessors_at counts.now lists.now (length pred.now) node) pred.now }
{
    adjacency::successors::predecessors(counts, lists, pred, node)
}

// Where that part stands, start and length, or the refusal.
// Kept: two names, as `successors`.
pub fn ask_successors(
    counts: &[u32; 6],
    lists: &[u16],
    succ: &[u16],
    node: usize,
) -> Result<(usize, usize), Refusal>
    ensures { told result ≡ successors_at counts.now lists.now (length succ.now) node }
{
    adjacency::successors::ask_successors(counts, lists, succ, node)
}

// The same of the predecessors.
// Kept: two names, as `successors`.
pub fn ask_predecessors(
    counts: &[u32; 6],
    lists: &[u16],
    pred: &[u16],
    node: usize,
) -> Result<(usize, usize), Refusal>
    ensures { told result ≡ predecessors_at counts.now lists.now (length pred.now) node }
{
    adjacency::successors::ask_predecessors(counts, lists, pred, node)
}
