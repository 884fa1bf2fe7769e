// How many edges the lists of the graph have, before any is written.
ghost use Rattle.std.specs.Prelude.{◌≡◌, ◌<◌, length};
ghost use Rattle.passes.specs.Counting.{sum_to};
ghost use Rattle.storing.specs.EdgesFit.{edges_fit};
ghost use Rattle.storing.specs.FromSource.{size_from, SizeReadyFrom, SizeFrom, CountsReadyFrom};

use crate::growing::put_jump;
use crate::source::Source;
use layout::columns::{LIST_ENTRIES, SUCC_COUNT};
use layout::limits::{MAX_EDGES, MAX_STMTS};
use layout::words::RETURN;
use tables::calls::is_call;
use walks::sets::{set_at, size_of};

// How long node i's list is. Only a call's has to be made for that: its targets can be the same node.
fn list_size(
    source: &Source<'_>,
    args: &[u64],
    i: usize,
    lists: &[u16],
    buffer: &mut [u16; MAX_STMTS],
) -> usize
    requires { (i < source.now.nodes.records.n) × SizeReadyFrom source.now args.now i lists.now }
    ensures { SizeFrom source.now args.now lists.now i result }
{
    let g = &source.nodes;
    let word = g.records.word(i);
    if word == RETURN {
        if source.handlers {
            return source.targets;
        }
        return size_of(set_at(args, i));
    }
    if is_call(word) {
        return put_jump(g, i, buffer).len();
    }
    usize::from(lists[i * LIST_ENTRIES + SUCC_COUNT])
}

// The edges of all nodes.
// Kept: a loop in place of `sum`: each turn writes the buffer, and of a closure that changes what it captures a proof
// knows nothing.
pub(crate) fn count_lists(
    source: &Source<'_>,
    args: &[u64],
    lists: &[u16],
    buffer: &mut [u16; MAX_STMTS],
) -> usize
    requires { CountsReadyFrom source.now args.now lists.now }
    ensures { result ≡ sum_to (size_from source.now args.now lists.now) source.now.nodes.records.n }
{
    let mut sum: usize = 0;
    for i in 0..source.nodes.records.n {
        sum += list_size(source, args, i, lists, buffer);
    }
    sum
}

// Whether so many edges are few, and tables of `succ` and `pred` entries hold them.
pub fn edges_fit(edges: usize, succ: usize, pred: usize) -> bool
    ensures { result ≡ edges_fit edges succ pred }
{
    edges <= succ && edges <= pred && edges <= MAX_EDGES
}
