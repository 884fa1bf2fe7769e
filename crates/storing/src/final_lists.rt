// The successor lists of the graph, in node order.
ghost use Rattle.std.specs.Prelude.{◌≡◌, ◌+◌, ◌*◌, ◌≤◌, ◌<◌, length};
ghost use Rattle.storing.specs.FromSource.{returns_from, WriteReadyFrom, WriteDoneFrom, WritesReadyFrom, WritesDoneFrom};

use crate::growing::put_jump;
use crate::source::Source;
use crate::store::{move_list, put_list};
use layout::columns::ARG_ENTRIES;
use layout::limits::MAX_STMTS;
use layout::words::RETURN;
use tables::calls::is_call;
use walks::sets::{members, set_at};

// Where RETURN i leads: with handlers to all return targets, without them to the members of its set, which are listed
// in the buffer.
#[tactic(auto, unfolding(crate::specs::FinalLists::return_list))]
fn return_list<'a: 'b, 'b>(
    source: &Source<'a>,
    args: &[u64],
    i: usize,
    buffer: &'b mut [u16; MAX_STMTS],
) -> &'b [u16]
    requires { (i < source.now.nodes.records.n) × (i * ARG_ENTRIES + ARG_ENTRIES ≤ length args.now) × (length (returns_from source.now args.now i) ≤ MAX_STMTS) }
    ensures { result.now ≡ returns_from source.now args.now i }
{
    if source.handlers {
        return &source.returns[..source.targets];
    }
    let n = members(set_at(args, i), buffer);
    &buffer[..n]
}

// Node i's list goes behind those written before it, from entry `at` on: a RETURN's or a call's is made for that, any
// other's stands in scratch, where its row says.
// Kept: `put_list` twice: a RETURN's list and a call's have room for reasons of their own, which a proof of one call
// for both would take apart again.
// Kept: tables that are written go one by one, here and below, as in write_graph.rt.
fn write_list(
    source: &Source<'_>,
    args: &[u64],
    i: usize,
    at: usize,
    lists: &mut [u16],
    succ: &mut [u16],
    buffer: &mut [u16; MAX_STMTS],
) -> usize
    requires { (i < source.now.nodes.records.n) × WriteReadyFrom source.now args.now i at lists.old (length succ.old) }
    ensures { WriteDoneFrom source.now args.now i at lists.old lists.new succ.old succ.new result }
{
    let g = &source.nodes;
    let word = g.records.word(i);
    if word == RETURN {
        return put_list(lists, succ, i, at, return_list(source, args, i, buffer));
    }
    if is_call(word) {
        return put_list(lists, succ, i, at, put_jump(g, i, buffer));
    }
    move_list(lists, source.scratch, succ, i, at)
}

// The graph's lists go into succ in node order: a RETURN's from its set or the return targets, a call's made again, any
// other's moved from scratch, where its row says.
pub(crate) fn write_lists(
    source: &Source<'_>,
    args: &[u64],
    lists: &mut [u16],
    succ: &mut [u16],
    buffer: &mut [u16; MAX_STMTS],
) -> usize
    requires { WritesReadyFrom source.now args.now lists.old (length succ.old) }
    ensures { WritesDoneFrom source.now args.now lists.old lists.new succ.old succ.new result }
{
    let mut at: usize = 0;
    for i in 0..source.nodes.records.n {
        at = write_list(source, args, i, at, lists, succ, buffer);
    }
    at
}
