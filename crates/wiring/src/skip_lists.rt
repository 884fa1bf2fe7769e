// The lists that skipping paths follow, stored for the walks through regions.
ghost use Rattle.std.specs.Prelude.{◌*◌, ◌≤◌, ◌<◌, length, take};
ghost use Rattle.passes.specs.NodeList.{ListIs};
ghost use Rattle.passes.specs.SkipLists.{skip_list};
ghost use Rattle.wiring.specs.FromLeads.{StoreDoneFrom, StoreReadyFrom, StoresDoneFrom, StoresReadyFrom};

use crate::leads::Leads;
use crate::list_of::list_of;
use layout::limits::{MAX_EDGES, MAX_STMTS};
use storing::store::append_list;
use tables::calls::is_call;

// Room for as many edges as a graph may have and one more for each call, whose continuation need not be among them.
pub(crate) const SCRATCH: usize = MAX_EDGES + MAX_STMTS;

// How many edges the nodes so far have, and how many entries of the scratch table are used.
#[derive(Drop)]
struct Edges {
    total: usize,
    at: usize,
}

// From node i's list, the first count entries of the buffer, to what skipping paths follow: from a call only where it
// falls. Answers how many nodes that are.
// Kept: a part and how many, as `list_of` answers, whose list this one takes the place of.
pub(crate) fn skip_list(
    g: &Leads<'_, '_>,
    i: usize,
    buffer: &mut [u16; MAX_STMTS],
    count: usize,
) -> usize
    requires { count ≤ MAX_STMTS }
    ensures { ListIs (skip_list g.now.nodes.records.stmts.now g.now.nodes.falls.now i (take count buffer.old)) buffer.old buffer.new result }
{
    if !is_call(g.nodes.records.word(i)) {
        return count;
    }
    let Some(node) = g.nodes.fall(i).checked_sub(1) else {
        return 0;
    };
    buffer[0] = node;
    1
}

// Node i: its edges are counted, and while all are few, what skipping paths follow from it goes behind the lists stored
// before.
// Kept: tables that are written go one by one; of a struct of `&mut` a clause names what is left behind it by nested
// pairs.
fn store_skip_list(
    g: &Leads<'_, '_>,
    args: &[u64],
    i: usize,
    e: Edges,
    lists: &mut [u16],
    scratch: &mut [u16; SCRATCH],
    buffer: &mut [u16; MAX_STMTS],
) -> Edges
    requires in_bounds { i < g.now.nodes.records.n }
    requires ready { StoreReadyFrom g.now args.now i e.total e.at lists.old scratch.old buffer.old }
    ensures { StoreDoneFrom g.now args.now i e.total e.at lists.old lists.new scratch.old scratch.new result.total result.at }
{
    let count = list_of(g, args, i, buffer);
    let total = e.total + count;
    if MAX_EDGES < total {
        return Edges { total, at: e.at };
    }
    let kept = skip_list(g, i, buffer, count);
    let at = append_list(lists, scratch, i, e.at, &buffer[..kept]);
    Edges { total, at }
}

// The lists that skipping paths follow go into a scratch table, as long as all lists together are few; answers how many
// edges all nodes that are no RETURNs have.
// Kept: tables that are written go one by one, as above.
pub(crate) fn store_skip_lists(
    g: &Leads<'_, '_>,
    args: &[u64],
    lists: &mut [u16],
    scratch: &mut [u16; SCRATCH],
    buffer: &mut [u16; MAX_STMTS],
) -> usize
    requires { StoresReadyFrom g.now args.now lists.old scratch.old buffer.old }
    ensures { StoresDoneFrom g.now args.now lists.old lists.new scratch.old scratch.new result }
{
    let mut e = Edges { total: 0, at: 0 };
    for i in 0..g.nodes.records.n {
        e = store_skip_list(g, args, i, e, lists, scratch, buffer);
    }
    e.total
}
