// A node's list goes into its own part of the edge table.
// Kept: rows by their places, as in `predecessors.rt`.
ghost use Rattle.std.specs.Prelude.{◌≡◌, ◌++◌, ◌+◌, ◌*◌, ◌<◌, ◌≤◌, length, take, drop};
ghost use Rattle.passes.specs.EdgeTable.{Appended};
ghost use Rattle.tables.specs.Columns.{succ_start, succ_count};
ghost use Rattle.storing.specs.Appending.{append_fits, AppendAnswered};

use layout::columns::{LIST_ENTRIES, SUCC_COUNT};
use layout::fronts::put_front;
use layout::limits::MAX_NUMBER;
use tables::lists::list_ends;

// A list goes to the front of the part; what stands behind it stays.
#[tactic(auto, using(layout::specs::Fronts::front_fits))]
pub(crate) fn store_list(part: &mut [u16], list: &[u16])
    requires { length list.now ≤ length part.old }
    ensures { part.new ≡ list.now ++ drop (length list.now) part.old }
{
    put_front(part, list);
}

// A node's list goes behind those stored before it, from entry `at` on, and its row says where; the answer is where the
// next list begins.
// Kept: `lists` and `succ` one by one, here and below: both are written, as in write_graph.rt.
pub(crate) fn put_list(
    lists: &mut [u16],
    succ: &mut [u16],
    node: usize,
    at: usize,
    list: &[u16],
) -> usize
    requires { (at + length list.now ≤ length succ.old) × (at + length list.now < 65536) × (node * LIST_ENTRIES + LIST_ENTRIES ≤ length lists.old) }
    ensures { Appended node at (length list.now) list.now lists.old lists.new succ.old succ.new result }
{
    store_list(&mut succ[at..], list);
    lists[node * LIST_ENTRIES] = at as u16;
    lists[node * LIST_ENTRIES + SUCC_COUNT] = list.len() as u16;
    at + list.len()
}

// Whether the node has a row, and a list of so many entries fits the table from `at` on. By division and difference, so
// that no number is too large.
#[tactic(auto, unfolding(crate::specs::Appending::append_fits))]
fn append_fits(node: usize, at: usize, count: usize, lists: &[u16], succ: &[u16]) -> bool
    ensures { result ≡ append_fits node at count lists.now succ.now }
{
    node < lists.len() / LIST_ENTRIES
        && at <= succ.len()
        && count <= succ.len() - at
        && at + count <= MAX_NUMBER
}

// The same on any tables: where the list does not fit, nothing changes, and the answer is `at`.
// Kept: `at` and no `Option`: the next list goes there in either case.
#[tactic(auto, unfolding(crate::specs::Appending::append_fits))]
pub fn append_list(
    lists: &mut [u16],
    succ: &mut [u16],
    node: usize,
    at: usize,
    list: &[u16],
) -> usize
    ensures { AppendAnswered node at list.now lists.old lists.new succ.old succ.new result }
{
    if append_fits(node, at, list.len(), lists, succ) {
        return put_list(lists, succ, node, at, list);
    }
    at
}

// A node's list, which stands in `from` where its row says, goes behind those stored in succ; then its row says where
// it stands there.
pub(crate) fn move_list(
    lists: &mut [u16],
    from: &[u16],
    succ: &mut [u16],
    node: usize,
    at: usize,
) -> usize
    requires node_in_bounds { (node * LIST_ENTRIES + LIST_ENTRIES ≤ length lists.old) × (succ_start lists.old node + succ_count lists.old node ≤ length from.now) }
    requires node_in_bounds_2 { (at + succ_count lists.old node ≤ length succ.old) × (at + succ_count lists.old node < 65536) }
    ensures { Appended node at (succ_count lists.old node) (take (succ_count lists.old node) (drop (succ_start lists.old node) from.now)) lists.old lists.new succ.old succ.new result }
{
    let list = &from[list_ends(lists, node)];
    put_list(lists, succ, node, at, list)
}
