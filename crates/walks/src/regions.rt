// Where RETURNs go back to without handlers: one walk for each entry that is called, and the continuations of its calls
// joined into the set of each RETURN that the walk lists.
ghost use Rattle.std.specs.Prelude.{◌≡◌, ◌+◌, ◌*◌, ◌≤◌, ◌<◌, length, take};
ghost use Rattle.listings.specs.Every.{All};
ghost use Rattle.graph.specs.Lists.{each};
ghost use Rattle.graph_laws.specs.Adding.{decode};
ghost use Rattle.passes.specs.Regions.{SetAdded};
ghost use Rattle.passes.specs.WalkTables.{RegionsAnswered};
ghost use Rattle.walks.specs.FromListed.{EntriesReadyFrom, RegionJoinedFrom, RegionsJoinedFrom, SetsFoundFrom};
ghost use Rattle.walks.specs.FromNodes.{CallsReadFrom, CallFitsFrom, continues_from, EntryCallsFrom, ListedJoinedFrom};

use crate::readable::nodes_of;
use crate::return_sets::join_returns;
use crate::sets::{WORDS, insert, no_words};
use crate::spans::{Calls, no_spans};
use crate::walk::Listed;
use layout::limits::MAX_STMTS;
use layout::zeroing::all_of;
use tables::lists::holds;
use tables::nodes::Nodes;
use tables::readable::lists_readable;

// Inserts the node t - 1, where t is not 0.
// Kept: the number, as `Nodes::fall` answers it: its one caller would take it apart by this same line.
fn insert_some(set: &mut [u64; WORDS], t: u16)
    requires { t ≤ MAX_STMTS }
    ensures { SetAdded set.old set.new (decode t) }
{
    if let Some(a) = t.checked_sub(1) {
        insert(set, usize::from(a));
    }
}

// Inserts where call c goes on, if the entry e is one of its targets.
fn add_back(g: &Nodes<'_>, c: usize, e: usize, backs: &mut [u64; WORDS])
    requires { CallFitsFrom g.now c × (e < MAX_STMTS) }
    ensures { SetAdded backs.old backs.new (continues_from g.now e c) }
{
    if holds(g.targets(c), (e + 1) as u16) {
        insert_some(backs, g.fall(c));
    }
}

// Inserts where the calls go on that have the entry e among their targets.
fn add_backs(g: &Nodes<'_>, calls: &[u16], e: usize, backs: &mut [u64; WORDS])
    requires { All (CallFitsFrom g.now) calls.now × (e < MAX_STMTS) }
    ensures { SetAdded backs.old backs.new (each (continues_from g.now e) calls.now) }
{
    for &c in calls {
        add_back(g, usize::from(c), e, backs);
    }
}

// For the entry e, with its calls and a list of its region: the continuations of the calls are joined into the set of
// each RETURN there.
// Kept: here and below sets with their bound in the contract, as in clearing.rt.
pub(crate) fn join_region(g: &Nodes<'_>, calls: &[u16], e: usize, list: &[u16], sets: &mut [u64])
    requires { EntryCallsFrom g.now e calls.now × (e < g.now.records.n) × (g.now.records.n * WORDS ≤ length sets.old) }
    ensures { ListedJoinedFrom g.now e list.now sets.old sets.new }
{
    let mut backs = no_words();
    add_backs(g, calls, e, &mut backs);
    join_returns(&g.records, list, &backs, sets);
}

// The entry e, if it is called: its region by the stored lists, listed in `work`.
fn join_called(
    w: &Listed<'_>,
    calls: &Calls<'_>,
    e: usize,
    work: &mut [u16; MAX_STMTS],
    sets: &mut [u64],
)
    requires { EntriesReadyFrom w.now calls.now sets.old × (e < w.now.nodes.records.n) }
    ensures { RegionJoinedFrom w.now e sets.old sets.new }
{
    let Some(called) = calls.of_entry(e) else {
        return;
    };
    join_region(&w.nodes, called, e, w.region(e, work), sets);
}

// All called entries.
// Kept: alike with by_rows::join_entries_by_rows is the `for` alone; the reason stands there.
fn join_entries(w: &Listed<'_>, calls: &Calls<'_>, work: &mut [u16; MAX_STMTS], sets: &mut [u64])
    requires { EntriesReadyFrom w.now calls.now sets.old }
    ensures { RegionsJoinedFrom w.now w.now.nodes.records.n sets.old sets.new }
{
    for e in 0..w.nodes.records.n {
        join_called(w, calls, e, work, sets);
    }
}

// All entries of all calls.
// Kept: two arrays, and what stands in them, are made as in by_rows::join_regions_by_rows; a `Calls` that holds them
// had them copied where it was handed back (25 KB more of stack), and the walks that follow differ.
fn join_regions(w: &Listed<'_>, sets: &mut [u64])
    requires { CallsReadFrom w.now.nodes × (w.now.nodes.records.n * WORDS ≤ length sets.old) }
    ensures { SetsFoundFrom w.now sets.old sets.new }
{
    let mut list = all_of::<u16, MAX_STMTS>(0);
    let mut spans = no_spans();
    let calls = Calls::among(&w.nodes, &mut list, &mut spans);
    let mut work = all_of::<u16, MAX_STMTS>(0);
    join_entries(w, &calls, &mut work, sets);
}

// Where each RETURN goes back to comes into its set, `WORDS` words in its own row of `sets`, by walks over the stored
// lists. Answers whether the tables can be read; where they cannot, nothing is written.
// Kept: tables one by one: `Nodes` has as its invariant what is tested here, and a plain struct would be filled from a
// `Nodes` by the caller, one by one too.
// Kept: a `bool`: all that it can say is that the tables cannot be read (25 at 0), so that there is nothing to carry;
// its caller has them proved, and drops it.
pub fn region_return_edges<'a>(
    stmts: &'a [u16],
    falls: &'a [u16],
    links: &'a [u16],
    lists: &'a [u16],
    edges: &'a [u16],
    n: usize,
    sets: &mut [u64],
) -> bool
    ensures { RegionsAnswered stmts.now falls.now links.now lists.now edges.now n sets.old sets.new result }
{
    if !lists_readable(lists, edges, n) {
        return false;
    }
    let Some(nodes) = nodes_of(stmts, falls, links, n, sets) else {
        return false;
    };
    let listed = Listed {
        nodes,
        lists,
        edges,
    };
    join_regions(&listed, sets);
    true
}
