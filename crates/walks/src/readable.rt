// Whether the tables of a walk can be read, whoever wrote them; where they cannot, the caller is told.
ghost use Rattle.std.specs.Prelude.{◌≡◌, ◌<◌};
ghost use Rattle.tables.specs.Readable.{every_below};
ghost use Rattle.passes.specs.Tested.{Tested, NodesAre};
ghost use Rattle.passes.specs.WalkTables.{sets_fit, calls_readable, walks_readable};
ghost use Rattle.walks.specs.FromNodes.{call_readable_from, node_readable_from};

use crate::sets::WORDS;
use layout::columns::{FALL_ENTRIES, LINK_ENTRIES, STMT_ENTRIES};
use layout::limits::{MAX_ARGS, MAX_STMTS};
use tables::calls::is_call;
use tables::nodes::{Nodes, Records};
use tables::readable::{ids_below, lists_readable};

// Whether the tables hold n records of statements and a set for each.
#[tactic(auto, unfolding(passes::specs::WalkTables::sets_fit))]
pub fn sets_fit(stmts: &[u16], sets: &[u64], n: usize) -> bool
    ensures { result ≡ sets_fit stmts.now n sets.now }
{
    n <= MAX_STMTS && n * STMT_ENTRIES <= stmts.len() && n * WORDS <= sets.len()
}

// Whether the targets of call c are few, and these and where it falls are among the nodes.
#[tactic(auto, using(passes::specs::RegionLaws::targets_row), unfolding(passes::specs::WalkTables::call_readable))]
fn call_readable(g: &Nodes<'_>, c: usize) -> bool
    requires { c < g.now.records.n }
    ensures { result ≡ call_readable_from g.now c }
{
    let n = g.records.n;
    let count = g.records.count(c);
    let fall = usize::from(g.fall(c));
    count <= MAX_ARGS && fall <= n && ids_below(g.targets(c), n + 1)
}

// Of a node that is no call nothing is asked.
#[tactic(auto, unfolding(passes::specs::WalkTables::node_readable, tables::specs::Columns::word_of))]
fn node_readable(g: &Nodes<'_>, c: usize) -> bool
    requires { c < g.now.records.n }
    ensures { result ≡ node_readable_from g.now c }
{
    !is_call(g.records.word(c)) || call_readable(g, c)
}

// Whether the calls among all these nodes can be read.
fn nodes_readable(g: &Nodes<'_>) -> bool
    ensures { result ≡ every_below (node_readable_from g.now) g.now.records.n }
{
    (0..g.records.n).all(|c| node_readable(g, c))
}

// n nodes, where the tables hold them, their calls can be read, and each has a set.
// Kept: here and below tables one by one, as regions::region_return_edges; the reason stands there.
pub fn nodes_of<'a>(
    stmts: &'a [u16],
    falls: &'a [u16],
    links: &'a [u16],
    n: usize,
    sets: &[u64],
) -> Option<Nodes<'a>>
    ensures { Tested (calls_readable stmts.now falls.now links.now n sets.now) (NodesAre stmts.now falls.now links.now n) result }
{
    if !sets_fit(stmts, sets, n) {
        return None;
    }
    if falls.len() < n * FALL_ENTRIES || links.len() < n * LINK_ENTRIES {
        return None;
    }
    let records = Records { stmts, n };
    let nodes = Nodes {
        records,
        falls,
        links,
    };
    nodes_readable(&nodes).then_some(nodes)
}

// Whether the calls among n nodes can be read, and each node has a set. Public, as the next: any routine over such
// tables can ask; here `nodes_of` serves.
pub fn calls_readable<'a>(
    stmts: &'a [u16],
    falls: &'a [u16],
    links: &'a [u16],
    n: usize,
    sets: &[u64],
) -> bool
    ensures { result ≡ calls_readable stmts.now falls.now links.now n sets.now }
{
    nodes_of(stmts, falls, links, n, sets).is_some()
}

// And the lists of the nodes.
// Kept: tables one by one, of whoever wrote them, as `calls_readable` takes them.
#[tactic(auto, unfolding(passes::specs::WalkTables::walks_readable))]
pub fn walks_readable(
    stmts: &[u16],
    falls: &[u16],
    links: &[u16],
    lists: &[u16],
    edges: &[u16],
    n: usize,
    sets: &[u64],
) -> bool
    ensures { result ≡ walks_readable stmts.now falls.now links.now lists.now edges.now n sets.now }
{
    lists_readable(lists, edges, n) && calls_readable(stmts, falls, links, n, sets)
}
