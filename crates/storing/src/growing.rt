// A node's list while it grows, each node once, at the front of a part of any length: what does not fit is left out.
ghost use Rattle.std.specs.Prelude.{◌≡◌, [], ◌+◌, ◌*◌, ◌≤◌, ◌<◌, length, take, get_or};
ghost use Rattle.graph.specs.Lists.{has, each};
ghost use Rattle.graph_laws.specs.Adding.{decode};
ghost use Rattle.passes.specs.Closing.{fall_from};
ghost use Rattle.passes.specs.NodeList.{jump_edges};
ghost use Rattle.storing.specs.AddWithin.{add_all_in, jump_readable, jump_read};
ghost use Rattle.storing.specs.NodeLists.{AddedTo, Pushed, Same};

use layout::columns::{ARG_ENTRIES, COUNT, FALL_ENTRIES, STMT_ENTRIES};
use layout::limits::MAX_ARGS;
use layout::words::ONGOTO;
use tables::lists::holds;
use tables::nodes::{Nodes, entry};

// Whether node i's record, its links and where it falls can be read. By division, so that no i is too large.
#[tactic(auto, unfolding(crate::specs::AddWithin::jump_readable))]
fn jump_readable(stmts: &[u16], falls: &[u16], links: &[u16], i: usize) -> bool
    ensures { result ≡ jump_readable stmts.now falls.now links.now i }
{
    i < stmts.len() / STMT_ENTRIES
        && i < falls.len() / FALL_ENTRIES
        && i < links.len() / ARG_ENTRIES
        && usize::from(stmts[i * STMT_ENTRIES + COUNT]) <= MAX_ARGS
}

// A lent part, and how many of its entries are the list.
#[derive(Drop)]
pub struct NodeList<'a> {
    part: &'a mut [u16],
    n: usize,
}

impl<'a> NodeList<'a> {
    pub fn new(part: &'a mut [u16]) -> NodeList<'a>
        ensures same_reference { result.part.ghost_name ≡ part.entry.ghost_name }
        ensures empty { (result.part.now ≡ part.old) × (result.n ≡ 0) }
    {
        NodeList { part, n: 0 }
    }

    // The first n entries of a part. Public though nothing here calls it: a list can go on behind what stands in its
    // part already.
    pub fn with(part: &'a mut [u16], n: usize) -> NodeList<'a>
        ensures same_reference { result.part.ghost_name ≡ part.entry.ghost_name }
        ensures begun { (result.part.now ≡ part.old) × (result.n ≡ n) }
    {
        NodeList { part, n }
    }

    // How many nodes it has.
    // Kept: by a pattern, since the wrong program of this routine is an edit of a line that stands once (must-fail).
    pub fn len(&self) -> usize
        ensures { result ≡ self.now.n }
    {
        let NodeList { n, .. } = self;
        *n
    }

    // Whether the node a is one of them.
    fn has(&self, a: u16) -> bool
        requires { self.now.n ≤ length self.now.part.now }
        ensures { result ≡ has a (take self.now.n self.now.part.now) }
    {
        holds(&self.part[..self.n], a)
    }

    // Adds the node a, which is new, where the part is not full.
    pub fn push(&mut self, a: u16)
        ensures pushed { self.old.n < length self.old.part.now → Pushed self.old self.new a }
        ensures full { length self.old.part.now ≤ self.old.n → Same self.old self.new }
    {
        if self.n < self.part.len() {
            self.part[self.n] = a;
            self.n += 1;
        }
    }

    // Adds the node t - 1 once, where t is not 0 and the part is not full.
    pub fn add_edge(&mut self, t: u16)
        ensures { AddedTo self.old self.new (decode t) }
    {
        let Some(a) = t.checked_sub(1) else {
            return;
        };
        if self.part.len() <= self.n || self.has(a) {
            return;
        }
        self.push(a);
    }

    // Adds the nodes that a row of entries leads to.
    pub fn add_targets(&mut self, row: &[u16])
        ensures { AddedTo self.old self.new (each decode row.now) }
    {
        for &t in row {
            self.add_edge(t);
        }
    }

    // Adds where the node t - 1 falls, where t is not 0.
    pub fn add_fall(&mut self, falls: &[u16], t: u16)
        ensures { AddedTo self.old self.new (fall_from falls.now t) }
    {
        let Some(j) = usize::from(t).checked_sub(1) else {
            return;
        };
        self.add_edge(entry(falls, j * FALL_ENTRIES));
    }

    // The targets of GOTO, GOSUB or ON i, and then where an ON falls.
    // Kept: tables one by one, since `add_jump` answers for any number of nodes, and `Nodes` has at most 4,096.
    // Kept: `< ONGOTO` and no match of kinds: `add_jump` promises `jump_edges` of any record, and that compares.
    fn add_written(&mut self, stmts: &[u16], falls: &[u16], links: &[u16], i: usize)
        requires { (i * STMT_ENTRIES + STMT_ENTRIES ≤ length stmts.now) × (i * FALL_ENTRIES + FALL_ENTRIES ≤ length falls.now) × (i * ARG_ENTRIES + ARG_ENTRIES ≤ length links.now) × (get_or stmts.now (i * STMT_ENTRIES + COUNT) 0 ≤ MAX_ARGS) }
        ensures { AddedTo self.old self.new (jump_edges stmts.now falls.now links.now i) }
    {
        let at = i * ARG_ENTRIES;
        let end = at + usize::from(stmts[i * STMT_ENTRIES + COUNT]);
        self.add_targets(&links[at..end]);
        if stmts[i * STMT_ENTRIES] < ONGOTO {
            return;
        }
        self.add_edge(falls[i * FALL_ENTRIES]);
    }

    // The same on any tables: nothing where node i cannot be read. A RETURN has no target here.
    #[tactic(auto, unfolding(crate::specs::AddWithin::jump_read, crate::specs::AddWithin::jump_readable))]
    pub fn add_jump(&mut self, stmts: &[u16], falls: &[u16], links: &[u16], i: usize)
        ensures { AddedTo self.old self.new (jump_read stmts.now falls.now links.now i) }
    {
        if jump_readable(stmts, falls, links, i) {
            self.add_written(stmts, falls, links, i);
        }
    }
}

// The list of a jump alone, in a lent part.
pub(crate) fn put_jump<'b>(g: &Nodes<'_>, i: usize, part: &'b mut [u16]) -> &'b [u16]
    requires { (i < g.now.records.n) × (get_or g.now.records.stmts.now (i * STMT_ENTRIES + COUNT) 0 ≤ MAX_ARGS) }
    ensures { result.now ≡ add_all_in (length part.old) [] (jump_edges g.now.records.stmts.now g.now.falls.now g.now.links.now i) }
{
    let mut list = NodeList::new(part);
    list.add_written(g.records.stmts, g.falls, g.links, i);
    let n = list.len();
    &part[..n]
}
