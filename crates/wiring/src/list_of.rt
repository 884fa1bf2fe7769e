// A node's list, each edge once: what its statement adds, then what later nodes add, then an orphan NEXT's bodies.
ghost use Rattle.std.specs.Prelude.{◌≡◌, ◌<◌, take};
ghost use Rattle.graph.specs.Lists.{each};
ghost use Rattle.graph_laws.specs.Adding.{decode};
ghost use Rattle.passes.specs.AddRoom.{RoomToAdd};
ghost use Rattle.passes.specs.EntryOrder.{Rises, EntryRoom};
ghost use Rattle.passes.specs.NodeList.{run_edges, next_edges, until_edges, block_edges, own_edges, OwnRoom};
ghost use Rattle.storing.specs.NodeLists.{AddedTo, Grew};
ghost use Rattle.wiring.specs.FromLeads.{frames_of, ListMadeFrom, ListReadyFrom, nodes_from};
ghost use Rattle.wiring.specs.OnLists.{EntryMade};

use crate::closing::add_closing;
use crate::entries::Entries;
use crate::leads::Leads;
use crate::nexts::{add_dispatched_back_edges, add_popped};
use layout::columns::{ENTRY_ENTRIES, ENTRY_NODE, FALL_ENTRIES, FIRST_BRANCH};
use layout::limits::MAX_STMTS;
use layout::words::{
    ANY, ELSE, ENDLOOP, EXIT, GOSUB, GOTO, NEXT, ONGOSUB, ONGOTO, RETURN, RUN, STOP, UNTIL,
};
use storing::growing::NodeList;

// Adds the first line's entry.
fn add_first(list: &mut NodeList<'_>, w: &Entries<'_>)
    ensures { AddedTo list.old list.new (each decode (take 1 (nodes_from w.now))) }
{
    if w.count == 0 {
        return;
    }
    list.add_edge(w.node(0));
}

// Adds the entry e after the entry `last`: if it is another one, it is not there yet.
// Kept: the numbers, and no `checked_sub(1)`: an entry is compared with the last one as the table has it.
fn add_entry(list: &mut NodeList<'_>, e: u16, last: u16)
    requires { EntryRoom list.old.part.now list.old.n e last }
    ensures { EntryMade e list.old list.new }
{
    if e == last {
        return;
    }
    list.push(e - 1);
}

// Adds all line entries. They ascend, so each is compared with the last one only, and nothing is searched for.
fn all_line_entry_nodes(list: &mut NodeList<'_>, w: &Entries<'_>)
    requires fresh { list.old.n ≡ 0 }
    requires room_to_add { RoomToAdd list.old.part.now list.old.n (each decode (nodes_from w.now)) }
    requires rises { Rises 0 (nodes_from w.now) }
    ensures { Grew list.old list.new (each decode (nodes_from w.now)) }
{
    let mut last: u16 = 0;
    let end = w.count * ENTRY_ENTRIES;
    let (rows, _) = w.rows[..end].as_chunks::<ENTRY_ENTRIES>();
    for row in rows {
        let e = row[ENTRY_NODE];
        if e == 0 {
            return;
        }
        add_entry(list, e, last);
        last = e;
    }
}

// A RUN goes to its target; without a number to the first line's entry.
fn add_run(list: &mut NodeList<'_>, g: &Leads<'_, '_>, i: usize)
    ensures { AddedTo list.old list.new (run_edges g.now.nodes.records.stmts.now g.now.entries.rows.now g.now.nodes.links.now g.now.entries.count i) }
{
    if g.nodes.records.count(i) == 0 {
        add_first(list, &g.entries);
        return;
    }
    list.add_targets(g.nodes.targets(i));
}

// A NEXT goes to the bodies of the FORs that it pops, then it falls.
fn add_next(list: &mut NodeList<'_>, g: &Leads<'_, '_>, i: usize)
    ensures { AddedTo list.old list.new (next_edges g.now.nodes.records.stmts.now g.now.nodes.falls.now g.now.nodes.links.now i) }
{
    add_popped(list, &g.nodes, i);
    list.add_edge(g.nodes.fall(i));
}

// An UNTIL that closes a frame goes to its body, then it falls; any other adds nothing.
fn add_until(list: &mut NodeList<'_>, g: &Leads<'_, '_>, i: usize)
    ensures { AddedTo list.old list.new (until_edges g.now.nodes.falls.now (frames_of g.now) i) }
{
    if let Some(o) = g.opener(i) {
        list.add_edge(g.nodes.fall(o));
        list.add_edge(g.nodes.fall(i));
    }
}

// The words that are no jump: an ENDLOOP goes to the body of its frame; an EXIT, an ELSE and a STOP do not fall.
fn add_block(list: &mut NodeList<'_>, g: &Leads<'_, '_>, word: u16, i: usize)
    ensures { AddedTo list.old list.new (block_edges word g.now.nodes.falls.now (frames_of g.now) i) }
{
    match word {
        ENDLOOP => list.add_edge(g.fall_of(g.opener(i))),
        UNTIL => add_until(list, g, i),
        EXIT | ELSE | STOP => {}
        _ => list.add_edge(g.nodes.fall(i)),
    }
}

// What the statement of node i adds to its own list, which is empty.
fn add_own(list: &mut NodeList<'_>, g: &Leads<'_, '_>, i: usize)
    requires in_bounds { i < g.now.nodes.records.n }
    requires ready { OwnRoom g.now.nodes.records.stmts.now g.now.entries.rows.now g.now.nodes.falls.now g.now.nodes.links.now (frames_of g.now) g.now.entries.count i list.old.part.now list.old.n }
    ensures { Grew list.old list.new (own_edges g.now.nodes.records.stmts.now g.now.entries.rows.now g.now.nodes.falls.now g.now.nodes.links.now (frames_of g.now) g.now.entries.count i) }
{
    let word = g.nodes.records.word(i);
    match word {
        // Kept: all words below GOTO, as `own_edges` has it of any number; of a node they are IF, IFELSE and RCOMP.
        ..GOTO => {
            let at = i * FALL_ENTRIES + FIRST_BRANCH;
            let end = at + 2;
            list.add_targets(&g.nodes.falls[at..end]);
        }
        RUN => add_run(list, g, i),
        GOTO | GOSUB | RETURN | ONGOTO | ONGOSUB => list.add_jump(
            g.nodes.records.stmts,
            g.nodes.falls,
            g.nodes.links,
            i,
        ),
        NEXT => add_next(list, g, i),
        ANY => all_line_entry_nodes(list, &g.entries),
        _ => add_block(list, g, word, i),
    }
}

// The list of node i, each edge once, at the front of the part; answers how long it is. A RETURN's is left empty here.
// Kept: a part and how many. Tried: on a list that is handed in, whose count then stands in memory, `flowlist` took 4 %
// more instructions on 1,024 lines of ANY.
pub(crate) fn list_of(
    g: &Leads<'_, '_>,
    args: &[u64],
    i: usize,
    part: &mut [u16; MAX_STMTS],
) -> usize
    requires in_bounds { i < g.now.nodes.records.n }
    requires ready { ListReadyFrom g.now args.now i MAX_STMTS }
    ensures { ListMadeFrom g.now args.now i part.old part.new result }
{
    let mut list = NodeList::new(part);
    add_own(&mut list, g, i);
    add_closing(&mut list, g, i);
    add_dispatched_back_edges(&mut list, g, args, i);
    list.len()
}
