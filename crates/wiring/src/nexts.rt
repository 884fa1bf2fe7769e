// What a NEXT's list gets of FORs: the bodies of those that it pops, and of the dispatched ones that an orphan's slots
// select.
ghost use Rattle.std.specs.Prelude.{◌≡◌, ◌+◌, ◌*◌, ◌≤◌, ◌<◌, length, take, get_or};
ghost use Rattle.graph.specs.Lists.{each};
ghost use Rattle.passes.specs.ListedNodes.{SlotsCounted};
ghost use Rattle.passes.specs.ForLinks.{popped_by};
ghost use Rattle.passes.specs.AddedAgain.{AllIn};
ghost use Rattle.passes.specs.NextBodies.{body_at, link_body, selects_key, selected_body, came_before, orphan_bodies, ForRoom};
ghost use Rattle.storing.specs.NodeLists.{AddedTo, Grew};
ghost use Rattle.wiring.specs.FromLeads.{SelectRoomFrom, slot_from};

use crate::leads::Leads;
use layout::columns::{ARG_ENTRIES, COUNT, ORPHAN, STMT_ENTRIES};
use layout::words::NEXT;
use storing::growing::NodeList;
use tables::nodes::Nodes;

// Adds the bodies of the FORs that a row of links names.
fn add_links(list: &mut NodeList<'_>, falls: &[u16], row: &[u16])
    ensures { AddedTo list.old list.new (each (link_body falls.now) row.now) }
{
    for &t in row {
        list.add_fall(falls, t);
    }
}

// Adds the bodies of the FORs that NEXT i pops.
pub(crate) fn add_popped(list: &mut NodeList<'_>, g: &Nodes<'_>, i: usize)
    ensures { AddedTo list.old list.new (each (body_at g.now.falls.now) (popped_by g.now.links.now i (get_or g.now.records.stmts.now (i * STMT_ENTRIES + COUNT) 0))) }
{
    add_links(list, g.falls, g.targets(i));
}

// Whether a slot selects a FOR by its name: key 0 selects all.
// Kept: the numbers: the lent table holds the keys so, 0 for `*`.
#[tactic(auto, using(std::proofs::lemmas::Bool::Decides::nat_tests), unfolding(passes::specs::NextBodies::selects_key))]
fn selects(key: u64, name: u64) -> bool
    ensures { result ≡ selects_key key name }
{
    key == 0 || name == key
}

// Adds the body of the FOR o, if the slot selects it.
// Kept: it and those below ask for room: that the FOR's row of arguments is there has to be asked for all the same, and
// a slot that came before adds nothing since all that it selects is in the list (`added`), which is so with room.
fn add_selected(list: &mut NodeList<'_>, g: &Leads<'_, '_>, args: &[u64], o: u16, key: u64)
    requires { ForRoom args.now g.now.nodes.falls.now o list.old.part.now list.old.n }
    ensures { Grew list.old list.new (selected_body args.now g.now.nodes.falls.now key o) }
{
    let k = usize::from(o);
    if selects(key, args[k * ARG_ENTRIES]) {
        list.add_edge(g.nodes.fall(k));
    }
}

// Adds the bodies of the dispatched FORs that one slot selects.
fn add_slot(list: &mut NodeList<'_>, g: &Leads<'_, '_>, args: &[u64], key: u64)
    requires { SelectRoomFrom g.now args.now list.old }
    ensures { Grew list.old list.new (slot_from g.now args.now key) }
{
    for &o in g.dispatched {
        add_selected(list, g, args, o, key);
    }
}

// Whether one of the keys selects every FOR that `key` does.
fn came_before(keys: &[u64], key: u64) -> bool
    ensures { result ≡ came_before keys.now key }
{
    keys.iter().any(|k| selects(*k, key))
}

// Adds the bodies that a slot selects. Where a slot before it selects them too they are in the list already, and
// nothing is searched.
fn add_new_slot(list: &mut NodeList<'_>, g: &Leads<'_, '_>, args: &[u64], before: &[u64], key: u64)
    requires select_room { SelectRoomFrom g.now args.now list.old }
    requires added { AllIn (take list.old.n list.old.part.now) (each (slot_from g.now args.now) before.now) }
    ensures { Grew list.old list.new (slot_from g.now args.now key) }
{
    if came_before(before, key) {
        return;
    }
    add_slot(list, g, args, key);
}

// Adds the bodies that each slot selects, slot by slot.
fn add_slots(list: &mut NodeList<'_>, g: &Leads<'_, '_>, args: &[u64], keys: &[u64])
    requires { SelectRoomFrom g.now args.now list.old }
    ensures { Grew list.old list.new (each (slot_from g.now args.now) keys.now) }
{
    for (k, &key) in keys.iter().enumerate() {
        add_new_slot(list, g, args, &keys[..k], key);
    }
}

// Adds, if node i is an orphan NEXT, the bodies of the dispatched FORs that its slots select.
pub(crate) fn add_dispatched_back_edges(
    list: &mut NodeList<'_>,
    g: &Leads<'_, '_>,
    args: &[u64],
    i: usize,
)
    requires i_in_bounds { (i < g.now.nodes.records.n) × (i * ARG_ENTRIES + ARG_ENTRIES ≤ length args.now) }
    requires slots_counted { SlotsCounted g.now.nodes.records.stmts.now i }
    requires select_room { SelectRoomFrom g.now args.now list.old }
    ensures { Grew list.old list.new (orphan_bodies g.now.nodes.records.stmts.now args.now g.now.nodes.falls.now g.now.dispatched.now i) }
{
    if g.nodes.records.word(i) != NEXT || g.nodes.records.detail(i) != ORPHAN {
        return;
    }
    add_slots(list, g, args, &args[g.nodes.records.args_of(i)]);
}
