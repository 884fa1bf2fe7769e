// The return targets: where the calls continue, in the order in which the calls stand, each once.
ghost use Rattle.std.specs.Prelude.{◌≡◌, [], ◌∷◌, ◌+◌, ◌*◌, ◌≤◌, ◌<◌, length};
ghost use Rattle.passes.specs.ReturnTargets.{continuation_number, FallsFit, Marking, TargetsListed};
ghost use Rattle.wiring.specs.OnLists.{TargetsPut, TargetsMade};
ghost use Rattle.tables.specs.OneMore.{one_more};

use crate::leads::Leads;
use layout::limits::MAX_STMTS;
use storing::growing::NodeList;
use tables::calls::is_call;
use walks::walk::no_marks;

// Where node i continues if it is a call.
fn continuation(g: &Leads<'_, '_>, i: usize) -> Option<u16>
    requires { i < g.now.nodes.records.n }
    ensures { one_more result ≡ continuation_number g.now.nodes.records.stmts.now g.now.nodes.falls.now i }
{
    if is_call(g.nodes.records.word(i)) {
        g.nodes.fall(i).checked_sub(1)
    } else {
        None
    }
}

// Puts node a behind the targets, unless its mark says that it is one of them.
// Kept: beside `walks::walk::mark_all`: that one asks for marks and room, and no function that another crate calls asks
// for anything.
fn put_target(list: &mut NodeList<'_>, a: u16, marks: &mut [bool; MAX_STMTS])
    requires { (a < MAX_STMTS) × (list.old.n < length list.old.part.now) × Marking MAX_STMTS marks.old list.old.part.now list.old.n }
    ensures { TargetsPut (a ∷ []) marks.new list.old list.new }
{
    let x = usize::from(a);
    if marks[x] {
        return;
    }
    marks[x] = true;
    list.push(a);
}

// From no marks and no target. A call adds at most one, so there is room for each.
fn put_targets(list: &mut NodeList<'_>, g: &Leads<'_, '_>, marks: &mut [bool; MAX_STMTS])
    requires n_bound { g.now.nodes.records.n ≤ length list.old.part.now }
    requires falls_fit { FallsFit g.now.nodes.falls.now g.now.nodes.records.n }
    requires fresh { list.old.n ≡ 0 }
    requires marking { Marking MAX_STMTS marks.old list.old.part.now list.old.n }
    ensures { TargetsMade g.now list.old list.new }
{
    for i in 0..g.nodes.records.n {
        if let Some(a) = continuation(g, i) {
            put_target(list, a, marks);
        }
    }
}

// Writes the return targets of all nodes and answers how many; the rest of the table stays.
// Kept: a part and how many, as `list_of` answers.
pub(crate) fn list_return_targets(g: &Leads<'_, '_>, returns: &mut [u16]) -> usize
    requires n_bound { g.now.nodes.records.n ≤ length returns.old }
    requires falls_fit { FallsFit g.now.nodes.falls.now g.now.nodes.records.n }
    ensures { TargetsListed g.now.nodes.records.stmts.now g.now.nodes.falls.now g.now.nodes.records.n returns.old returns.new result }
{
    let mut list = NodeList::new(returns);
    let mut marks = no_marks();
    put_targets(&mut list, g, &mut marks);
    list.len()
}
