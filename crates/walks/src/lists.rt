// Lists of the nodes that pass a test, ascending, at the front of an array that is lent.
ghost use Rattle.std.specs.Prelude.{◌≡◌, ℕ, Bool, ◌<◌, ◌≤◌};
ghost use Rattle.passes.specs.Sets.{Put};
ghost use Rattle.passes.specs.Dispatched.{is_dispatched, dispatched_ids};
ghost use Rattle.passes.specs.ListedWhere.{listed_where};
ghost use Rattle.passes.specs.Regions.{calls_below};

use layout::columns::DISPATCHED;
use layout::limits::MAX_STMTS;
use layout::words::FOR;
use tables::calls::is_call;
use tables::nodes::{Nodes, Records};

// Those that pass: how many.
// Kept: a closure, and the `requires` that one needs, that it can be called: as a trait with a ghost member each of the
// two tests, a line as a closure, becomes a struct and an `impl`, eleven lines (written, not proved).
// Kept: a counter: `.filter(..).enumerate()` counts too, but its count ends with the loop.
fn list_where<F: Fn(usize) -> bool>(
    records: &Records<'_>,
    passes: F,
    list: &mut [u16; MAX_STMTS],
) -> usize
    requires { F.IsAlwaysCallable passes }
    ensures few { result ≤ MAX_STMTS }
    ensures put { (p : ℕ → Bool) → ((i : ℕ) (r : Bool) → i < records.now.n → F.post passes i r → r ≡ p i) → Put list.old 0 list.new result (listed_where p records.now.n) }
{
    let mut m: usize = 0;
    for i in 0..records.n {
        if passes(i) {
            list[m] = i as u16;
            m += 1;
        }
    }
    m
}

// The calls, as the front of the array.
pub(crate) fn list_calls<'b>(records: &Records<'_>, list: &'b mut [u16; MAX_STMTS]) -> &'b [u16]
    ensures { result.now ≡ calls_below records.now.stmts.now records.now.n }
{
    let m = list_where(records, |i| is_call(records.word(i)), list);
    &list[..m]
}

// Whether node i is a dispatched FOR that has a body.
#[tactic(auto, using(std::proofs::lemmas::Bool::Decides::nat_tests), unfolding(passes::specs::Dispatched::is_dispatched))]
fn is_dispatched(g: &Nodes<'_>, i: usize) -> bool
    ensures { result ≡ is_dispatched g.now.records.stmts.now g.now.falls.now i }
{
    g.records.word(i) == FOR && g.records.detail(i) == DISPATCHED && g.fall(i) != 0
}

// The dispatched FORs that have a body: how many.
// Kept: a number, and not the front of the array, which `list_calls` answers: of an array that is lent on no clause can
// say what stands behind that front.
pub fn list_dispatched(g: &Nodes<'_>, list: &mut [u16; MAX_STMTS]) -> usize
    ensures few { result ≤ MAX_STMTS }
    ensures put { Put list.old 0 list.new result (dispatched_ids g.now.records.stmts.now g.now.falls.now g.now.records.n) }
{
    list_where(&g.records, |i| is_dispatched(g, i), list)
}
