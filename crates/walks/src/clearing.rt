// The RETURNs' rows of arguments, which held their sets, become zero again.
ghost use Rattle.std.specs.Prelude.{◌+◌, ◌*◌, ◌≤◌, ◌<◌, length};
ghost use Rattle.passes.specs.Clearing.{SetCleared, SetsCleared, ClearAnswered};

use crate::readable::sets_fit;
use crate::sets::{WORDS, words_of};
use layout::words::RETURN;
use tables::nodes::Records;

// Clears the set of node i, where that is a RETURN.
// Kept: here and below sets with their bound in the contract: a struct of them would be made in each of the three
// public functions that have them lent to write (`clear_sets`, `region_return_edges`, `return_edges_by_rows`), and what
// is called there in a loop, or before another, would have to promise besides that the records stay.
fn clear_set(records: &Records<'_>, i: usize, sets: &mut [u64])
    requires { (i < records.now.n) × (i * WORDS + WORDS ≤ length sets.old) }
    ensures { SetCleared records.now.stmts.now i sets.old sets.new }
{
    if records.word(i) == RETURN {
        sets[words_of(i)].fill(0);
    }
}

// Clears the set of each RETURN; all other rows stay.
// Kept: rows by their places, as in storing's predecessors.rt.
pub(crate) fn clear_returns(records: &Records<'_>, sets: &mut [u64])
    requires { records.now.n * WORDS ≤ length sets.old }
    ensures { SetsCleared records.now.stmts.now records.now.n sets.old sets.new }
{
    for i in 0..records.n {
        clear_set(records, i, sets);
    }
}

// The same on any tables: where they are too short for n nodes, nothing changes.
#[tactic(auto, unfolding(passes::specs::WalkTables::sets_fit))]
pub fn clear_sets(stmts: &[u16], sets: &mut [u64], n: usize)
    ensures { ClearAnswered stmts.now n sets.old sets.new }
{
    if sets_fit(stmts, sets, n) {
        clear_returns(&Records { stmts, n }, sets);
    }
}
