// The sets of the RETURNs, `WORDS` words a node: where each returns to.
ghost use Rattle.std.specs.Prelude.{◌≡◌, [], ◌∷◌, ◌*◌, ◌≤◌, length};
ghost use Rattle.passes.specs.ReturnSets.{ReturnsJoined};

use crate::sets::{WORDS, join, words_of};
use layout::words::RETURN;
use tables::nodes::Records;

// Joins `backs` into the set of node i, where that is a RETURN.
// Kept: here and below sets with their bound in the contract, as in clearing.rt.
fn join_return(records: &Records<'_>, i: usize, backs: &[u64; WORDS], sets: &mut [u64])
    requires { records.now.n * WORDS ≤ length sets.old }
    ensures { ReturnsJoined records.now.stmts.now records.now.n (i ∷ []) backs.now sets.old sets.new }
{
    if i < records.n && records.word(i) == RETURN {
        join(&mut sets[words_of(i)], backs);
    }
}

// A region's calls return to `backs`: these are joined into the set of each RETURN of its list, and all other sets
// stay.
pub(crate) fn join_returns(
    records: &Records<'_>,
    list: &[u16],
    backs: &[u64; WORDS],
    sets: &mut [u64],
)
    requires { records.now.n * WORDS ≤ length sets.old }
    ensures { ReturnsJoined records.now.stmts.now records.now.n list.now backs.now sets.old sets.new }
{
    // A copy: behind the reference it would be read anew at each turn, since the sets are written.
    let records = *records;
    for &i in list {
        join_return(&records, usize::from(i), backs, sets);
    }
}
