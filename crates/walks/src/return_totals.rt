// How many edges the RETURNs have: each all the return targets with handlers, each its own set without.
ghost use Rattle.std.specs.Prelude.{◌≡◌, ◌+◌, ◌*◌, ◌≤◌, ◌<◌, eqb, length};
ghost use Rattle.layout.specs.Layout.{return_word};
ghost use Rattle.listings.specs.Bytes.{pick};
ghost use Rattle.tables.specs.Columns.{word_of};
ghost use Rattle.passes.specs.ReturnTotals.{sum_where, return_size, return_total};

use crate::readable::sets_fit;
use crate::sets::{Sets, size_of};
use layout::limits::MAX_STMTS;
use layout::words::RETURN;
use tables::nodes::Records;

// How many edges node i has as a RETURN: none where it is no RETURN.
// Kept: `handlers` says what the listing has, a word of the paper and of every definition here; an enum would be taken
// apart at each clause.
#[tactic(auto, unfolding(passes::specs::ReturnTotals::return_size, tables::specs::Columns::word_of, passes::specs::ReturnSets::set_of, passes::specs::Sets::size_of))]
fn return_size(handlers: bool, sets: &Sets<'_>, i: usize, targets: usize) -> usize
    requires { i < sets.now.records.n }
    ensures { result ≡ pick (eqb (word_of sets.now.records.stmts.now i) return_word) (return_size handlers targets sets.now.words.now i) 0 }
{
    if sets.records.word(i) != RETURN {
        return 0;
    }
    if handlers {
        return targets;
    }
    size_of(sets.of(i))
}

// How many edges all RETURNs have together.
// Kept: a loop in place of `sum`, which asks before it begins that the sizes met so far always fit, for any run of its
// chain; a loop's invariant says it of the turn at hand.
// Kept: `handlers`, as above.
fn sum_returns(handlers: bool, sets: &Sets<'_>, targets: usize) -> usize
    requires { targets ≤ MAX_STMTS }
    ensures { result ≡ sum_where (λ i. eqb (word_of sets.now.records.stmts.now i) return_word) (λ i. return_size handlers targets sets.now.words.now i) sets.now.records.n }
{
    let mut sum: usize = 0;
    for i in 0..sets.records.n {
        sum += return_size(handlers, sets, i, targets);
    }
    sum
}

// How many edges the RETURNs among n nodes have, of which there are at most `MAX_STMTS`, with at most so many
// targets; 0 where the tables are too short.
// Kept: 0 and no `Option`: it is public, that is what its promise says of such tables, and its caller made them long
// enough.
// Kept: `handlers`, as above.
#[tactic(auto, unfolding(passes::specs::ReturnTotals::return_total, passes::specs::WalkTables::sets_fit))]
pub fn count_returns<'a>(
    handlers: bool,
    stmts: &'a [u16],
    sets: &'a [u64],
    n: usize,
    targets: usize,
) -> usize
    ensures { result ≡ return_total handlers stmts.now sets.now n targets }
{
    if !sets_fit(stmts, sets, n) || MAX_STMTS < targets {
        return 0;
    }
    let records = Records { stmts, n };
    let words = sets;
    let sets = Sets { records, words };
    sum_returns(handlers, &sets, targets)
}
