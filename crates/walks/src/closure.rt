// Rows of bits, `WORDS` words a node, as sets have them: where each node leads, and, once they are closed, all that it
// can reach (Warshall).
ghost use Rattle.std.specs.Prelude.{◌≡◌, ◌+◌, ◌*◌, ◌≤◌, ◌<◌, eqb, length};
ghost use Rattle.passes.specs.Sets.{bit};
ghost use Rattle.passes.specs.ReturnSets.{set_of};
ghost use Rattle.passes.specs.Closure.{Closed, RowJoined, RowsJoined};
ghost use Rattle.walks.specs.FromListed.{RowReachedFrom, RowListedFrom};

use crate::sets::{Sets, WORDS, has_bit, insert, join, no_words, put_members, set_at, words_of};
use layout::limits::MAX_STMTS;
use layout::words::RETURN;

// Row i as a set of its own, so that the rows can change meanwhile.
#[tactic(auto, unfolding(passes::specs::ReturnSets::set_of))]
fn row_copy(rows: &[u64], i: usize) -> [u64; WORDS]
    requires { (i < MAX_STMTS) × (i * WORDS + WORDS ≤ length rows.now) }
    ensures { result ≡ set_of rows.now i }
{
    *set_at(rows, i).as_array().unwrap()
}

// Joins `row`, which is row k, into row i, where that has node k.
// Kept: here and below rows with their bound in the contract: a struct of rows and n would be made for one call, that
// of `close_rows`, and the first two would have to promise besides that n stays.
fn close_row(rows: &mut [u64], i: usize, k: usize, row: &[u64; WORDS])
    requires { (i < MAX_STMTS) × (i * WORDS + WORDS ≤ length rows.old) × (k < MAX_STMTS) }
    ensures { RowJoined k row.now i rows.old rows.new }
{
    if has_bit(&rows[words_of(i)], k) {
        join(&mut rows[words_of(i)], row);
    }
}

// Ways by way of node k.
// Kept: rows by their places, as in storing's predecessors.rt.
fn close_round(rows: &mut [u64], n: usize, k: usize)
    requires { (n ≤ MAX_STMTS) × (n * WORDS ≤ length rows.old) × (k < n) }
    ensures { RowsJoined k (set_of rows.old k) n rows.old rows.new }
{
    let row = row_copy(rows, k);
    for i in 0..n {
        close_row(rows, i, k, &row);
    }
}

// Row i says where node i leads; then it has all that can be reached from it in one step or more.
pub(crate) fn close_rows(rows: &mut [u64], n: usize)
    requires { (n ≤ MAX_STMTS) × (n * WORDS ≤ length rows.old) }
    ensures { Closed n rows.old rows.new }
{
    for k in 0..n {
        close_round(rows, n, k);
    }
}

// All that a walk from `from` would list: that node alone where it is a RETURN, which takes no step and whose row may
// hold where it returns to; else with its row.
fn row_region(rows: &Sets<'_>, from: usize) -> [u64; WORDS]
    requires { from < rows.now.records.n }
    ensures { RowReachedFrom rows.now from result }
{
    let mut set = no_words();
    insert(&mut set, from);
    if rows.records.word(from) == RETURN {
        return set;
    }
    join(&mut set, rows.of(from));
    set
}

// Lists these, ascending, at the front of an array that is lent.
pub(crate) fn list_row<'b>(
    rows: &Sets<'_>,
    from: usize,
    work: &'b mut [u16; MAX_STMTS],
) -> &'b [u16]
    requires { from < rows.now.records.n }
    ensures { RowListedFrom rows.now from result.now }
{
    let set = row_region(rows, from);
    let n = put_members(&set, work);
    &work[..n]
}
