// Where statements fall and where branches lead.
ghost use Rattle.std.specs.Prelude.{◌≡◌, true, false, [], ◌∷◌, ◌+◌, ◌*◌, ◌≤◌, ◌<◌, length};
ghost use Rattle.std.proofs.lemmas.List.Edits.{sets};
ghost use Rattle.passes.specs.Falls.{target_of, RowConnected, StmtConnected, BranchConnected, LinesConnected};
ghost use Rattle.passes.specs.Connecting.{Begins};
ghost use Rattle.layout.specs.Refusals.{refusal_at};
ghost use Rattle.layout.specs.declared.refusals.Reason.TheVariants as reason;
ghost use Rattle.wiring.specs.Found.{all_found};
ghost use Rattle.wiring.specs.Branches.{Led};

use crate::entries::Entries;
use layout::columns::{FALL_ENTRIES, FORM1, FORM2, NO_BRANCH, NUMBER1, NUMBER2, STMT_ENTRIES};
use layout::limits::{MAX_DEPTH, MAX_STMTS};
use layout::refusals::{Reason, Refusal};
use reader::branch::Branch;
use tables::nodes::Records;

// Statements nest to depth 16, and those of a line have depth 0.
const DEPTHS: usize = MAX_DEPTH + 1;

// A record does not say where inner statements are.
#[derive(Clone, Copy, Debug, PartialEq, Eq)]
pub(crate) struct NotFound;

impl From<NotFound> for Refusal {
    ghost from_gives = { λ _ r. r ≡ refusal_at reason.NotFound 0 };

    fn from(_: NotFound) -> Refusal {
        Reason::NotFound.at(0)
    }
}

// Where a statement falls that ends at e, in a list that ends at `end` and then comes to `next`; of a line from e to
// `end`, its entry.
// Kept: `next`, here and below, is the number that a row of falls holds: all that hands it on ends in `put_falls`.
// Kept: `end` and `next` one by one: four of the nine calls pair them anew, and a struct would be made at each of
// these.
pub(crate) fn target_of(e: usize, end: usize, next: u16) -> u16
    requires { e < 65535 }
    ensures { result ≡ target_of e end next }
{
    if e < end { (e + 1) as u16 } else { next }
}

// Where statement i falls, and where its branches lead.
fn put_falls(falls: &mut [u16], i: usize, fall: u16, first: u16, second: u16)
    requires { i * FALL_ENTRIES + FALL_ENTRIES ≤ length falls.old }
    ensures { falls.new ≡ sets falls.old (i * FALL_ENTRIES) (fall ∷ first ∷ second ∷ []) }
{
    let at = i * FALL_ENTRIES;
    falls[at..at + FALL_ENTRIES].copy_from_slice(&[fall, first, second]);
}

// Where the statements of line l begin that end at `end`, by the records: its entry may be another line's statement.
pub(crate) fn start_of(r: &Records<'_>, l: usize, end: usize) -> usize
    requires { end ≤ r.now.n }
    ensures { Begins r.now.stmts.now l end result }
{
    (0..end)
        .rev()
        .find(|&i| r.line(i) != l)
        .map_or(0, |i| i + 1)
}

// The rows that connecting reads: line entries, and the records of their statements.
#[derive(Clone, Copy)]
pub(crate) struct Rows<'a, 'b> {
    pub entries: Entries<'a>,
    pub records: Records<'b>,
}

impl<'a, 'b> Rows<'a, 'b> {
    // Where a branch leads: to its line's entry, to its first statement, or, without one, to where its IF falls.
    fn branch_target(&self, branch: Option<Branch>, from: usize, end: usize, next: u16) -> u16
        requires { from < 65535 }
        ensures { Led self.now.entries.rows.now self.now.entries.count branch from end next result }
    {
        match branch {
            None => next,
            Some(Branch::Stmts) => target_of(from, end, next),
            Some(Branch::To(number)) => self.entries.entry_of(number),
        }
    }

    // The row of an IF whose second branch begins at m and that ends at `end`.
    // Kept: by place; the four columns of branches are read here alone, and the first once more below.
    fn connect_row(&self, falls: &mut [u16], i: usize, m: usize, end: usize, next: u16)
        requires { (i < self.now.records.n) × (m ≤ MAX_STMTS) × (i * FALL_ENTRIES + FALL_ENTRIES ≤ length falls.old) }
        ensures { RowConnected self.now.entries.rows.now self.now.entries.count self.now.records.stmts.now i m end next falls.old falls.new }
    {
        let stmts = self.records.stmts;
        let row = i * STMT_ENTRIES;
        let first = Branch::of_columns(stmts[row + FORM1], stmts[row + NUMBER1]);
        let second = Branch::of_columns(stmts[row + FORM2], stmts[row + NUMBER2]);
        let first_leads = self.branch_target(first, i + 1, m, next);
        let second_leads = self.branch_target(second, m, end, next);
        put_falls(falls, i, next, first_leads, second_leads);
    }

    // Statement i, which ends at `end`, and those in its branches fall to `next`.
    #[cycle(connect_stmt_connect_then_branch)]
    fn connect_stmt(
        &self,
        falls: &mut [u16],
        depth: usize,
        i: usize,
        end: usize,
        next: u16,
    ) -> Result<(), NotFound>
        requires { (i < end) × (end ≤ self.now.records.n) × (end * FALL_ENTRIES ≤ length falls.old) }
        ensures { StmtConnected self.now.entries.rows.now self.now.entries.count self.now.records.stmts.now depth i end next falls.old falls.new (all_found result) }
    {
        let row = i * STMT_ENTRIES;
        if self.records.stmts[row + FORM1] == NO_BRANCH {
            put_falls(falls, i, next, 0, 0);
            return Ok(());
        }
        let m = self.records.second(i);
        let inner = depth.checked_sub(1).ok_or(NotFound)?;
        if !(i + 1..=end).contains(&m) {
            return Err(NotFound);
        }
        self.connect_row(falls, i, m, end, next);
        self.connect_then_branch(falls, inner, i + 1, m, next)?;
        self.connect_then_branch(falls, inner, m, end, next)
    }

    // The statements from `from` up to `end`: each falls to the one after it, the last to `next`.
    // Kept: a `while`, since each ends where its record says.
    #[cycle(connect_stmt_connect_then_branch)]
    fn connect_then_branch(
        &self,
        falls: &mut [u16],
        depth: usize,
        from: usize,
        end: usize,
        next: u16,
    ) -> Result<(), NotFound>
        requires { (from ≤ end) × (end ≤ self.now.records.n) × (end * FALL_ENTRIES ≤ length falls.old) }
        ensures { BranchConnected self.now.entries.rows.now self.now.entries.count self.now.records.stmts.now depth from end next falls.old falls.new (all_found result) }
    {
        let mut i = from;
        while i < end {
            let e = self.records.end(i);
            if !(i + 1..=end).contains(&e) {
                return Err(NotFound);
            }
            let target = target_of(e, end, next);
            self.connect_stmt(falls, depth, i, e, target)?;
            i = e;
        }
        Ok(())
    }

    // Where the statements of all lines fall, and where their branches lead.
    // Each line's statements fall to the next line's entry. From the last line up, where that entry is at hand.
    pub(crate) fn connect_lines(&self, falls: &mut [u16]) -> Result<(), NotFound>
        requires { self.now.records.n * FALL_ENTRIES ≤ length falls.old }
        ensures { LinesConnected self.now.entries.rows.now self.now.records.stmts.now self.now.entries.count self.now.records.n falls.old falls.new (all_found result) }
    {
        let mut next: u16 = 0;
        let mut end = self.records.n;
        for l in (0..self.entries.count).rev() {
            let from = start_of(&self.records, l, end);
            self.connect_then_branch(falls, DEPTHS, from, end, next)?;
            next = self.entries.node(l);
            end = from;
        }
        Ok(())
    }
}
