// The lent tables: a number for each line, statement records of 12 entries one after the other, and their arguments.
ghost use Rattle.std.specs.Prelude.{◌≡◌, ◌++◌, ◌+◌, ◌*◌, ◌≤◌, ◌<◌, length, drop, set, get_or, replicate};
ghost use Rattle.reader.specs.Tables.{entry_row, append_row};
ghost use Rattle.reader.specs.Lent.{Same};

use layout::columns::{
    COUNT, DETAIL, END, FORM1, FORM2, HOLDER, INDEX, LINE, NUMBER1, NUMBER2, SECOND, STMT_ENTRIES,
    WORD,
};
use layout::limits::MAX_STMTS;

// What is lent for the records: a number for each line, and for each statement a record and its arguments.
#[derive(Drop)]
pub(crate) struct Records<'a> {
    pub(crate) lines: &'a mut [u16],
    pub(crate) stmts: &'a mut [u16],
    pub(crate) args: &'a mut [u64],
}

impl Records<'_> {
    // The tables become zero.
    // Kept: a call each; no array holds tables of two types.
    pub(crate) fn clear(&mut self)
        ensures same { Same self.old self.new }
        ensures zero { (self.new.lines.now ≡ replicate (length self.old.lines.now) 0) × (self.new.stmts.now ≡ replicate (length self.old.stmts.now) 0) × (self.new.args.now ≡ replicate (length self.old.args.now) 0) }
    {
        self.lines.fill(0);
        self.stmts.fill(0);
        self.args.fill(0);
    }
}

// What is known of a statement when its row is read; the entries between end and count are its branches, not read yet.
#[derive(Drop)]
pub(crate) struct Entry {
    pub(crate) word: u16,
    pub(crate) line: u16,
    pub(crate) holder: u16,
    pub(crate) index: u16,
    pub(crate) end: u16,
    pub(crate) count: u16,
    pub(crate) detail: u16,
}

// All twelve entries, so that nothing older is left among them.
// Kept: tried as an array: stored by `copy_from_slice`, reading 4,096 plain statements takes 4 % more instructions
// (2.49 million, 2.40), and of `first_chunk_mut` in a slice a proof learns no last value.
#[tactic(auto, using(crate::specs::Tables::sets_row))]
fn put_record(part: &mut [u16], e: Entry)
    requires { STMT_ENTRIES ≤ length part.old }
    ensures { part.new ≡ entry_row e ++ drop STMT_ENTRIES part.old }
{
    part[WORD] = e.word;
    part[LINE] = e.line;
    part[HOLDER] = e.holder;
    part[INDEX] = e.index;
    part[END] = e.end;
    part[SECOND] = 0;
    part[FORM1] = 0;
    part[NUMBER1] = 0;
    part[FORM2] = 0;
    part[NUMBER2] = 0;
    part[COUNT] = e.count;
    part[DETAIL] = e.detail;
}

// The record of statement n, which is the next one.
// Kept: here and below a table with its row's bound in the contract: a struct of both would be made in each of the four
// functions that call these (`end_branch`, `end_row`, `add_simple`, `add_cond`).
pub(crate) fn append(t: &mut [u16], n: usize, e: Entry)
    requires { (n * STMT_ENTRIES + STMT_ENTRIES ≤ length t.old) × (n ≤ MAX_STMTS) }
    ensures { t.new ≡ append_row t.old n e }
{
    let at = n * STMT_ENTRIES;
    put_record(&mut t[at..], e);
}

// Column c of record i.
pub(crate) fn store(t: &mut [u16], i: usize, c: usize, v: u16)
    requires { (i * STMT_ENTRIES + STMT_ENTRIES ≤ length t.old) × (i ≤ MAX_STMTS) × (c < STMT_ENTRIES) }
    ensures { t.new ≡ set t.old (i * STMT_ENTRIES + c) v }
{
    t[i * STMT_ENTRIES + c] = v;
}

// Column c of record i, read.
pub(crate) fn fetch(t: &[u16], i: usize, c: usize) -> u16
    requires { (i * STMT_ENTRIES + STMT_ENTRIES ≤ length t.now) × (i ≤ MAX_STMTS) × (c < STMT_ENTRIES) }
    ensures { result ≡ get_or t.now (i * STMT_ENTRIES + c) 0 }
{
    t[i * STMT_ENTRIES + c]
}
