// Writes the records of a text that is accepted: row by row, into zeroed tables that can hold them.
ghost use Rattle.std.specs.Prelude.{◌≡◌, true, false, ◌+◌, ◌*◌, ◌-◌, ◌≤◌, ◌<◌, length, set, eqb, Ok};
ghost use Rattle.listings.specs.Read.{start};
ghost use Rattle.listings.specs.Cut.{meant};
ghost use Rattle.reader.specs.Branch.{branch_columns};
ghost use Rattle.reader.specs.Lent.{ReadyIn, RecordedIn, ZeroedIn, FilledIn};
ghost use Rattle.reader.specs.Fill.{held, entry_of, branch_stmts, end_table, to_table, end_walk, outside_walk, added_walk, inside_walk, add_simple, add_cond, OperandsPut, Wrote, Ready, EndReady, ToReady, AddReady, HasRoom};
ghost use Rattle.reader.specs.CodedRows.{cond_index, is_second};
ghost use Rattle.reader.specs.Machine.{as_state};
ghost use Rattle.reader.specs.States.{state_of};
ghost use Rattle.reader.specs.RowOperands.{operands_in, row_operands, IsStatement, RowReady};

use super::branch::Branch;
use super::machine::State;
use super::operands::{Given, put_operands};
use super::rows::{Position, Row, Which, accepted_row};
use super::tables::{Entry, Records, append, fetch, store};
use layout::columns::{
    ARG_ENTRIES, END, FORM1, FORM2, HOLDER, INDEX, NUMBER1, NUMBER2, SECOND, STMT_ENTRIES,
};
use layout::limits::{MAX_ARGS, MAX_LINES, MAX_STMTS};
use layout::words::IF;
use tokens::scan::first_row;
use tokens::words::Cond;

// In which IF the next statement stands, and the number it gets there; in none by default.
#[derive(Clone, Copy, Default)]
pub(crate) struct Walk {
    pub(crate) holder: Option<u16>,
    pub(crate) index: u16,
}

// Where reading stands, and where the next statement goes.
// Kept: what a row does at a place stands below as functions of the table that each writes, which comes first; the
// place is only read there.
#[derive(Clone, Copy)]
pub(crate) struct Place {
    pub(crate) state: State,
    pub(crate) walk: Walk,
}

impl Place {
    // Before the first row.
    pub(crate) fn start() -> Place
        ensures { (state_of result.state ≡ as_state start) × (result.walk ≡ outside_walk) }
    {
        Place {
            state: State::start(),
            walk: Walk::default(),
        }
    }

    // What is known of a statement at its row. A holder is stored as one more than its node, and 0 is none.
    fn entry(&self, word: usize, end: usize, g: Given) -> Entry
        requires { (0 < self.now.state.lines) × (self.now.state.lines ≤ MAX_LINES) × (held self.now.walk.holder ≤ MAX_STMTS) × (word ≤ 28) × (end ≤ MAX_STMTS) × (g.count ≤ MAX_ARGS) }
        ensures { result ≡ entry_of (state_of self.now.state) self.now.walk word end g }
    {
        Entry {
            word: word as u16,
            line: (self.state.lines - 1) as u16,
            holder: self.walk.holder.map_or(0, |i| i + 1),
            index: self.walk.index,
            end: end as u16,
            count: g.count as u16,
            detail: g.detail,
        }
    }
}

// That branch of IF i ends before node n, where a second one begins.
fn end_branch(t: &mut [u16], i: usize, which: Which, branch: Branch, n: usize)
    requires { (i * STMT_ENTRIES + STMT_ENTRIES ≤ length t.old) × (i ≤ MAX_STMTS) × (n ≤ MAX_STMTS) }
    ensures { t.new ≡ branch_stmts t.old i (is_second which) (branch_columns branch).0 (branch_columns branch).1 n }
{
    let (form, number) = branch.columns();
    match which {
        Which::First => {
            store(t, i, SECOND, n as u16);
            store(t, i, FORM1, form);
            store(t, i, NUMBER1, number);
        }
        Which::Second => {
            store(t, i, FORM2, form);
            store(t, i, NUMBER2, number);
        }
    }
}

// `)`: the way back from an IF is in its own record.
fn end_row(t: &mut [u16], p: &Place) -> Walk
    requires { EndReady t.old (state_of p.now.state) p.now.walk }
    ensures { (result ≡ end_walk t.old (state_of p.now.state) p.now.walk) × (t.new ≡ end_table t.old (state_of p.now.state) p.now.walk) }
{
    let Some(node) = p.walk.holder else {
        return Walk::default();
    };
    let i = usize::from(node);
    if p.state.is_at(Position::InCond) {
        let holder = fetch(t, i, HOLDER).checked_sub(1);
        let k = fetch(t, i, INDEX);
        store(t, i, END, p.state.stmts as u16);
        return Walk {
            holder,
            index: k + 1,
        };
    }
    end_branch(t, i, p.state.branch_open(), Branch::Stmts, p.state.stmts);
    p.walk
}

// `(to N)`
fn to_row(t: &mut [u16], p: &Place, n: u16) -> Walk
    requires { ToReady t.old (state_of p.now.state) p.now.walk }
    ensures { (result ≡ p.now.walk) × (t.new ≡ to_table t.old (state_of p.now.state) p.now.walk n) }
{
    let Some(node) = p.walk.holder else {
        return p.walk;
    };
    let i = usize::from(node);
    end_branch(t, i, p.state.branch_due(), Branch::To(n), p.state.stmts);
    p.walk
}

// The record of a statement that holds none; the next one stands beside it.
fn add_simple(stmts: &mut [u16], p: &Place, word: usize, given: Given) -> Walk
    requires { AddReady stmts.old (state_of p.now.state) p.now.walk word × (given.count ≤ MAX_ARGS) }
    ensures { (result ≡ added_walk p.now.walk) × (stmts.new ≡ add_simple stmts.old (state_of p.now.state) p.now.walk word given) }
{
    let n = p.state.stmts;
    append(stmts, n, p.entry(word, n + 1, given));
    Walk {
        holder: p.walk.holder,
        index: p.walk.index + 1,
    }
}

// The record of an IF, whose branches are not read yet; the next statement stands inside it.
fn add_cond(stmts: &mut [u16], p: &Place, word: Cond) -> Walk
    requires { AddReady stmts.old (state_of p.now.state) p.now.walk (cond_index word + 2) }
    ensures { (result ≡ inside_walk (state_of p.now.state)) × (stmts.new ≡ add_cond stmts.old (state_of p.now.state) p.now.walk word) }
{
    let k = usize::from(IF) + word as usize;
    let n = p.state.stmts;
    append(stmts, n, p.entry(k, 0, Given::default()));
    Walk {
        holder: Some(n as u16),
        index: 0,
    }
}

// `(line N`
fn add_line(lines: &mut [u16], at: usize, n: u16) -> Walk
    requires { at < length lines.old }
    ensures { (result ≡ outside_walk) × (lines.new ≡ set lines.old at n) }
{
    lines[at] = n;
    Walk::default()
}

// What a row that is taken appends or amends. given: of a statement, whose arguments are in their entries already.
pub(crate) fn write_row(
    lines: &mut [u16],
    stmts: &mut [u16],
    p: &Place,
    row: Row,
    given: Given,
) -> Walk
    requires { Ready lines.old stmts.old (state_of p.now.state) p.now.walk (Ok row) given }
    ensures { Wrote lines.old stmts.old (state_of p.now.state) p.now.walk (Ok row) given lines.new stmts.new result }
{
    match row {
        Row::End => end_row(stmts, p),
        Row::Stmts => p.walk,
        Row::Module(_) => Walk::default(),
        Row::Line(n) => add_line(lines, p.state.lines, n),
        Row::To(n) => to_row(stmts, p, n),
        Row::Simple { word, count: _ } => add_simple(stmts, p, word, given),
        Row::Cond(word) => add_cond(stmts, p, word),
    }
}

// The arguments of statement n, whose row is given, into its own 64 entries.
fn put_row_operands(word: usize, row: &[u8], args: &mut [u64], n: usize) -> Given
    requires { IsStatement row.now word × HasRoom args.old n (operands_in row.now) }
    ensures { OperandsPut args.old n (operands_in row.now) args.new result }
{
    let from = n * ARG_ENTRIES;
    let last = row.len() - 1;
    put_operands(word, &row[1..last], &mut args[from..])
}

// Writes a row of text, with its arguments.
fn write_text_row(text: &[u8], t: &mut Records<'_>, p: &Place, row: Row) -> Walk
    requires { RowReady text.now (Ok row) × ReadyIn t.old (state_of p.now.state) p.now.walk (Ok row) (row_operands text.now (Ok row)) }
    ensures { RecordedIn t.old (state_of p.now.state) p.now.walk (Ok row) (row_operands text.now (Ok row)) t.new result }
{
    let given = match row {
        Row::Simple { word, count: _ } => put_row_operands(word, text, t.args, p.state.stmts),
        _ => Given::default(),
    };
    write_row(t.lines, t.stmts, p, row, given)
}

// The rows again, each of which was taken before.
// Kept: `while let`: an iterator of rows, as at `judge`, would be a struct whose `next` is this call.
pub(crate) fn fill(text: &[u8], t: &mut Records<'_>)
    requires { ZeroedIn (meant text.now) t.old }
    ensures { FilledIn (meant text.now) t.old t.new }
{
    let mut p = Place::start();
    let mut left = text;
    while let Some((row, rest)) = first_row(left) {
        let taken = accepted_row(row);
        p.walk = write_text_row(row, t, &p, taken);
        p.state.step_row(taken).unwrap();
        left = rest;
    }
}
