// A line, judged: its offences first, the least of them; then 4 to 8.
ghost use Rattle.std.specs.Prelude.{◌≡◌, ◌<◌, ◌≤◌, ◌+◌, length};
ghost use Rattle.std.proofs.Math.Option.{some};
ghost use Rattle.listings.specs.Listing.{Stmts};
ghost use Rattle.program_files.specs.Program.{sooner};
ghost use Rattle.program_files.specs.Program as definition;
ghost use Rattle.basic.specs.Bodies.{summary, AtMost};
ghost use Rattle.basic.specs.Cursors.{raw_at};
ghost use Rattle.basic.specs.Lines.{LineTold, WithTold, Kept, EndsLine, IsInnerLeast, IsLeast, word_at, bytes_at, stmts_at, with_foreign, zero_at, first_foreign, offence_of, offence_in};

use super::bodies::{Body, judge_body};
use super::codes;
use super::covered::zero_from;
use super::cursors::{Cursor, counted_at};
use super::found::Lack;
use super::line::{Counted, LineAt, Taken};
use super::numbers::MAX_LINE_NUMBER;
use layout::limits::{MAX_LINES, MAX_STMTS};
use layout::refusals::{Reason, Refusal};
use tokens::numbers::ascends;

// The word of two bytes at a place, the low byte first.
pub(crate) fn word_at(file: &[u8], at: usize) -> u16
    requires { at + 1 < length file.now }
    ensures { result ≡ word_at file.now at }
{
    u16::from_le_bytes([file[at], file[at + 1]])
}

// The place of the first 64 hexadecimal that counts from c on.
// Kept: `loop`, as `actions::seek_at`.
fn foreign_at(file: &[u8], c: Cursor) -> Option<usize>
    ensures { result ≡ first_foreign (raw_at file.now c) }
{
    let mut at = c;
    loop {
        let t = counted_at(file, at);
        match t.byte {
            0 => return None,
            codes::FOREIGN => return Some(t.place),
            _ => at = t.next,
        }
    }
}

// "The first offending byte decides", and of two on one byte the lower number.
fn sooner(a: Refusal, b: Option<Refusal>) -> Refusal
    ensures { some (offence_of result) ≡ sooner (offence_of a) (offence_in b) }
{
    let Some(b) = b else {
        return a;
    };
    let first = (a.place, a.reason.number());
    let second = (b.place, b.reason.number());
    if second < first {
        return b;
    }
    a
}

// Kept: the zero and its fact in four contracts: a struct of them would be made for these four alone.
impl LineAt<'_> {
    // The statements of the line, and where its zero stands: beside them, since it is asked of a line that lacks
    // something too.
    fn body(&self) -> (Result<Body, Lack>, usize)
        ensures told { result.0 ≡ summary (stmts_at self.now.file.now self.now.at) }
        ensures few { AtMost (length self.now.file.now) result.0 }
        ensures zero { EndsLine self.now.file.now self.now.at result.1 }
    {
        let from = self.at + 4;
        match judge_body(self.file, Cursor::uncovered(from)) {
            Ok(whole) => (Ok(whole.body), whole.zero),
            Err(lack) => (Err(lack), zero_from(self.file, from)),
        }
    }

    // The first 64 hexadecimal that counts of the line, whose zero stands at `zero`.
    // Whether it has one at all is asked first: most lines have none, and std's `contains` takes many bytes at once.
    fn foreign(&self, zero: usize) -> Option<usize>
        requires { EndsLine self.now.file.now self.now.at zero }
        ensures { result ≡ first_foreign (bytes_at self.now.file.now self.now.at) }
    {
        let from = self.at + 4;
        if !self.file[from..zero].contains(&codes::FOREIGN) {
            return None;
        }
        foreign_at(self.file, Cursor::uncovered(from))
    }

    // An offence, or the first 64 hexadecimal of the line.
    // Kept: a `match`, whose arms are the definition's cases (`with_foreign`).
    fn or_foreign(&self, zero: usize, o: Option<Refusal>) -> Option<Refusal>
        requires { EndsLine self.now.file.now self.now.at zero }
        ensures { offence_in result ≡ with_foreign (first_foreign (bytes_at self.now.file.now self.now.at)) (offence_in o) }
    {
        match self.foreign(zero) {
            Some(place) => Some(sooner(Reason::ForeignByte.at(place), o)),
            None => o,
        }
    }

    // The least offence of the line, but for its number's. body: its statements.
    fn inner_offence(&self, zero: usize, body: Result<Body, Lack>) -> Option<Refusal>
        requires { EndsLine self.now.file.now self.now.at zero }
        ensures { IsInnerLeast self.now.file.now self.now.at body result }
    {
        let end = self.file.len();
        let cut = (zero == end).then_some(Reason::EndsEarly.at(end));
        let o = match body {
            Err(lack) => Some(sooner(lack.into(), cut)),
            Ok(_) => cut,
        };
        self.or_foreign(zero, o)
    }

    // The least offence of the line, whose number is n.
    fn offence(&self, n: u16, zero: usize, body: Result<Body, Lack>) -> Option<Refusal>
        requires { EndsLine self.now.file.now self.now.at zero }
        ensures { IsLeast self.now.file.now self.now.at n body result }
    {
        let o = self.inner_offence(zero, body);
        if MAX_LINE_NUMBER < u32::from(n) {
            return Some(sooner(Reason::Lacking.at(self.at + 2), o));
        }
        o
    }

    // The line, whose link is not 0, behind others. Its place in a refusal by 4 to 8 is its index.
    pub(crate) fn judge(&self, s: Counted) -> Result<Taken, Refusal>
        requires linked { word_at self.now.file.now self.now.at ≡ 0 → ⊥ }
        requires short { length self.now.file.now ≤ 65536 }
        ensures told { LineTold self.now.file.now self.now.at s result }
        ensures kept { Kept (self.now.at + 5 + zero_at self.now.file.now self.now.at) result }
    {
        let n = word_at(self.file, self.at + 2);
        let (body, zero) = self.body();
        if let Some(offence) = self.offence(n, zero, body) {
            return Err(offence);
        }
        s.with_line(n, body?, zero + 1)
    }
}

impl Counted {
    // "within a line 4 to 8 come after 33 to 35, lowest first"
    fn with_line(self, n: u16, body: Body, next: usize) -> Result<Taken, Refusal>
        requires few { body.stmts ≤ 65536 }
        ensures told { (st : Stmts) → Ok body ≡ summary (definition.body st) → WithTold self n st result }
        ensures kept { Kept next result }
    {
        if !ascends(self.last, n) {
            return Err(Reason::LineOrder.at(self.lines));
        }
        if MAX_LINES <= self.lines {
            return Err(Reason::TooManyLines.at(self.lines));
        }
        if MAX_STMTS < self.stmts + body.stmts {
            return Err(Reason::TooManyStatements.at(self.lines));
        }
        if body.deep {
            return Err(Reason::TooDeep.at(self.lines));
        }
        if body.long {
            return Err(Reason::TooWide.at(self.lines));
        }
        Ok(Taken {
            counted: Counted {
                last: Some(n),
                lines: self.lines + 1,
                stmts: self.stmts + body.stmts,
            },
            next,
        })
    }
}
