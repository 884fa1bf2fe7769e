// The judge: a whole text, accepted or refused.
ghost use Rattle.std.specs.Prelude.{◌≡◌};
ghost use Rattle.listings.specs.Read.{read};
ghost use Rattle.listings.specs.Rows.{row_of, content_of};
ghost use Rattle.reader.specs.Answer.{by_number, listed_of};
ghost use Rattle.reader.specs.CodedRows.{as_row};
ghost use Rattle.reader.specs.Machine.{step_row, stepped};
ghost use Rattle.reader.specs.States.{state_of};
ghost use Rattle.reader.specs.Judge.{finish_state};

use super::listing::Accepted;
use super::machine::State;
use super::rows::{Position, row_of};
use layout::limits::MAX_BYTES;
use layout::refusals::{Reason, Refusal};
use tokens::scan::first_row;

// The text ends in row i, after e bytes of it.
// Kept: field by field, and not by `From`: an accepted text is told at this place alone.
fn finish(s: State, i: usize, e: usize) -> Result<Accepted, Refusal>
    ensures { result ≡ finish_state (state_of s) i e }
{
    if s.is_at(Position::Ended) && e == 0 {
        return Ok(Accepted {
            handlers: s.handlers,
            lines: s.lines,
            stmts: s.stmts,
        });
    }
    Err(Reason::NotAForm.at(i))
}

// What a row makes of the state.
fn step(s: &mut State, row: &[u8]) -> Result<(), Reason>
    ensures { stepped result (state_of s.new) ≡ step_row (state_of s.old) (as_row (content_of (row_of row.now))) }
{
    match row_of(row) {
        Ok(row) => s.step_row(row),
        Err(misfit) => Err(s.reason_at(misfit)),
    }
}

// "The first bad row decides": the rows one after the other.
// Kept: `while let`, with i counted by hand: an iterator of rows would be a struct whose `next` is this call, and what is
// left behind the last row is asked for when the loop is over.
pub(crate) fn judge(text: &[u8]) -> Result<Accepted, Refusal>
    ensures { by_number result ≡ listed_of (read text.now) }
{
    if MAX_BYTES < text.len() {
        return Err(Reason::TextTooLong.at(0));
    }
    let mut s = State::start();
    let mut i: usize = 0;
    let mut left = text;
    while let Some((row, rest)) = first_row(left) {
        step(&mut s, row).map_err(|reason| reason.at(i))?;
        i += 1;
        left = rest;
    }
    finish(s, i, left.len())
}
