// A verdict as a row.
ghost use Rattle.comparing.specs.ComparingStates.{verdict_as};
ghost use Rattle.checking.specs.Checking.{RowShown};

use formatting::page::{print_bytes, print_refusal};
use layout::refusals::Refused;

// Room for each such row.
pub const MAX_ROW: usize = 64;

// The row that is printed for a verdict.
// Kept: a length, as `formatting::page::print_bytes` answers.
// Kept: a pair of what the refusal tells: its number is known to be a byte, so the row's length is known.
pub fn show_verdict<R: Refused>(out: &mut [u8; MAX_ROW], verdict: Result<(), R>) -> usize
    ensures { RowShown out.old out.new result (verdict_as R.as_pair verdict) }
{
    match verdict {
        Ok(()) => print_bytes(out, b"(right)\n"),
        Err(refusal) => print_refusal(out, (refusal.number(), refusal.place())),
    }
}
