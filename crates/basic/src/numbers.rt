// Line numbers.
ghost use Rattle.std.specs.Prelude.{◌≡◌};
ghost use Rattle.program_files.specs.Program.{line_number};
ghost use Rattle.basic.specs.Cursors.{tokens_at};
ghost use Rattle.basic.specs.Found.{found_by};

use super::cursors::{Cursor, token_at};
use super::found::{Found, Lack};
use tokens::numbers::{is_digit, with_digit};

// The greatest number that a line of a saved program may have.
pub(crate) const MAX_LINE_NUMBER: u32 = 63999;

// "a line number exceeds 63999": its place is its first byte.
// Kept: `while`, as `names::key_at`.
// Kept: `u64`, as the arguments of the lent table are: numbers and keys are found by one type.
pub(crate) fn line_number(file: &[u8], c: Cursor) -> Result<Found<u64>, Lack>
    ensures { found_by (tokens_at file.now) result ≡ line_number (tokens_at file.now c) }
{
    let mut t = token_at(file, c);
    let place = t.place;
    if !is_digit(t.byte) {
        return Err(Lack { place });
    }
    let mut value: u32 = 0;
    let mut next = c;
    while is_digit(t.byte) {
        value = with_digit(value, u32::from(t.byte - b'0'), MAX_LINE_NUMBER).ok_or(Lack { place })?;
        next = t.next;
        t = token_at(file, next);
    }
    Ok(Found {
        value: u64::from(value),
        next,
    })
}
