// Names, cut to two characters and their kind.
ghost use Rattle.std.specs.Prelude.{◌≡◌};
ghost use Rattle.listings.specs.Records.{name_key};
ghost use Rattle.program_files.specs.Program.{map_found, name};
ghost use Rattle.basic.specs.Cursors.{tokens_at};
ghost use Rattle.basic.specs.Found.{found_by};

use super::cursors::{Cursor, token_at};
use super::found::{Found, Lack};
use tokens::names::{KEY_BASE, is_capital, is_letter, is_suffix};

// Below this weight a character is one of the two that the cut keeps.
const KEPT: u64 = KEY_BASE * KEY_BASE;

// The key of the name at c: of its first two characters and its kind.
// Kept: `while`: a letter says where the next one is looked for, and the cursor behind the last is answered too; an
// iterator of letters would be a struct of token and cursor whose `next` does what a turn does here.
pub(crate) fn key_at(file: &[u8], c: Cursor) -> Result<Found<u64>, Lack>
    ensures { found_by (tokens_at file.now) result ≡ map_found name_key (name (tokens_at file.now c)) }
{
    let mut t = token_at(file, c);
    if !is_capital(t.byte) {
        return Err(Lack { place: t.place });
    }
    // The weight of the next byte that the cut keeps, and whether the second character is still to come.
    let mut weight: u64 = 1;
    let mut key: u64 = 0;
    let mut next = c;
    while is_letter(t.byte) {
        if weight < KEPT {
            key += weight * u64::from(t.byte - 32);
            weight *= KEY_BASE;
        }
        next = t.next;
        t = token_at(file, next);
    }
    if is_suffix(t.byte) {
        return Ok(Found {
            value: key + weight * u64::from(t.byte - 32),
            next: t.next,
        });
    }
    Ok(Found { value: key, next })
}
