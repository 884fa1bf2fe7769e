// Names and their keys.
ghost use Rattle.std.specs.Prelude.{◌≡◌, ◌||◌, ◌+◌, ◌-◌, ◌*◌, ◌<◌, ◌≤◌, eqb};
ghost use Rattle.listings.specs.Bytes.{pick};
ghost use Rattle.listings.specs.Rows.{is_digit, is_capital, is_name, parse_name};
ghost use Rattle.tokens.specs.Names.{as_key, kept};

use super::numbers::is_digit;
use layout::refusals::Reason;

// A to Z.
#[tactic(auto, unfolding(listings::specs::Rows::is_capital))]
pub fn is_capital(b: u8) -> bool
    ensures { result ≡ is_capital b }
{
    matches!(b, b'A'..=b'Z')
}

// A name's key is a number to this base, with a digit for each byte, the first byte lowest. Each byte is 32 more than
// its digit.
pub const KEY_BASE: u64 = 64;

// What may follow a name's first letter.
pub fn is_letter(b: u8) -> bool
    ensures { result ≡ (is_capital b || is_digit b) }
{
    is_capital(b) || is_digit(b)
}

// `%` or `$`.
pub fn is_suffix(b: u8) -> bool
    ensures { result ≡ (eqb b 37 || eqb b 36) }
{
    matches!(b, b'%' | b'$')
}

// A capital, then at most seven capitals or digits, then a suffix or none.
// Kept: a loop; tried as `position` of the first byte that is no letter: a name takes a tenth more instructions.
pub fn is_name(w: &[u8]) -> bool
    ensures { result ≡ is_name w.now }
{
    let [first, rest @ ..] = w else {
        return false;
    };
    if !is_capital(*first) {
        return false;
    }
    for (i, b) in rest.iter().enumerate() {
        if i == 7 || !is_letter(*b) {
            return is_suffix(*b) && i + 1 == rest.len();
        }
    }
    true
}

// Whether the cut keeps byte b, which stands at i: one of the first two, or the kind.
#[tactic(auto, unfolding(crate::specs::Names::kept))]
fn is_kept(i: usize, b: u8) -> bool
    ensures { result ≡ kept i b }
{
    i < 2 || !is_letter(b)
}

// The key so far, with the byte at i before it where the cut keeps that byte.
fn with_byte(a: u64, i: usize, b: u8) -> u64
    requires { (a < 281474976710656) × (33 ≤ b) × (b ≤ 95) }
    ensures { result ≡ pick (kept i b) ((b - 32) + 64 * a) a }
{
    if !is_kept(i, b) {
        return a;
    }
    a * KEY_BASE + u64::from(b - b' ')
}

// The key of a name that is judged whole and then cut to two characters and its kind: the bytes less 32 as digits to
// the base 64, the first byte lowest. No two cut names have the same key.
pub fn key_of(w: &[u8]) -> Result<u64, Reason>
    ensures { result ≡ as_key (parse_name w.now) }
{
    if !is_name(w) {
        return Err(Reason::BadWord);
    }
    let mut a: u64 = 0;
    for (i, b) in w.iter().enumerate().rev() {
        a = with_byte(a, i, *b);
    }
    Ok(a)
}
