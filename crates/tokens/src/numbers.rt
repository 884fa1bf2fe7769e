// A word as a number: "decimal without leading zeros, 0 to 65535".
ghost use Rattle.std.specs.Prelude.{◌≡◌, ◌+◌, ◌*◌, true};
ghost use Rattle.std.specs.List.{list_all};
ghost use Rattle.listings.specs.Rows.{all, is_digit, no_leading_zero, parse_number};
ghost use Rattle.tokens.specs.Numbers.{at_most, small_value, as_number, ascends, flag_of};

use layout::limits::MAX_NUMBER;
use layout::refusals::Reason;

// 0 to 9.
#[tactic(auto, unfolding(listings::specs::Rows::is_digit))]
pub fn is_digit(b: u8) -> bool
    ensures { result ≡ is_digit b }
{
    matches!(b, b'0'..=b'9')
}

// Whether there are only digits.
fn all_digits(w: &[u8]) -> bool
    ensures { result ≡ list_all is_digit w.now }
{
    w.iter().all(|b| is_digit(*b))
}

// A single 0 is no leading zero.
#[tactic(auto, using(crate::specs::Numbers::no_zero_short, crate::specs::Numbers::no_zero_long))]
fn no_leading_zero(w: &[u8]) -> bool
    ensures { result ≡ no_leading_zero w.now }
{
    w.len() < 2 || w[0] != b'0'
}

// A number with one digit more, if it is then at most `most`.
pub fn with_digit(value: u32, digit: u32, most: u32) -> Option<u32>
    ensures { result ≡ at_most most (value * 10 + digit) }
{
    let n = u64::from(value) * 10 + u64::from(digit);
    if u64::from(most) < n {
        return None;
    }
    Some(n as u32)
}

// The value of digits, if it is at most 65535: digits of any length do not overflow.
fn value_of(w: &[u8]) -> Option<u16>
    requires { all is_digit w.now ≡ true }
    ensures { result ≡ small_value w.now }
{
    let mut v: u32 = 0;
    for b in w {
        v = with_digit(v, u32::from(*b - b'0'), MAX_NUMBER as u32)?;
    }
    Some(v as u16)
}

// What a word is where a number is due: no number at all where it is not all digits, a bad one with a leading zero or
// above 65535.
#[tactic(auto, using(crate::specs::ListWords::all_is, crate::specs::Numbers::number_malformed, crate::specs::Numbers::number_zero, crate::specs::Numbers::number_value))]
pub fn number(w: &[u8]) -> Result<u16, Reason>
    ensures { result ≡ as_number (parse_number w.now) }
{
    if !all_digits(w) {
        return Err(Reason::NotAForm);
    }
    if !no_leading_zero(w) {
        return Err(Reason::BadWord);
    }
    value_of(w).ok_or(Reason::BadWord)
}

// Whether a line's number is above the last one's, if there is one.
pub fn ascends(last: Option<u16>, n: u16) -> bool
    ensures { result ≡ ascends last n }
{
    last.is_none_or(|m| m < n)
}

// 0 or 1.
#[tactic(auto, using(crate::specs::Numbers::flag_zero, crate::specs::Numbers::flag_one, crate::specs::Numbers::flag_none))]
pub fn flag_of(w: &[u8]) -> Option<bool>
    ensures { result ≡ flag_of w.now }
{
    match w {
        b"0" => Some(false),
        b"1" => Some(true),
        _ => None,
    }
}
