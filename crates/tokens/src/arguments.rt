// The words after a form's opening word: why one of them is refused, by the lowest number, and how many there are.
ghost use Rattle.std.specs.Prelude.{◌≡◌, length};
ghost use Rattle.listings.specs.Rows.{are_words, split, parse_name, parse_slot, parse_tier, parse_mark, single};
ghost use Rattle.tokens.specs.Numbers.{as_number};
ghost use Rattle.tokens.specs.Arguments.{are_slots, checked, verdict, refusal_by, lowest, lowest_of, check_for, check_next, check_opened};

use super::names::is_name;
use super::numbers::number;
use super::scan::{equal, first_word};
use super::tiers::{mark_of, tier_of};
use super::words::Kind;
use layout::refusals::Reason;

// What the words of a list are, all of them.
// Kept: an enum, and no closure for `check_all`: it says once what a list holds, and by it words are judged here and
// stored in `reader`, each by its own routine.
#[derive(Clone, Copy, Debug, PartialEq, Eq)]
pub enum Arguments {
    Numbers,
    Slots,
}

// How many numbers or slots are listed, and why one of the words is refused.
// Kept: the count beside the verdict, and not in its `Ok`, since of a refused row it is told too.
#[derive(Clone, Copy, Debug, PartialEq, Eq)]
pub struct Checked {
    pub count: usize,
    pub verdict: Result<(), Reason>,
}

const NO_FORM: Checked = Checked {
    count: 0,
    verdict: Err(Reason::NotAForm),
};

// Whether all pieces between spaces are words: not empty, no bracket.
// Kept: case by case; with one test of the byte and `fresh` together the loop takes half as many instructions again.
pub fn are_words(s: &[u8]) -> bool
    ensures { result ≡ are_words (split 32 s.now) }
{
    // Nothing of the piece was passed yet.
    let mut fresh = true;
    for b in s {
        match b {
            b'(' | b')' => return false,
            b' ' => {
                if fresh {
                    return false;
                }
                fresh = true;
            }
            _ => fresh = false,
        }
    }
    !fresh
}

// Any word but the three tiers is no form.
// Kept: beside `mark_refusal`, a line each: one function of both would be told what was found, a tier or a mark.
#[tactic(auto, using(crate::specs::Arguments::tier_verdict))]
fn tier_refusal(w: &[u8]) -> Result<(), Reason>
    ensures { result ≡ verdict (parse_tier w.now) }
{
    tier_of(w).ok_or(Reason::NotAForm).and(Ok(()))
}

// Any word but the two marks is no form.
#[tactic(auto, using(crate::specs::Arguments::mark_verdict))]
fn mark_refusal(w: &[u8]) -> Result<(), Reason>
    ensures { result ≡ verdict (parse_mark w.now) }
{
    mark_of(w).ok_or(Reason::NotAForm).and(Ok(()))
}

// A name is due.
#[tactic(auto, using(listing_laws::specs::WordText::name_text, crate::specs::Names::name_invalid))]
fn name_refusal(w: &[u8]) -> Result<(), Reason>
    ensures { result ≡ verdict (parse_name w.now) }
{
    if is_name(w) {
        return Ok(());
    }
    Err(Reason::BadWord)
}

// A name is due, or `*`.
#[tactic(auto, unfolding(listings::specs::Rows::parse_slot), using(crate::specs::Arguments::slot_star, crate::specs::Arguments::slot_name))]
fn slot_refusal(w: &[u8]) -> Result<(), Reason>
    ensures { result ≡ verdict (parse_slot w.now) }
{
    if equal(b"*", w) {
        return Ok(());
    }
    name_refusal(w)
}

// Of a word of such a list.
// Kept: a function, and no method of `Arguments`: it is one of those above, each of a word.
#[tactic(auto, unfolding(crate::specs::Arguments::refusal_by), using(crate::specs::Arguments::number_verdict))]
fn argument_refusal(arguments: Arguments, w: &[u8]) -> Result<(), Reason>
    ensures { result ≡ refusal_by (are_slots arguments) w.now }
{
    match arguments {
        Arguments::Numbers => number(w).and(Ok(())),
        Arguments::Slots => slot_refusal(w),
    }
}

// "within it, the lowest number": of two refusals; b where none is refused.
// Kept: by the numbers; that a derived order is theirs would be a table of 441 cases.
#[tactic(auto, unfolding(crate::specs::Arguments::lowest), using(crate::specs::Arguments::lowest_second))]
pub fn lower<A: Drop, B: Drop>(a: Result<A, Reason>, b: Result<B, Reason>) -> Result<B, Reason>
    ensures { result ≡ lowest a b }
{
    let Err(x) = a else {
        return b;
    };
    let Err(y) = b else {
        return Err(x);
    };
    if y.number() < x.number() {
        return Err(y);
    }
    Err(x)
}

// All words are judged, those past the 64th too: a later word may have a lower number.
// Kept: counted by hand; the count is answered, and `enumerate` leaves no number behind its loop.
pub fn check_all(s: &[u8], arguments: Arguments) -> Checked
    ensures { result ≡ checked (length (split 32 s.now)) (lowest_of (refusal_by (are_slots arguments)) (split 32 s.now)) }
{
    let mut count: usize = 0;
    let mut verdict = Ok(());
    for w in s.split(|b| *b == b' ') {
        verdict = lower(verdict, argument_refusal(arguments, w));
        count += 1;
    }
    Checked { count, verdict }
}

// The one word of s as a number.
#[tactic(auto, using(crate::specs::Arguments::single_is, crate::specs::Arguments::single_many, crate::specs::Scan::has_space, crate::specs::Scan::lacks_space))]
pub fn single_number(s: &[u8]) -> Result<u16, Reason>
    ensures { result ≡ as_number (single (split 32 s.now)) }
{
    if s.contains(&b' ') {
        return Err(Reason::NotAForm);
    }
    number(s)
}

// A name and a tier; what has a space in it is no tier.
#[tactic(auto, using(crate::specs::Arguments::for_alone, crate::specs::Arguments::for_more))]
fn check_for(s: &[u8]) -> Checked
    ensures { result ≡ check_for (split 32 s.now) }
{
    let Some((name, tier)) = first_word(s) else {
        return NO_FORM;
    };
    Checked {
        count: 0,
        verdict: lower(name_refusal(name), tier_refusal(tier)),
    }
}

// A mark and slots.
#[tactic(auto, using(crate::specs::Arguments::next_alone, crate::specs::Arguments::next_slots))]
fn check_next(s: &[u8]) -> Checked
    ensures { result ≡ check_next (split 32 s.now) }
{
    let Some((mark, words)) = first_word(s) else {
        return Checked {
            count: 0,
            verdict: mark_refusal(s),
        };
    };
    let mark = mark_refusal(mark);
    let slots = check_all(words, Arguments::Slots);
    Checked {
        count: slots.count,
        verdict: lower(mark, slots.verdict),
    }
}

// The one number of s.
fn check_single(s: &[u8]) -> Checked
    ensures { result ≡ checked 0 (verdict (single (split 32 s.now))) }
{
    Checked {
        count: 0,
        verdict: single_number(s).and(Ok(())),
    }
}

// The words of s, one or more, after an opening word of this kind; after none of the 28 they are no form.
#[tactic(auto, unfolding(crate::specs::Arguments::check_opened, crate::specs::Arguments::check_kind))]
pub fn check_kind(kind: Option<Kind>, s: &[u8]) -> Checked
    ensures { result ≡ check_opened kind (split 32 s.now) }
{
    let Some(kind) = kind else {
        return NO_FORM;
    };
    match kind {
        Kind::Number | Kind::Run => check_single(s),
        Kind::Numbers => check_all(s, Arguments::Numbers),
        Kind::For => check_for(s),
        Kind::Next => check_next(s),
        _ => NO_FORM,
    }
}
