// The arguments of a statement's row: targets, FOR's name, NEXT's slots, each one number.
ghost use Rattle.std.specs.Prelude.{◌≡◌, true, map, ◌≤◌, length, take, drop};
ghost use Rattle.listings.specs.Rows.{split};
ghost use Rattle.listing_laws.specs.RowForms.{join};
ghost use Rattle.tokens.specs.Arguments.{are_slots};
ghost use Rattle.reader.specs.Operands.{entry_by, tier_entry, mark_entry, head_mark, opening_word, row_entries, row_detail, Put};

use tokens::arguments::Arguments;
use tokens::names::key_of;
use tokens::numbers::number;
use tokens::scan::{equal, first_word};
use tokens::tiers::{mark_of, tier_of};
use tokens::words::{Kind, kind_of};

// How many arguments a statement has, and FOR's tier or NEXT's mark; none by default.
#[derive(Clone, Copy, Default)]
pub(crate) struct Given {
    pub(crate) count: usize,
    pub(crate) detail: u16,
}

// A slot as it is stored: its name's key, or 0 for `*`, since no name has that key. `*` is tested first: that it is no
// name takes longer to find.
// Kept: a number; the lent tables, which C reads, have it so.
#[tactic(auto, unfolding(crate::specs::Operands::entry_by), using(crate::specs::Operands::key_or_zero, crate::specs::Operands::star_entry, listing_laws::specs::WordText::same_equal))]
fn slot_of(w: &[u8]) -> u64
    ensures { result ≡ entry_by true w.now }
{
    if equal(b"*", w) {
        return 0;
    }
    key_of(w).unwrap_or(0)
}

// An argument as it is stored: a slot or a number.
#[tactic(auto, unfolding(crate::specs::Operands::entry_by), using(crate::specs::Operands::number_or_zero))]
fn operand_of(arguments: Arguments, w: &[u8]) -> u64
    ensures { result ≡ entry_by (are_slots arguments) w.now }
{
    match arguments {
        Arguments::Numbers => u64::from(number(w).unwrap_or(0)),
        Arguments::Slots => slot_of(w),
    }
}

// A tier as it is stored.
// Kept: beside `mark_number`, a line each, as tokens' `tier_refusal`.
fn tier_number(w: &[u8]) -> u16
    ensures { result ≡ tier_entry w.now }
{
    tier_of(w).map_or(0, |t| t as u16)
}

// A mark as it is stored.
fn mark_number(w: &[u8]) -> u16
    ensures { result ≡ mark_entry w.now }
{
    mark_of(w).map_or(0, |m| m as u16)
}

// The words of s, each as one entry.
// Kept: counted by hand; the count is answered, and `enumerate` leaves no number behind its loop.
fn put_words(s: &[u8], arguments: Arguments, part: &mut [u64]) -> Given
    requires { length (split 32 s.now) ≤ length part.old }
    ensures { Put (map (entry_by (are_slots arguments)) (split 32 s.now)) 0 part.old part.new result }
{
    let mut count: usize = 0;
    for w in s.split(|b| *b == b' ') {
        part[count] = operand_of(arguments, w);
        count += 1;
    }
    Given { count, detail: 0 }
}

// V T
fn put_for(s: &[u8], part: &mut [u64]) -> Given
    requires { 1 ≤ length part.old }
    ensures { Put (map (entry_by true) (take 1 (split 32 s.now))) (tier_entry (join 32 (drop 1 (split 32 s.now)))) part.old part.new result }
{
    let (name, tier) = first_word(s).unwrap_or((s, b""));
    part[0] = slot_of(name);
    Given {
        count: 1,
        detail: tier_number(tier),
    }
}

// M S ..
fn put_next(s: &[u8], part: &mut [u64]) -> Given
    requires { length (drop 1 (split 32 s.now)) ≤ length part.old }
    ensures { Put (map (entry_by true) (drop 1 (split 32 s.now))) (head_mark (split 32 s.now)) part.old part.new result }
{
    let Some((mark, slots)) = first_word(s) else {
        return Given {
            count: 0,
            detail: mark_number(s),
        };
    };
    let g = put_words(slots, Arguments::Slots, part);
    Given {
        detail: mark_number(mark),
        ..g
    }
}

// The arguments among the words of s, a row without its brackets; word: the number of its opening word.
pub(crate) fn put_operands(word: usize, s: &[u8], part: &mut [u64]) -> Given
    requires { (word ≡ opening_word (split 32 s.now)) × (length (row_entries (split 32 s.now)) ≤ length part.old) }
    ensures { Put (row_entries (split 32 s.now)) (row_detail (split 32 s.now)) part.old part.new result }
{
    let Some((_, words)) = first_word(s) else {
        return Given::default();
    };
    match kind_of(word) {
        Some(Kind::For) => put_for(words, part),
        Some(Kind::Next) => put_next(words, part),
        _ => put_words(words, Arguments::Numbers, part),
    }
}
