// Sets of nodes, `WORDS` words each: id i is bit i % WORD_BITS of word i / WORD_BITS.
ghost use Rattle.std.specs.Prelude.{◌≡◌, ◌+◌, ◌*◌, ◌%◌, ◌≤◌, ◌<◌, ◌^◌, eqb, length, replicate};
ghost use Rattle.listings.specs.Bytes.{pick};
ghost use Rattle.passes.specs.Sets.{bit, inserted, joined, one_if, word_members, members_of, size_of, members_within, Put};
ghost use Rattle.passes.specs.ReturnSets.{set_of};
ghost use Rattle.walks.specs.declared.sets.TheConstants.{WORDS};

use layout::limits::MAX_STMTS;
use layout::zeroing::all_of;
use std::ops::Range;
use tables::nodes::Records;

// The bits of a word.
pub const WORD_BITS: usize = u64::BITS as usize;

// The words of a set: a bit for each statement that there may be. A row of arguments has as many entries.
// Kept: a set that is lent is a slice, and no array of so many words: it stands in a row of a lent table, which
// definitions read flat (`set_of`); rows would have to be made of it, by `as_chunks`, wherever it is lent, and be read
// flat again in clauses. `size_of` and `members` go over to the array (`as_array`), and what they call takes it;
// `has_bit`, `insert` and `join_set` answer for a set of any length.
pub const WORDS: usize = MAX_STMTS / WORD_BITS;

// The set of node i, of a table with one for each node; where the table ends before it has them all, what there is
// of it.
pub fn set_at(sets: &[u64], i: usize) -> &[u64]
    ensures is_set { result.now ≡ set_of sets.now i }
    ensures whole { i * WORDS + WORDS ≤ length sets.now → length result.now ≡ WORDS }
{
    let start = i.saturating_mul(WORDS).min(sets.len());
    let end = start.saturating_add(WORDS).min(sets.len());
    &sets[start..end]
}

// Where the words of node i's set stand in a table with one for each node.
// Kept: beside `tables::nodes::words_of`, which another crate calls and so answers for any number, with care at the
// product and the sum: here i is a node, and the closure asks n * n times. By that one (proved) 4,088 ANYs took 1.97
// times the instructions.
pub(crate) fn words_of(i: usize) -> Range<usize>
    requires { i < MAX_STMTS }
    ensures { (result.start ≡ i * WORDS) × (result.end ≡ i * WORDS + WORDS) }
{
    let start = i * WORDS;
    start..start + WORDS
}

// n nodes and a set for each, which are only read.
#[derive(Clone, Copy)]
pub struct Sets<'a> {
    pub records: Records<'a>,
    pub words: &'a [u64],
    pub ghost rows: { records.n * WORDS ≤ length words.now },
}

impl<'a> Sets<'a> {
    // The set of node i, as `set_at`.
    pub fn of(&self, i: usize) -> &'a [u64]
        ensures is_set { result.now ≡ set_of self.now.words.now i }
        ensures whole { i < self.now.records.n → length result.now ≡ WORDS }
    {
        set_at(self.words, i)
    }
}

// The empty set.
pub fn no_words() -> [u64; WORDS]
    ensures { result ≡ replicate WORDS 0 }
{
    all_of(0)
}

// The bit of an id in its word.
pub fn bit(id: usize) -> u64
    ensures { result ≡ 2 ^ (id % WORD_BITS) }
{
    1u64 << (id % WORD_BITS)
}

// Whether the set has an id; it has none where its words end before it.
// Kept: its word by `get`: `tables::nodes::entry` is of `u16` tables; of any type that one line would need a bound, and
// its clause the type's `is_default`, for two places.
#[tactic(auto, unfolding(passes::specs::Sets::bit))]
pub fn has_bit(words: &[u64], id: usize) -> bool
    ensures { result ≡ eqb (bit words.now id) 1 }
{
    let word = words.get(id / WORD_BITS).copied().unwrap_or(0);
    (word >> (id % WORD_BITS)) % 2 == 1
}

// The id comes into the set, where that has a word for it.
#[tactic(auto, unfolding(passes::specs::Sets::inserted), using(passes::specs::SetLaws::inserted_out))]
pub fn insert(set: &mut [u64], id: usize)
    ensures { set.new ≡ inserted set.old id }
{
    let q = id / WORD_BITS;
    if q < set.len() {
        set[q] |= bit(id);
    }
}

// All of `more` goes into `set`.
// Kept: `more` by places: of a `zip` over `iter_mut` no clause says what it leaves in the set.
pub(crate) fn join(set: &mut [u64], more: &[u64])
    requires { length more.now ≡ length set.old }
    ensures { set.new ≡ joined set.old more.now }
{
    for (q, word) in set.iter_mut().enumerate() {
        *word |= more[q];
    }
}

// The same for any two sets: nothing changes where they have not as many words.
pub fn join_set(set: &mut [u64], more: &[u64])
    ensures { set.new ≡ pick (eqb (length more.now) (length set.old)) (joined set.old more.now) set.old }
{
    if more.len() == set.len() {
        join(set, more);
    }
}

// How many members the set has.
fn count_members(set: &[u64; WORDS]) -> usize
    ensures { result ≡ length (members_of set.now) }
{
    set.iter().map(|word| word.count_ones()).sum::<u32>() as usize
}

// How many members a set of `WORDS` words has; 0 where it has not so many.
// Kept: 0 and no `Option`, here and in `members`: whoever calls them has a set of `WORDS` words, and would take the
// `Option` apart for nothing.
#[tactic(auto, unfolding(passes::specs::Sets::size_of))]
pub fn size_of(set: &[u64]) -> usize
    ensures { result ≡ size_of set.now }
{
    set.as_array().map_or(0, count_members)
}

// Puts the members of a word, whose lowest bit is the id `base`, behind n.
// Kept: a part and how many: a word's members go behind those of the words before, and the part may be any caller's.
// Kept: a `while`, which goes from one to one: a range would ask each bit of a word.
fn put_word(part: &mut [u16], n: usize, base: usize, word: u64) -> usize
    requires { (base ≤ MAX_STMTS) × (n + length (word_members base word WORD_BITS) ≤ length part.old) }
    ensures { Put part.old n part.new result (word_members base word WORD_BITS) }
{
    let mut w = word;
    let mut j: usize = 0;
    let mut k = n;
    while w != 0 {
        let zeros = w.trailing_zeros();
        j += zeros as usize;
        part[k] = (base + j) as u16;
        k += 1;
        w = (w >> zeros) >> 1;
        j += 1;
    }
    k
}

// Writes the members, ascending, and answers how many; the rest of the part stays.
pub(crate) fn put_members(set: &[u64; WORDS], part: &mut [u16]) -> usize
    requires { length (members_of set.now) ≤ length part.old }
    ensures { Put part.old 0 part.new result (members_of set.now) }
{
    let mut n: usize = 0;
    for (q, &word) in set.iter().enumerate() {
        n = put_word(part, n, q * WORD_BITS, word);
    }
    n
}

// The same for any set and any part: nothing is written where the set has not `WORDS` words, or the part no room for
// all of them.
#[tactic(auto, unfolding(passes::specs::Sets::members_within))]
pub fn members(set: &[u64], part: &mut [u16]) -> usize
    ensures { Put part.old 0 part.new result (members_within set.now (length part.old)) }
{
    match set.as_array() {
        Some(words) if count_members(words) <= part.len() => put_members(words, part),
        _ => 0,
    }
}
