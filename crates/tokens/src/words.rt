// The 28 opening words in one constant table.
ghost use Rattle.std.specs.Prelude.{◌≡◌, [], ◌<◌, length, get_or};
ghost use Rattle.listings.specs.WordTable.{words};
ghost use Rattle.listing_laws.specs.WordSlots.{candidate_of};
ghost use Rattle.tokens.specs.Kinds.{row_at, word_found, opened_kind};

use super::scan::equal;

// For each slot the number of the opening word that has it, or 0.
const SLOTS: [u8; 64] = [
    0, 0, 17, 0, 0, 0, 11, 0, 0, 0, 0, 23, 22, 0, 8, 26, 16, 0, 0, 1, 0, 0, 0, 25, 18, 0, 3, 4, 0,
    2, 0, 0, 12, 6, 21, 10, 0, 19, 0, 0, 0, 0, 0, 27, 0, 20, 14, 0, 24, 0, 9, 13, 7, 0, 0, 5, 0, 0,
    0, 0, 15, 0, 0, 0,
];

// A word that has branches.
#[derive(Clone, Copy, Debug, PartialEq, Eq)]
pub enum Cond {
    If,
    IfElse,
    Rcomp,
}

// What a form's opening word says of the words after it, and which word with branches it is.
#[derive(Clone, Copy, Debug, PartialEq, Eq)]
pub enum Kind {
    Module,
    Line,
    To,
    Stmts,
    Cond(Cond),
    Bare,
    Number,
    Numbers,
    Run,
    For,
    Next,
}

// The opening words by their numbers, and the kinds of form that they open.
static FORMS: [(&[u8], Kind); 28] = [
    (b"module", Kind::Module),
    (b"line", Kind::Line),
    (b"if", Kind::Cond(Cond::If)),
    (b"ifelse", Kind::Cond(Cond::IfElse)),
    (b"rcomp", Kind::Cond(Cond::Rcomp)),
    (b"to", Kind::To),
    (b"stmts", Kind::Stmts),
    (b"goto", Kind::Number),
    (b"gosub", Kind::Number),
    (b"return", Kind::Bare),
    (b"run", Kind::Run),
    (b"ongoto", Kind::Numbers),
    (b"ongosub", Kind::Numbers),
    (b"for", Kind::For),
    (b"next", Kind::Next),
    (b"repeat", Kind::Bare),
    (b"loop", Kind::Bare),
    (b"until", Kind::Bare),
    (b"endloop", Kind::Bare),
    (b"exit", Kind::Bare),
    (b"exitif", Kind::Bare),
    (b"doif", Kind::Bare),
    (b"else", Kind::Bare),
    (b"done", Kind::Bare),
    (b"clr", Kind::Bare),
    (b"stop", Kind::Bare),
    (b"any", Kind::Bare),
    (b"plain", Kind::Bare),
];

// Row k of a table.
fn row<'a>(table: &[(&'a [u8], Kind)], k: usize) -> Option<(&'a [u8], Kind)>
    ensures { result ≡ row_at table.now k }
{
    table.get(k).copied()
}

// Opening word k, without letters where there is no such word.
pub fn word(k: usize) -> &'static [u8]
    ensures { result.now ≡ get_or words k [] }
{
    row(&FORMS, k).map_or(b"", |(word, _)| word)
}

// The only opening word that w can be, by its first and last letters and its length.
// Kept: 0 where there is none, and no `Option`: `word_of` compares what is found, and an accepted row has one.
pub fn candidate(w: &[u8]) -> usize
    ensures { (result ≡ candidate_of w.now) × (result < 28) }
{
    let (Some(first), Some(last)) = (w.first(), w.last()) else {
        return 0;
    };
    let (first, last) = (usize::from(*first), usize::from(*last));
    usize::from(SLOTS[(first + 23 * last + 5 * (w.len() % 8)) % 64])
}

// The number of the opening word that w is.
// Kept: the number alone; tried with the kind beside it, by one look-up: reading a row takes a tenth more instructions.
#[tactic(auto, using(crate::specs::Kinds::found_word, crate::specs::Kinds::found_none, listing_laws::specs::WordSlots::found, listing_laws::specs::WordSlots::not_found))]
pub fn word_of(w: &[u8]) -> Option<usize>
    ensures { result ≡ word_found w.now }
{
    let k = candidate(w);
    equal(word(k), w).then_some(k)
}

// The kind of form that opening word k opens.
pub fn kind_of(k: usize) -> Option<Kind>
    ensures { result ≡ opened_kind k }
{
    row(&FORMS, k).map(|(_, kind)| kind)
}
