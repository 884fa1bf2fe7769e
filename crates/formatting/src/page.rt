// Bytes and numbers for a lent part. Bytes that do not fit are dropped.
ghost use Rattle.std.specs.Prelude.{◌≡◌, [], ◌∷◌, ◌++◌, ◌<◌, get_or};
ghost use Rattle.listings.specs.Bytes.{decimal};
ghost use Rattle.listings.specs.WordTable.{words};
ghost use Rattle.graph.specs.Print.{spaced, printed_refusal};
ghost use Rattle.formatting.specs.Printing.{Puts};
ghost use Rattle.formatting.specs.Pages.{Wrote, pair_text};

use crate::parts;
use layout::refusals::Refused;
use tokens::words::word;

// A lent part, and where its next byte goes.
// Kept: numbers and refusals are put by hand, and not by `Display`: a part is bytes and no `str`, and what does not fit
// is dropped and is no error, so a `write!` would have nothing to answer.
// Kept: the methods of a byte, bytes and numbers are of one shape, each hands its place to a routine of a part and takes it
// back; the head of `parts.rt` says why.
#[derive(Drop)]
pub struct Page<'a> {
    bytes: &'a mut [u8],
    at: usize,
}

impl<'a> Page<'a> {
    pub fn new(bytes: &'a mut [u8]) -> Page<'a>
        ensures same_reference { result.bytes.ghost_name ≡ bytes.entry.ghost_name }
        ensures blank { (result.bytes.now ≡ bytes.old) × (result.at ≡ 0) }
    {
        Page { bytes, at: 0 }
    }

    // Where the next byte goes: the length of the part where not all of them fitted.
    pub fn len(&self) -> usize
        ensures { result ≡ self.now.at }
    {
        self.at
    }

    // A byte that does not fit is dropped.
    pub fn put_byte(&mut self, b: u8)
        ensures { Wrote self.old self.new (b ∷ []) }
    {
        self.at = parts::put_byte(self.bytes, self.at, b);
    }

    // Bytes one after the other, as many as fit.
    pub fn put_bytes(&mut self, word: &[u8])
        ensures { Wrote self.old self.new word.now }
    {
        self.at = parts::put_bytes(self.bytes, self.at, word);
    }

    // Opening word k, nothing where there is no such word.
    pub fn put_word(&mut self, k: usize)
        ensures { Wrote self.old self.new (get_or words k []) }
    {
        self.put_bytes(word(k));
    }

    // A number.
    // Kept: beside `put_number`; one routine for both would take a flag for the space, and each caller knows which it
    // wants.
    pub fn put_decimal(&mut self, x: usize)
        ensures { Wrote self.old self.new (decimal x) }
    {
        self.at = parts::put_decimal(self.bytes, self.at, x);
    }

    // A number with a space before it.
    // Kept: beside `put_decimal`, as there; by way of `put_byte` and `put_decimal` the page's place would be written to
    // memory in between, which the routine of a part does without (`parts.rt`).
    pub fn put_number(&mut self, x: usize)
        ensures { Wrote self.old self.new (32 ∷ decimal x) }
    {
        self.at = parts::put_number(self.bytes, self.at, x);
    }

    // Each number of a list with a space before it.
    pub fn put_spaced(&mut self, list: &[u16])
        ensures { Wrote self.old self.new (spaced list.now) }
    {
        self.at = parts::put_spaced(self.bytes, self.at, list);
    }

    // A word and a list.
    pub fn put_list(&mut self, word: &[u8], list: &[u16])
        ensures { Wrote self.old self.new (word.now ++ spaced list.now) }
    {
        self.put_bytes(word);
        self.put_spaced(list);
    }

    // A word and two numbers.
    pub fn put_pair(&mut self, word: &[u8], a: usize, b: usize)
        ensures { Wrote self.old self.new (word.now ++ spaced (a ∷ b ∷ [])) }
    {
        self.put_bytes(word);
        self.put_number(a);
        self.put_number(b);
    }

    // A row of a word and two numbers.
    pub fn put_pair_row(&mut self, word: &[u8], a: usize, b: usize)
        ensures { Wrote self.old self.new (pair_text word.now a b) }
    {
        self.put_pair(word, a, b);
        self.put_bytes(b")\n");
    }

    // "A refusal prints only" its number and place.
    pub fn put_refusal<R: Refused>(&mut self, refusal: R)
        ensures { Wrote self.old self.new (printed_refusal (R.as_pair refusal).0 (R.as_pair refusal).1) }
    {
        let number = usize::from(refusal.number());
        self.put_pair_row(b"(refused", number, refusal.place());
    }
}

// Bytes alone, in a lent part; answers where the next byte would go.
// Kept: a place, here and below, and not the slice before it: `Puts` says what all of `out` ends as, from a place to a
// place, and a slice would need a clause of its own beside it.
pub fn print_bytes(out: &mut [u8], bytes: &[u8]) -> usize
    ensures { Puts out.old 0 out.new result bytes.now }
{
    let mut page = Page::new(out);
    page.put_bytes(bytes);
    page.len()
}

// A printed refusal alone, in a lent part; answers where the next byte would go.
pub fn print_refusal<R: Refused>(out: &mut [u8], refusal: R) -> usize
    ensures { Puts out.old 0 out.new result (printed_refusal (R.as_pair refusal).0 (R.as_pair refusal).1) }
{
    let mut page = Page::new(out);
    page.put_refusal(refusal);
    page.len()
}
