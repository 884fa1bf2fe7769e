// Bytes and numbers in a lent part, from a place on. Bytes that do not fit are dropped; each routine answers where the
// next byte would go.
// Kept: the place goes in and comes back by value. Tried with the page itself, by `&mut self`: its place stands in
// memory, where each byte of a list reads and writes it, and `flowlist` takes 0.7 of 14 million instructions more.
ghost use Rattle.std.specs.Prelude.{◌≡◌, [], ◌∷◌, ◌<◌};
ghost use Rattle.listings.specs.Bytes.{decimal};
ghost use Rattle.graph.specs.Print.{spaced};
ghost use Rattle.formatting.specs.Printing.{Puts};

use layout::fronts::put_front;

// One byte.
// Kept: the place by value, as the head of this file says.
pub(crate) fn put_byte(part: &mut [u8], at: usize, b: u8) -> usize
    ensures { Puts part.old at part.new result (b ∷ []) }
{
    if at < part.len() {
        part[at] = b;
        return at + 1;
    }
    at
}

// Bytes one after the other, copied at once: where they fit their number is often known to the compiler.
// Kept: the place by value, as the head of this file says.
pub(crate) fn put_bytes(part: &mut [u8], at: usize, word: &[u8]) -> usize
    ensures { Puts part.old at part.new result word.now }
{
    let all = part.len();
    if all < at {
        return at;
    }
    let room = all - at;
    if word.len() <= room {
        let end = at + word.len();
        put_front(&mut part[at..end], word);
        return end;
    }
    put_front(&mut part[at..], &word[..room]);
    all
}

// The digits before the last one are those of a tenth.
// Kept: two digits a turn: one by one, `flowlist` takes 3 to 5 % more instructions.
// Kept: the place by value, as the head of this file says.
pub(crate) fn put_decimal(part: &mut [u8], at: usize, x: usize) -> usize
    ensures { Puts part.old at part.new result (decimal x) }
{
    if x < 10 {
        return put_byte(part, at, b'0' + x as u8);
    }
    let tenth = x / 10;
    if tenth < 10 {
        let next = put_byte(part, at, b'0' + tenth as u8);
        return put_byte(part, next, b'0' + (x % 10) as u8);
    }
    let front = put_decimal(part, at, tenth / 10);
    let next = put_byte(part, front, b'0' + (tenth % 10) as u8);
    put_byte(part, next, b'0' + (x % 10) as u8)
}

// A number with a space before it.
// Kept: the place by value, as the head of this file says.
pub(crate) fn put_number(part: &mut [u8], at: usize, x: usize) -> usize
    ensures { Puts part.old at part.new result (32 ∷ decimal x) }
{
    let next = put_byte(part, at, b' ');
    put_decimal(part, next, x)
}

// Each number of a list with a space before it.
// Kept: the place by value, as the head of this file says.
pub(crate) fn put_spaced(part: &mut [u8], at: usize, list: &[u16]) -> usize
    ensures { Puts part.old at part.new result (spaced list.now) }
{
    let mut next = at;
    for x in list {
        next = put_number(part, next, usize::from(*x));
    }
    next
}
