// Where what is covered ends.
ghost use Rattle.std.specs.Prelude.{◌≤◌, length};
ghost use Rattle.program_files.specs.Program.{uncovered, items};
ghost use Rattle.basic.specs.Covers.{cover_of};
ghost use Rattle.basic.specs.Covered.{Leads, Closed, Zero};

use super::cover::Cover;
use tokens::scan::find;

// Behind the quote that closes those in which a place stands; or the line's end.
// Kept: `while`: tried as std's `position`, with what it finds asked again whether it is the quote: a file of quotes
// takes 9 % more instructions (compiled as Rust). Tried 16 bytes at a time, by `as_chunks` and `contains`, and proved: a
// call of `contains` for each of the two bytes costs as much as the loop, and plain statements took 22 % more
// instructions in `prglist`.
fn behind_quote(file: &[u8], from: usize) -> usize
    ensures further { from ≤ result }
    ensures closed { Closed file.now from result }
{
    let mut at = from;
    while at < file.len() {
        match file[at] {
            0 => return at,
            b'"' => return at + 1,
            _ => at += 1,
        }
    }
    at
}

// The zero of the line in which a place stands, or the file's end; the place itself where it lies past that.
pub(crate) fn zero_from(file: &[u8], from: usize) -> usize
    ensures zero { Zero file.now from result }
    ensures within { from ≤ length file.now → result ≤ length file.now }
{
    if file.len() <= from {
        return from;
    }
    from + find(&file[from..], 0)
}

// The colon that ends a DATA in which a place stands outside quotes; or the line's end.
// Kept: `while`: what quotes cover is jumped over in the midst of it.
fn items_end(file: &[u8], from: usize) -> usize
    ensures { Leads file.now items from uncovered result }
{
    let mut at = from;
    while at < file.len() {
        match file[at] {
            0 | b':' => return at,
            b'"' => at = behind_quote(file, at + 1),
            _ => at += 1,
        }
    }
    at
}

// The place from which on, with nothing covering, the same bytes count as from `from` on under the cover.
// Not inlined, so that what calls it stays small: most bytes are covered by nothing, and to ask that is all that they
// cost more.
#[inline(never)]
pub(crate) fn behind_covered(file: &[u8], from: usize, cover: Cover) -> usize
    ensures { Leads file.now (cover_of cover) from uncovered result }
{
    match cover {
        Cover::Uncovered => from,
        Cover::Quoted => behind_quote(file, from),
        Cover::Remark => zero_from(file, from),
        Cover::Items => items_end(file, from),
        Cover::QuotedItem => items_end(file, behind_quote(file, from)),
    }
}
