// Places in a line, and the bytes that count from there on.
ghost use Rattle.std.specs.Prelude.{◌≡◌};
ghost use Rattle.basic.specs.declared.cover.Cover.TheVariants.{Uncovered};
ghost use Rattle.basic.specs.Cursors.{raw_at, tokens_at, ahead, IsNext};

use super::codes;
use super::cover::Cover;
use super::covered::behind_covered;

// A place in the file, and what covers the byte there.
// Kept: without the file, which goes beside it: each cursor that is answered, in a token, in what was found, in what is
// due next, would need a clause that its file is still the same one.
#[derive(Clone, Copy)]
pub struct Cursor {
    pub at: usize,
    pub cover: Cover,
}

impl Cursor {
    // A place that nothing covers.
    pub(crate) fn uncovered(at: usize) -> Cursor
        ensures { result ≡ record { at = at; cover = Uncovered } }
    {
        Cursor {
            at,
            cover: Cover::Uncovered,
        }
    }
}

// A byte that counts, its place, and where the next is looked for. 0 is the line's end, or the file's.
// Kept: a byte, and no `Option` of one: the line's end is a byte 0 of the file, which the definition has among the
// bytes too, and an arm of the one `match` on it.
#[derive(Clone, Copy)]
pub struct Token {
    pub place: usize,
    pub byte: u8,
    pub next: Cursor,
}

// The next byte that counts: what is covered is jumped over at once, and then spaces one by one.
// Kept: `while`: tried as std's `position` over what is left: plain statements take 13 % more instructions (compiled
// as Rust).
pub(crate) fn counted_at(file: &[u8], c: Cursor) -> Token
    ensures { IsNext (raw_at file.now) c result }
{
    let mut at = match c.cover {
        Cover::Uncovered => c.at,
        _ => behind_covered(file, c.at, c.cover),
    };
    while at < file.len() {
        let b = file[at];
        if b == 0 {
            break;
        }
        if b != b' ' {
            return Token {
                place: at,
                byte: b,
                next: Cursor {
                    at: at + 1,
                    cover: Cover::behind(b),
                },
            };
        }
        at += 1;
    }
    Token {
        place: at,
        byte: 0,
        next: Cursor::uncovered(at),
    }
}

// The same with GO and TO as GOTO.
pub(crate) fn token_at(file: &[u8], c: Cursor) -> Token
    ensures { IsNext (tokens_at file.now) c result }
{
    let t = counted_at(file, c);
    if t.byte != codes::GO {
        return t;
    }
    let u = counted_at(file, t.next);
    if u.byte != codes::TO {
        return t;
    }
    Token {
        byte: codes::GOTO,
        next: u.next,
        ..t
    }
}
