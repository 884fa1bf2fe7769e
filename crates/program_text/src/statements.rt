// A statement's row, from the number of its opening word and its arguments.
ghost use Rattle.std.specs.Prelude.{◌≡◌, ◌+◌, ◌%◌, [], ◌∷◌, eqb, get_or};
ghost use Rattle.listings.specs.Bytes.{pick};
ghost use Rattle.listings.specs.WordTable.{words};
ghost use Rattle.formatting.specs.Pages.{Wrote};
ghost use Rattle.program_text.specs.KeyText.{key_bytes};
ghost use Rattle.program_text.specs.StmtText.{slot_text, arg_text, arg_texts, stmt_text};

use formatting::page::Page;
use layout::words::{FOR, NEXT};
use tokens::names::KEY_BASE;

// So many bytes a cut name has at most.
const MAX_NAME: usize = 3;

// The byte of a key's lowest digit.
fn key_byte(key: u64) -> u8
    ensures { result ≡ 32 + key % 64 }
{
    b' ' + (key % KEY_BASE) as u8
}

// The bytes of a name, by its key.
fn put_key(page: &mut Page<'_>, key: u64, most: usize)
    ensures { Wrote page.old page.new (key_bytes most key) }
{
    if most == 0 || key == 0 {
        return;
    }
    page.put_byte(key_byte(key));
    put_key(page, key / KEY_BASE, most - 1);
}

// A name of three bytes at most, or `*`.
// Kept: a number, 0 for `*`; the lent table has it so.
fn put_slot(page: &mut Page<'_>, key: u64)
    ensures { Wrote page.old page.new (slot_text key) }
{
    if key == 0 {
        return page.put_byte(b'*');
    }
    put_key(page, key, MAX_NAME);
}

// FOR and NEXT have names, the others numbers.
// Kept: `as`; std has no conversion from u64 to usize that cannot fail.
fn put_arg(page: &mut Page<'_>, word: u16, v: u64)
    ensures { Wrote page.old page.new (arg_text word v) }
{
    match word {
        FOR | NEXT => put_slot(page, v),
        _ => page.put_decimal(v as usize),
    }
}

// The same with a space before it.
fn put_spaced_arg(page: &mut Page<'_>, word: u16, v: u64)
    ensures { Wrote page.old page.new (32 ∷ arg_text word v) }
{
    page.put_byte(b' ');
    put_arg(page, word, v);
}

// Each argument with a space before it.
fn put_args(page: &mut Page<'_>, word: u16, args: &[u64])
    ensures { Wrote page.old page.new (arg_texts word args.now) }
{
    for &v in args {
        put_spaced_arg(page, word, v);
    }
}

// A form's bracket and its opening word.
fn put_opening(page: &mut Page<'_>, word: u16)
    ensures { Wrote page.old page.new (40 ∷ get_or words word []) }
{
    page.put_byte(b'(');
    page.put_word(usize::from(word));
}

// A text that the rows of one opening word alone have.
fn put_only(page: &mut Page<'_>, word: u16, owner: u16, text: &[u8])
    ensures { Wrote page.old page.new (pick (eqb word owner) text.now []) }
{
    if word == owner {
        page.put_bytes(text);
    }
}

// The whole row, with its end: a NEXT is plain, a FOR static.
pub(crate) fn put_stmt(page: &mut Page<'_>, word: u16, args: &[u64])
    ensures { Wrote page.old page.new (stmt_text word args.now) }
{
    put_opening(page, word);
    put_only(page, word, NEXT, b" plain");
    put_args(page, word, args);
    put_only(page, word, FOR, b" static");
    page.put_bytes(b")\n");
}
