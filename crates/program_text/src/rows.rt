// A row of the listing, by what the scanner has of it.
ghost use Rattle.std.specs.Prelude.{◌≡◌};
ghost use Rattle.formatting.specs.Pages.{Wrote};
ghost use Rattle.program_text.specs.RowTexts.{WroteRow, WroteSimple, numbered_text};

use super::statements::put_stmt;
use basic::sources::{FileRow, Simple};
use formatting::page::Page;
use layout::limits::MAX_ARGS;

// A word, a number, and the row's end.
fn put_numbered(page: &mut Page<'_>, word: &[u8], n: u16, end: &[u8])
    ensures { Wrote page.old page.new (numbered_text word.now n end.now) }
{
    page.put_bytes(word);
    page.put_number(usize::from(n));
    page.put_bytes(end);
}

// A statement that holds no others: its arguments stand at the front of `part`. No row has more than that holds.
fn put_simple(part: &[u64; MAX_ARGS], s: Simple, page: &mut Page<'_>)
    ensures { WroteSimple part.now s page.old page.new }
{
    if MAX_ARGS < s.count {
        return;
    }
    put_stmt(page, s.word, &part[..s.count]);
}

// One row, with the byte that ends it.
pub(crate) fn put_row(part: &[u64; MAX_ARGS], row: FileRow, page: &mut Page<'_>)
    ensures { WroteRow part.now row page.old page.new }
{
    match row {
        FileRow::Module => page.put_bytes(b"(module 0\n"),
        FileRow::Line(n) => put_numbered(page, b"(line", n, b"\n"),
        FileRow::Simple(s) => put_simple(part, s, page),
        FileRow::If => page.put_bytes(b"(if\n"),
        FileRow::To(n) => put_numbered(page, b"(to", n, b")\n"),
        FileRow::Stmts => page.put_bytes(b"(stmts\n"),
        FileRow::End => page.put_bytes(b")\n"),
    }
}
