// A saved program's listing or its refusal, printed.
ghost use Rattle.std.specs.Prelude.{◌∷◌, false};
ghost use Rattle.listings.specs.Every.{All};
ghost use Rattle.listings.specs.Rows.{module_row};
ghost use Rattle.formatting.specs.Printing.{Puts};
ghost use Rattle.basic.specs.Rows.{lines_at};
ghost use Rattle.program_text.specs.Listed.{prglist};
ghost use Rattle.formatting.specs.Whole.{Whole};
ghost use Rattle.program_text.specs.Printable.{Printable, rows_text};

use super::rows::put_row;
use basic::judge::judge_program;
use basic::rows::{first_row, row_at};
use formatting::page::{Page, print_refusal};
use layout::limits::MAX_ARGS;

// Every row of an accepted file, one after the other.
// Kept: `while let`; as an iterator of rows it is no plainer: std's laws want the items as a function of what is left,
// and a row is told by what it means (`RowIs`).
fn put_rows(file: &[u8], out: &mut [u8]) -> usize
    requires { All Printable (module_row false ∷ lines_at file.now 2) }
    ensures { Puts out.old 0 out.new result (rows_text (module_row false ∷ lines_at file.now 2)) }
{
    let mut page = Page::new(out);
    let mut s = first_row();
    let mut part = [0u64; MAX_ARGS];
    while let Some(t) = row_at(file, s, &mut part) {
        put_row(&part, t.row, &mut page);
        s = t.next;
    }
    page.len()
}

// The listing that a file means, in the bracket form, or its refusal. Bytes that do not fit are dropped; the answer is
// where the next byte would go.
// Kept: a length, here and below, as `formatting::page::print_bytes` answers.
pub fn list_program(file: &[u8], out: &mut [u8]) -> usize
    ensures { Puts out.old 0 out.new result (prglist file.now) }
{
    match judge_program(file) {
        Err(r) => print_refusal(out, r),
        Ok(_) => put_rows(file, out),
    }
}

// Room for every listing that a saved program means.
pub const MAX_LISTED: usize = 2097152;

// With room for the longest listing: all of it stands in the page.
pub fn list_page(file: &[u8], out: &mut [u8; MAX_LISTED]) -> usize
    ensures puts { Puts out.old 0 out.new result (prglist file.now) }
    ensures whole { Whole out.new result (prglist file.now) }
{
    list_program(file, out)
}
