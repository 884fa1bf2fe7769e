// A text with a listing and questions: where the listing ends, and the questions answered row by row, on any tables.
ghost use Rattle.std.specs.Prelude.{◌≡◌, length};
ghost use Rattle.listings.specs.Rows.{split};
ghost use Rattle.formatting.specs.Printing.{Puts};
ghost use Rattle.formatting.specs.Pages.{Wrote};
ghost use Rattle.answers.specs.Flowask.{answer_rows, parts};
ghost use Rattle.answers.specs.AnswersAt.{answer_of};
ghost use Rattle.answers.specs.TextLaws.{TextSplit};

use crate::answers::answer_row;
use crate::asked::QuestionTables;
use formatting::page::Page;
use layout::refusals::Reason;
use tokens::scan::{equal, first_row};

// "What stands before the first row that is exactly `(questions` is the listing",
// and what stands behind that row, if there is one, are the questions.
// Kept: `while let`, as the reader's `judge`: what is left where the row stands is asked for.
pub fn split_questions(text: &[u8]) -> (&[u8], Option<&[u8]>)
    ensures { TextSplit text.now result.0.now result.1 }
{
    let mut left = text;
    while let Some((row, rest)) = first_row(left) {
        if equal(row, b"(questions") {
            return (&text[..text.len() - left.len()], Some(rest));
        }
        left = rest;
    }
    (text, None)
}

// How many bytes the listing has, for whoever asks for these alone.
pub fn listing_length(text: &[u8]) -> usize
    ensures { result ≡ length (parts (split 10 text.now)).0 }
{
    split_questions(text).0.len()
}

// Rows of questions, as far as the `)` that closes them.
// Kept: k counted by hand, as i in the reader's `judge`.
fn put_rows(page: &mut Page<'_>, text: &[u8], g: &QuestionTables<'_>)
    ensures { Wrote page.old page.new (answer_rows (answer_of g.now) 0 (split 10 text.now)) }
{
    let mut k: usize = 0;
    let mut left = text;
    while let Some((row, rest)) = first_row(left) {
        if equal(row, b")") {
            if rest.is_empty() {
                return;
            }
            return page.put_refusal(Reason::NotAForm.at(k + 1));
        }
        answer_row(page, g, k, row);
        k += 1;
        left = rest;
    }
    page.put_refusal(Reason::NotAForm.at(k))
}

// The same into a lent part; answers where the next byte would go.
// Kept: a length, not the part, since one as long as `out` says that the rows did not fit.
pub fn answer_rows(out: &mut [u8], text: &[u8], g: &QuestionTables<'_>) -> usize
    ensures { Puts out.old 0 out.new result (answer_rows (answer_of g.now) 0 (split 10 text.now)) }
{
    let mut page = Page::new(out);
    put_rows(&mut page, text, g);
    page.len()
}
