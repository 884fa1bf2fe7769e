// A text with a listing and questions: the listing's graph built in the lent tables, and the questions answered.
ghost use Rattle.passes.specs.TableForms.{sizes_of};
ghost use Rattle.answers.specs.AnswersAt.{answer_of};
ghost use Rattle.asking.specs.Asked.{QuestionsAnswered, TextAsked};

use answers::asked::QuestionTables;
use answers::text::{answer_rows, split_questions};
use formatting::page::print_refusal;
use wiring::build::build;

// The rows of questions, if there are any.
// Kept: a length, as `formatting::page::print_bytes` answers.
fn answer_questions(out: &mut [u8], rows: Option<&[u8]>, g: &QuestionTables<'_>) -> usize
    ensures { QuestionsAnswered rows.entry (answer_of g.now) out.old out.new result }
{
    match rows {
        Some(rows) => answer_rows(out, rows, g),
        None => 0,
    }
}

// Builds the graph of a text's listing in the lent tables and answers its questions, or gives the listing's refusal;
// answers where the next byte would go (the length of `out` if it did not fit).
// Inlined, so that a program that makes the tables as zeros does not zero them twice.
// Kept: the tables one by one, as `build` takes them.
// Kept: a length, as `answer_rows`.
#[inline(always)]
pub fn ask_text(
    text: &[u8],
    counts: &mut [u32; 6],
    lines: &mut [u16],
    stmts: &mut [u16],
    args: &mut [u64],
    entries: &mut [u16],
    falls: &mut [u16],
    links: &mut [u16],
    lists: &mut [u16],
    returns: &mut [u16],
    succ: &mut [u16],
    pred: &mut [u16],
    out: &mut [u8],
) -> usize
    ensures { TextAsked text.now (sizes_of lines.old stmts.old args.old entries.old falls.old links.old lists.old returns.old succ.old pred.old) counts.new lines.new stmts.new args.new entries.new falls.new links.new lists.new returns.new succ.new pred.new out.old out.new result }
{
    let (listing, rows) = split_questions(text);
    let built = build(
        listing, counts, lines, stmts, args, entries, falls, links, lists, returns, succ, pred,
    );
    match built {
        Err(refusal) => print_refusal(out, refusal),
        Ok(()) => {
            let g = QuestionTables {
                counts,
                stmts,
                args,
                entries,
                falls,
                lists,
                succ,
                pred,
            };
            answer_questions(out, rows, &g)
        }
    }
}
