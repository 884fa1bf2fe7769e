// A question's row to its answer's row, by the tables.
ghost use Rattle.std.specs.Prelude.{◌≡◌, false, [], ◌++◌, map, ◌<◌, ◌≤◌, length, get_or, drop};
ghost use Rattle.listings.specs.Rows.{split};
ghost use Rattle.listings.specs.Read.{or_refused};
ghost use Rattle.reader.specs.Operands.{entry_by};
ghost use Rattle.formatting.specs.Pages.{Wrote};
ghost use Rattle.answers.specs.Flowask.{path_question, frame_question, form_question, question, short, row_answer};
ghost use Rattle.answers.specs.AnswersAt.{path_answer, frame_answer, answer_of, Answered, RowAnswered};
ghost use Rattle.answers.specs.QuestionWords.{form_at, number_question};

use crate::asked::QuestionTables;
use crate::print::{put_entry, put_list_row, put_stmt};
use crate::words::{ByNumber, Form, FrameWords, frame_words, open_row};
use formatting::page::Page;
use frame_lists::frame::FrameTables;
use layout::limits::{MAX_ARGS, MAX_STMTS};
use layout::refusals::{Reason, Refusal};
use layout::zeroing::all_of;
use questions::entry::line_first;
use questions::frame::frame_successors;
use questions::statement::{resolve_path, stmt_at};
use questions::successors::{ask_predecessors, ask_successors};
use tokens::arguments::{Arguments, check_all, single_number};
use tokens::numbers::number;

// A line index and a path: as many numbers as a statement may have, and one before them.
const MAX_PATH_WORDS: usize = MAX_ARGS + 1;

// By the opening word; n is a line's number for an entry, else a node.
// Kept: here and below functions of a page and of tables: as methods of `QuestionTables` they would take the page as
// they do now, and only `g` would stand elsewhere.
fn put_by_number(
    page: &mut Page<'_>,
    g: &QuestionTables<'_>,
    word: ByNumber,
    n: u16,
) -> Result<(), Refusal>
    ensures { Answered page.old page.new result (answer_of g.now (number_question word n)) }
{
    let node = usize::from(n);
    match word {
        ByNumber::Successors => {
            let (start, len) = ask_successors(g.counts, g.lists, g.succ, node)?;
            put_list_row(page, b"(successors", &g.succ[start..start + len]);
        }
        ByNumber::Predecessors => {
            let (start, len) = ask_predecessors(g.counts, g.lists, g.pred, node)?;
            put_list_row(page, b"(predecessors", &g.pred[start..start + len]);
        }
        ByNumber::Statement => {
            let (node, word) = stmt_at(g.counts, g.stmts, node)?;
            put_stmt(page, node, word);
        }
        ByNumber::Entry => {
            let entry = line_first(g.counts, g.entries, n)?;
            put_entry(page, entry);
        }
    }
    Ok(())
}

// The words of s, each as a number, at the front of the part.
fn fill_numbers(s: &[u8], part: &mut [u16])
    requires { length (split 32 s.now) ≤ length part.old }
    ensures { part.new ≡ map (entry_by false) (split 32 s.now) ++ drop (length (split 32 s.now)) part.old }
{
    for (n, w) in s.split(|b| *b == b' ').enumerate() {
        part[n] = number(w).unwrap_or(0);
    }
}

// A line index and a path.
fn put_path(page: &mut Page<'_>, g: &QuestionTables<'_>, numbers: &[u16]) -> Result<(), Refusal>
    requires { 0 < length numbers.now }
    ensures { Answered page.old page.new result (path_answer g.now.counts.now g.now.stmts.now (get_or numbers.now 0 0) (drop 1 numbers.now)) }
{
    let line = usize::from(numbers[0]);
    let (node, word) = resolve_path(g.counts, g.stmts, line, &numbers[1..])?;
    put_stmt(page, node, word);
    Ok(())
}

// L N ..: 2 goes before 3, and 3 before 8. Here and below, an outer `Err` is of a row that asks nothing; its place is
// the row's, which `answer_row` has.
fn answer_path(
    page: &mut Page<'_>,
    g: &QuestionTables<'_>,
    s: &[u8],
) -> Result<Result<(), Refusal>, Reason>
    ensures { RowAnswered page.old page.new result (answer_of g.now) (or_refused (path_question (split 32 s.now)) short) }
{
    let words = check_all(s, Arguments::Numbers);
    words.verdict?;
    if MAX_PATH_WORDS < words.count {
        return Err(Reason::TooWide);
    }
    let mut room = all_of::<u16, MAX_PATH_WORDS>(0);
    fill_numbers(s, &mut room);
    Ok(put_path(page, g, &room[..words.count]))
}

// The row of a frame list, or its refusal; there is room for all nodes.
fn put_frame(page: &mut Page<'_>, g: &QuestionTables<'_>, w: &FrameWords<'_>) -> Result<(), Refusal>
    ensures { Answered page.old page.new result (frame_answer g.now.counts.now g.now.stmts.now g.now.args.now g.now.falls.now g.now.lists.now g.now.succ.now w.now.header w.now.node w.now.name.now w.now.flag) }
{
    let mut room = all_of::<u16, MAX_STMTS>(0);
    let tables = FrameTables {
        counts: g.counts,
        stmts: g.stmts,
        args: g.args,
        falls: g.falls,
        lists: g.lists,
        succ: g.succ,
    };
    let header = usize::from(w.header);
    let node = usize::from(w.node);
    let len = frame_successors(&tables, header, node, w.name, w.flag, &mut room)?;
    put_list_row(page, b"(frame", &room[..len]);
    Ok(())
}

// H N V F.
fn answer_frame(
    page: &mut Page<'_>,
    g: &QuestionTables<'_>,
    s: &[u8],
) -> Result<Result<(), Refusal>, Reason>
    ensures { RowAnswered page.old page.new result (answer_of g.now) (or_refused (frame_question (split 32 s.now)) short) }
{
    let w = frame_words(s)?;
    Ok(put_frame(page, g, &w))
}

// The words s after the opening word.
fn answer_words(
    page: &mut Page<'_>,
    g: &QuestionTables<'_>,
    form: Form,
    s: &[u8],
) -> Result<Result<(), Refusal>, Reason>
    ensures { RowAnswered page.old page.new result (answer_of g.now) (or_refused (form_question (form_at form) (split 32 s.now)) short) }
{
    match form {
        Form::Path => answer_path(page, g, s),
        Form::Frame => answer_frame(page, g, s),
        Form::Number(word) => {
            let n = single_number(s)?;
            Ok(put_by_number(page, g, word, n))
        }
    }
}

// Nothing is written before a refusal.
fn put_answer(
    page: &mut Page<'_>,
    g: &QuestionTables<'_>,
    w: &[u8],
) -> Result<Result<(), Refusal>, Reason>
    ensures { RowAnswered page.old page.new result (answer_of g.now) (question w.now) }
{
    let o = open_row(w).ok_or(Reason::NotAForm)?;
    answer_words(page, g, o.form, o.words)
}

// Row k of the questions: the answer's row, or the refusal's.
pub(crate) fn answer_row(page: &mut Page<'_>, g: &QuestionTables<'_>, k: usize, w: &[u8])
    ensures { Wrote page.old page.new (row_answer (answer_of g.now) k w.now) }
{
    match put_answer(page, g, w) {
        Ok(Ok(())) => {}
        Ok(Err(refusal)) => page.put_refusal(refusal),
        Err(reason) => page.put_refusal(reason.at(k)),
    }
}
