// What a row says, wherever it stands.
ghost use Rattle.std.specs.Prelude.{◌≡◌, ◌-◌, ◌<◌, ◌≤◌, eqb, Some, Ok};
ghost use Rattle.listings.specs.Rows.{split, single, module_content, form_row, row_of, content_of};
ghost use Rattle.tokens.specs.Numbers.{as_number};
ghost use Rattle.tokens.specs.Kinds.{opened_kind};
ghost use Rattle.reader.specs.CodedRows.{as_row, Inside, is_closed, simple_by, number_due, closed_args, opened_args, args_row, closed_bare, opened_bare, bare_row};
ghost use Rattle.reader.specs.AcceptedRows.{WellFormed, uncounted};

use layout::refusals::Reason;
use tokens::arguments::{Checked, are_words, check_kind, single_number};
use tokens::numbers::flag_of;
use tokens::scan::{equal, first_word};
use tokens::words::{Cond, Kind, candidate, kind_of, word_of};

// Where a row stands.
#[derive(Clone, Copy, Debug, PartialEq, Eq)]
pub(crate) enum Position {
    Begin,
    InModule,
    Ended,
    InStmts,
    InCond,
}

// What a row says. word: the number of the opening word; count: how many numbers or slots.
// Kept: `End` is the row `)`, and nothing that is missing.
// Kept: `word` a `usize`, as `tokens::words` finds it in its table; the record has it as `u16`.
#[derive(Clone, Copy)]
pub(crate) enum Row {
    End,
    Stmts,
    Module(bool),
    Line(u16),
    To(u16),
    Simple { word: usize, count: usize },
    Cond(Cond),
}

// Why a row is refused where such a row is due; elsewhere it is no form. What is no form wherever it stands is due
// where statements are.
#[derive(Clone, Copy)]
pub(crate) struct Misfit {
    pub(crate) reason: Reason,
    pub(crate) due: Position,
}

// No form, wherever it stands.
const NO_FORM: Misfit = Misfit {
    reason: Reason::NotAForm,
    due: Position::InStmts,
};

// An IF's first branch, or its second.
#[derive(Clone, Copy)]
pub(crate) enum Which {
    First,
    Second,
}

// Whether a row ends with its closing bracket.
#[derive(Clone, Copy)]
enum Bracket {
    Closed,
    Open,
}

// A statement's row by its words.
fn simple_row(k: usize, words: Checked) -> Result<Row, Misfit>
    ensures { result ≡ simple_by k words }
{
    words.verdict.map_err(|reason| Misfit {
        reason,
        due: Position::InStmts,
    })?;
    Ok(Row::Simple {
        word: k,
        count: words.count,
    })
}

// The one number of a row that is due there.
fn due_number(s: &[u8], due: Position) -> Result<u16, Misfit>
    ensures { result ≡ number_due due (as_number (single (split 32 s.now))) }
{
    single_number(s).map_err(|reason| Misfit { reason, due })
}

// `(module H`
fn module_row(s: &[u8]) -> Result<Row, Misfit>
    ensures { result ≡ as_row (module_content (split 32 s.now)) }
{
    flag_of(s).map(Row::Module).ok_or(NO_FORM)
}

// The number of a row's opening word, and the kind of form that it opens.
#[derive(Clone, Copy)]
struct Opening {
    number: usize,
    kind: Kind,
}

impl Opening {
    // By its number.
    #[tactic(auto, using(crate::specs::CodedRows::opened_below))]
    fn at(number: usize) -> Opening
        requires { number < 28 }
        ensures { (result.number ≡ number) × (Some result.kind ≡ opened_kind number) }
    {
        let kind = kind_of(number).unwrap();
        Opening { number, kind }
    }

    // A closed form with words after its opening word.
    #[tactic(auto, unfolding(crate::specs::CodedRows::closed_args, tokens::specs::Arguments::check_opened), using(crate::specs::CodedRows::to_by_number, crate::specs::CodedRows::closed_others))]
    fn closed_args(self, s: &[u8]) -> Result<Row, Misfit>
        ensures { result ≡ closed_args self.kind self.number (split 32 s.now) }
    {
        match self.kind {
            Kind::To => due_number(s, Position::InCond).map(Row::To),
            _ => simple_row(self.number, check_kind(Some(self.kind), s)),
        }
    }

    // One that is not closed on its row.
    #[tactic(auto, unfolding(crate::specs::CodedRows::opened_args), using(crate::specs::CodedRows::opened_others))]
    fn opened_args(self, s: &[u8]) -> Result<Row, Misfit>
        ensures { result ≡ opened_args self.kind (split 32 s.now) }
    {
        match self.kind {
            Kind::Module => module_row(s),
            Kind::Line => due_number(s, Position::InModule).map(Row::Line),
            _ => Err(NO_FORM),
        }
    }

    // A form with words after its opening word.
    #[tactic(auto, unfolding(crate::specs::CodedRows::args_row))]
    fn args_row(self, bracket: Bracket, s: &[u8]) -> Result<Row, Misfit>
        ensures { result ≡ args_row (Some self.kind) self.number (is_closed bracket) (split 32 s.now) }
    {
        match bracket {
            Bracket::Closed => self.closed_args(s),
            Bracket::Open => self.opened_args(s),
        }
    }

    // The same in an accepted text, where it is in form: its words are not judged again, nor counted.
    // Kept: beside `args_row`, for the figures at `accepted_row`.
    #[tactic(auto, unfolding(crate::specs::CodedRows::args_row, crate::specs::CodedRows::closed_args), using(crate::specs::AcceptedRows::formed_ok, crate::specs::AcceptedRows::to_ok, crate::specs::AcceptedRows::opened_same, crate::specs::AcceptedRows::closed_to, crate::specs::AcceptedRows::closed_simple, crate::specs::CodedRows::to_by_number))]
    fn accepted_args(self, bracket: Bracket, s: &[u8]) -> Row
        requires { WellFormed (args_row (Some self.kind) self.number (is_closed bracket) (split 32 s.now)) }
        ensures { Ok result ≡ uncounted (args_row (Some self.kind) self.number (is_closed bracket) (split 32 s.now)) }
    {
        if let Bracket::Open = bracket {
            return self.opened_args(s).unwrap();
        }
        match self.kind {
            Kind::To => Row::To(due_number(s, Position::InCond).unwrap()),
            _ => Row::Simple {
                word: self.number,
                count: 0,
            },
        }
    }

    // A closed form of its opening word alone, without the number that `to` needs.
    #[tactic(auto, unfolding(crate::specs::CodedRows::closed_bare), using(crate::specs::CodedRows::closed_bare_others))]
    fn closed_bare(self) -> Result<Row, Misfit>
        ensures { result ≡ closed_bare self.kind self.number }
    {
        match self.kind {
            Kind::To => Err(Misfit {
                reason: Reason::NotAForm,
                due: Position::InCond,
            }),
            Kind::Bare | Kind::Numbers | Kind::Run => Ok(Row::Simple {
                word: self.number,
                count: 0,
            }),
            _ => Err(NO_FORM),
        }
    }

    // One that is not closed on its row.
    #[tactic(auto, unfolding(crate::specs::CodedRows::opened_bare), using(crate::specs::CodedRows::opened_bare_others))]
    fn opened_bare(self) -> Result<Row, Misfit>
        ensures { result ≡ opened_bare self.kind self.number }
    {
        match self.kind {
            Kind::Line => Err(Misfit {
                reason: Reason::NotAForm,
                due: Position::InModule,
            }),
            Kind::Stmts => Ok(Row::Stmts),
            Kind::Cond(word) => Ok(Row::Cond(word)),
            _ => Err(NO_FORM),
        }
    }

    // A form of its opening word alone.
    #[tactic(auto, unfolding(crate::specs::CodedRows::bare_row))]
    fn bare_row(self, bracket: Bracket) -> Result<Row, Misfit>
        ensures { result ≡ bare_row (Some self.kind) self.number (is_closed bracket) }
    {
        match bracket {
            Bracket::Closed => self.closed_bare(),
            Bracket::Open => self.opened_bare(),
        }
    }
}

// What stands between the brackets. Whether an opening word is a word need not be asked: each of the 28 is one.
#[tactic(auto, using(crate::specs::CodedRows::found_number, crate::specs::CodedRows::one_none, crate::specs::CodedRows::one_opened, crate::specs::CodedRows::more_none, crate::specs::CodedRows::more_bad, crate::specs::CodedRows::more_opened))]
fn form_row(s: &[u8], bracket: Bracket) -> Result<Row, Misfit>
    ensures { result ≡ as_row (content_of (form_row (is_closed bracket) (split 32 s.now))) }
{
    let Some((word, words)) = first_word(s) else {
        return Opening::at(word_of(s).ok_or(NO_FORM)?).bare_row(bracket);
    };
    let opening = Opening::at(word_of(word).ok_or(NO_FORM)?);
    if !are_words(words) {
        return Err(NO_FORM);
    }
    opening.args_row(bracket, words)
}

// A row's brackets off, if it begins with one.
fn brackets_off(s: &[u8]) -> Option<(&[u8], Bracket)>
    ensures { Inside s.now result }
{
    let opened = s.strip_prefix(b"(")?;
    match opened.strip_suffix(b")") {
        Some(words) => Some((words, Bracket::Closed)),
        None => Some((opened, Bracket::Open)),
    }
}

// What a row says.
#[tactic(auto, using(crate::specs::CodedRows::row_end, crate::specs::CodedRows::row_bad))]
pub(crate) fn row_of(s: &[u8]) -> Result<Row, Misfit>
    ensures { result ≡ as_row (content_of (row_of s.now)) }
{
    match brackets_off(s) {
        Some((words, bracket)) => form_row(words, bracket),
        None if equal(s, b")") => Ok(Row::End),
        None => Err(NO_FORM),
    }
}

// What stands between the brackets of an accepted row: its opening word needs no comparing, as it is the one that it
// can be.
// Kept: beside `form_row`; one function of both would take two closures, for the word's number and the words behind it.
#[tactic(auto, using(crate::specs::AcceptedRows::formed_ok, crate::specs::AcceptedRows::one_candidate, crate::specs::AcceptedRows::one_formed, crate::specs::AcceptedRows::formed_one))]
fn accepted_form(s: &[u8], bracket: Bracket) -> Row
    requires { WellFormed (as_row (content_of (form_row (is_closed bracket) (split 32 s.now)))) }
    ensures { Ok result ≡ uncounted (as_row (content_of (form_row (is_closed bracket) (split 32 s.now)))) }
{
    let Some((word, words)) = first_word(s) else {
        return Opening::at(candidate(s)).bare_row(bracket).unwrap();
    };
    Opening::at(candidate(word)).accepted_args(bracket, words)
}

// What a row of an accepted text says; nothing is judged again.
// Kept: tried as `row_of` without the count: reading 4,096 plain statements takes 32 % more instructions (2.66 million,
// 2.02), 3,900 of goto, ongoto and next 42 % more (4.80 million, 3.38).
#[tactic(auto, using(crate::specs::AcceptedRows::formed_end))]
pub(crate) fn accepted_row(s: &[u8]) -> Row
    requires { WellFormed (as_row (content_of (row_of s.now))) }
    ensures { Ok result ≡ uncounted (as_row (content_of (row_of s.now))) }
{
    let Some((words, bracket)) = brackets_off(s) else {
        return Row::End;
    };
    accepted_form(words, bracket)
}
