// The words of a question's row.
ghost use Rattle.std.specs.Prelude.{◌≡◌};
ghost use Rattle.listings.specs.Rows.{lookup};
ghost use Rattle.answers.specs.Flowask.{question_words};
ghost use Rattle.answers.specs.QuestionWords.{form_by, FormOpened, RowOpened, WordsCut, frame_by, FrameRead};

use layout::refusals::Reason;
use tokens::arguments::{are_words, lower};
use tokens::numbers::{flag_of, number};
use tokens::scan::{equal, first_word};

// The opening words that one number follows: a node, or a line's number.
#[derive(Clone, Copy, Debug, PartialEq, Eq)]
pub(crate) enum ByNumber {
    Successors,
    Predecessors,
    Statement,
    Entry,
}

// The opening words of questions.
#[derive(Clone, Copy, Debug, PartialEq, Eq)]
pub(crate) enum Form {
    Number(ByNumber),
    Path,
    Frame,
}

// The opening word of a question, and the words after it.
#[derive(Clone, Copy)]
pub(crate) struct Opened<'a> {
    pub(crate) form: Form,
    pub(crate) words: &'a [u8],
}

// The words of a frame question, as they stand; the last may be more than one.
#[derive(Clone, Copy)]
struct FourWords<'a> {
    header: &'a [u8],
    node: &'a [u8],
    name: &'a [u8],
    flag: &'a [u8],
}

// The words of a frame question, judged.
#[derive(Clone, Copy)]
pub(crate) struct FrameWords<'a> {
    pub(crate) header: u16,
    pub(crate) node: u16,
    pub(crate) name: &'a [u8],
    pub(crate) flag: bool,
}

// The opening words, and what each asks.
static QUESTIONS: [(&[u8], Form); 6] = [
    (b"successors", Form::Number(ByNumber::Successors)),
    (b"predecessors", Form::Number(ByNumber::Predecessors)),
    (b"statement", Form::Number(ByNumber::Statement)),
    (b"entry", Form::Number(ByNumber::Entry)),
    (b"path", Form::Path),
    (b"frame", Form::Frame),
];

// The first of the table's words that is w.
fn question_word(w: &[u8]) -> Option<Form>
    ensures { lookup question_words w.now ≡ form_by result }
{
    QUESTIONS
        .iter()
        .find(|(word, _)| equal(word, w))
        .map(|(_, form)| *form)
}

// What stands between the brackets. Every question has words after its opening one.
fn open_form(s: &[u8]) -> Option<Opened<'_>>
    ensures { FormOpened s.now result }
{
    if !are_words(s) {
        return None;
    }
    let (word, words) = first_word(s)?;
    let form = question_word(word)?;
    Some(Opened { form, words })
}

// The brackets off.
pub(crate) fn open_row(w: &[u8]) -> Option<Opened<'_>>
    ensures { RowOpened w.now result }
{
    open_form(w.strip_prefix(b"(")?.strip_suffix(b")")?)
}

// A row of four words; the fourth is judged later.
fn four_words(s: &[u8]) -> Option<FourWords<'_>>
    ensures { WordsCut s.now result }
{
    let (header, rest) = first_word(s)?;
    let (node, rest) = first_word(rest)?;
    let (name, flag) = first_word(rest)?;
    Some(FourWords {
        header,
        node,
        name,
        flag,
    })
}

// "within it, the lowest number".
fn frame_by(
    h: Result<u16, Reason>,
    i: Result<u16, Reason>,
    name: &[u8],
    flag: Option<bool>,
) -> Result<FrameWords<'_>, Reason>
    ensures { result ≡ frame_by h i name.entry flag }
{
    let flag = flag.ok_or(Reason::NotAForm)?;
    let node = lower(h, i)?;
    let header = h?;
    Ok(FrameWords {
        header,
        node,
        name,
        flag,
    })
}

// H N V F
pub(crate) fn frame_words(s: &[u8]) -> Result<FrameWords<'_>, Reason>
    ensures { FrameRead s.now result }
{
    let w = four_words(s).ok_or(Reason::NotAForm)?;
    frame_by(number(w.header), number(w.node), w.name, flag_of(w.flag))
}
