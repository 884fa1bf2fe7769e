// Reads an input, a listing's text or a saved program, into tables that it zeroes: judges the whole of it, then, where
// they can hold it, writes its records.
ghost use Rattle.std.specs.Prelude.{◌≡◌, ◌≤◌, [], ◌∷◌, length};
ghost use Rattle.listings.specs.Cut.{meant};
ghost use Rattle.listings.specs.Records.{handler_number};
ghost use Rattle.program_files.specs.Inputs.{meaning};
ghost use Rattle.reader.specs.Answer.{by_number, listed_of};
ghost use Rattle.reader.specs.Inputs.{is_program, bytes_of};
ghost use Rattle.reader.specs.Lent.{Same, ZeroedIn, FilledIn};
ghost use Rattle.reader.specs.Listed.{Judged as JudgedInput, RecordsWritten};
ghost use Rattle.reader.specs.FileLoop.{accepted_counts};

use super::file_rows::fill_program;
use super::fill::fill;
use super::judge::judge;
use super::tables::Records;
use basic::judge::{Counts, judge_program};
use layout::columns::{ARG_ENTRIES, STMT_ENTRIES};
use layout::limits::{MAX_LINES, MAX_STMTS};
use layout::refusals::{Reason, Refusal};

// A listing's text, or a saved program.
#[derive(Clone, Copy)]
pub enum Input<'a> {
    Text(&'a [u8]),
    Program(&'a [u8]),
}

// What an accepted input means: whether ON KEY, ON ERROR or RESUME occurs; how many lines and statements.
#[derive(Clone, Copy, Debug, PartialEq, Eq)]
pub struct Accepted {
    pub handlers: bool,
    pub lines: usize,
    pub stmts: usize,
}

impl Accepted {
    // The used counts; those of the edges, return targets and entry rows are not the reader's.
    #[tactic(auto, unfolding(listings::specs::Records::handler_number))]
    fn counts(self) -> [u32; 6]
        requires { (self.lines ≤ MAX_LINES) × (self.stmts ≤ MAX_STMTS) }
        ensures { result ≡ self.lines ∷ self.stmts ∷ handler_number self.handlers ∷ 0 ∷ 0 ∷ 0 ∷ [] }
    {
        let handlers = u32::from(self.handlers);
        [self.lines as u32, self.stmts as u32, handlers, 0, 0, 0]
    }
}

// A program has no handlers.
impl From<Counts> for Accepted {
    ghost from_gives = { λ c a. a ≡ accepted_counts c };

    fn from(c: Counts) -> Accepted {
        Accepted {
            handlers: false,
            lines: c.lines,
            stmts: c.stmts,
        }
    }
}

impl Input<'_> {
    // Accepted or refused.
    fn judge(self) -> Result<Accepted, Refusal>
        ensures { by_number result ≡ listed_of (meaning (is_program self.entry) (bytes_of self.entry)) }
    {
        match self {
            Input::Text(text) => judge(text),
            Input::Program(file) => judge_program(file).map(Accepted::from),
        }
    }

    // The records of one that is accepted, into zeroed tables that can hold them.
    fn fill(self, t: &mut Records<'_>)
        requires { ZeroedIn (meaning (is_program self) (bytes_of self)) t.old }
        ensures { FilledIn (meaning (is_program self.entry) (bytes_of self.entry)) t.old t.new }
    {
        match self {
            Input::Text(text) => fill(text, t),
            Input::Program(file) => fill_program(file, t),
        }
    }
}

// An accepted input, into zeroed tables.
fn write_listing(
    input: Input<'_>,
    counts: &mut [u32; 6],
    t: &mut Records<'_>,
    a: Accepted,
) -> Result<Accepted, Refusal>
    requires { JudgedInput (meaning (is_program input) (bytes_of input)) counts.old t.old.lines.now t.old.stmts.now t.old.args.now a.handlers a.lines a.stmts }
    ensures same { Same t.old t.new }
    ensures written { RecordsWritten (meaning (is_program input.entry) (bytes_of input.entry)) (length t.old.lines.now) (length t.old.stmts.now) (length t.old.args.now) counts.new t.new.lines.now t.new.stmts.now t.new.args.now result }
{
    if t.lines.len() < a.lines {
        return Err(Reason::LineTables.at(a.lines));
    }
    if t.stmts.len() / STMT_ENTRIES < a.stmts || t.args.len() / ARG_ENTRIES < a.stmts {
        return Err(Reason::NodeTables.at(a.stmts));
    }
    input.fill(t);
    *counts = a.counts();
    Ok(a)
}

// counts: lines, statements, handlers. lines: a number each. stmts: 12 entries a statement, args: 64.
// A refused input leaves every entry zero.
// Kept: the tables one by one, as `build_input` of the wiring has them from the C interface.
pub fn read_input(
    input: Input<'_>,
    counts: &mut [u32; 6],
    lines: &mut [u16],
    stmts: &mut [u16],
    args: &mut [u64],
) -> Result<Accepted, Refusal>
    ensures { RecordsWritten (meaning (is_program input.entry) (bytes_of input.entry)) (length lines.old) (length stmts.old) (length args.old) counts.new lines.new stmts.new args.new result }
{
    *counts = [0; 6];
    let mut t = Records { lines, stmts, args };
    t.clear();
    let a = input.judge()?;
    write_listing(input, counts, &mut t, a)
}

// The same of a text. Nothing here calls it: it is the name by which the reader's promise of a text is known.
// Kept: the tables one by one, as `read_input` takes them.
pub fn read_listing(
    text: &[u8],
    counts: &mut [u32; 6],
    lines: &mut [u16],
    stmts: &mut [u16],
    args: &mut [u64],
) -> Result<Accepted, Refusal>
    ensures { RecordsWritten (meant text.now) (length lines.old) (length stmts.old) (length args.old) counts.new lines.new stmts.new args.new result }
{
    read_input(Input::Text(text), counts, lines, stmts, args)
}
