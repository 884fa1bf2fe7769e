// Writes the records of a saved program that is accepted: row by row of the listing that it means, into zeroed tables
// that can hold them.
ghost use Rattle.std.specs.Prelude.{◌≡◌, length, Ok};
ghost use Rattle.program_files.specs.Program.{read_program};
ghost use Rattle.reader.specs.Fill.{OperandsPut, HasRoom};
ghost use Rattle.reader.specs.States.{state_of};
ghost use Rattle.reader.specs.Lent.{ReadyIn, RecordedIn, ZeroedIn, FilledIn};
ghost use Rattle.reader.specs.FileLoop.{row_by, operands_by, operands_at, RowCounted};

use super::fill::{Place, Walk, write_row};
use super::operands::Given;
use super::rows::Row;
use super::tables::Records;
use basic::rows::{first_row, row_at};
use basic::sources::{FileRow, Simple};
use layout::columns::ARG_ENTRIES;
use layout::limits::MAX_ARGS;
use tokens::words::Cond;

// A row of a file, as one of a text; how many arguments it has is not asked again.
impl From<FileRow> for Row {
    ghost from_gives = { λ f r. r ≡ row_by f };

    fn from(r: FileRow) -> Row {
        match r {
            FileRow::Module => Row::Module(false),
            FileRow::Line(n) => Row::Line(n),
            FileRow::Simple(s) => Row::Simple {
                word: usize::from(s.word),
                count: 0,
            },
            FileRow::If => Row::Cond(Cond::If),
            FileRow::To(n) => Row::To(n),
            FileRow::Stmts => Row::Stmts,
            FileRow::End => Row::End,
        }
    }
}

// The arguments of statement n, which stand at the front of `part`, into its own 64 entries.
fn put_file_args(part: &[u64; MAX_ARGS], s: Simple, args: &mut [u64], n: usize)
    requires room { HasRoom args.old n (operands_at part.now s) }
    requires counted { s.count ≡ length (operands_at part.now s).entries }
    ensures { OperandsPut args.old n (operands_at part.now s) args.new (record { count = length (operands_at part.now s).entries; detail = 0 }) }
{
    let from = n * ARG_ENTRIES;
    args[from..from + s.count].copy_from_slice(&part[..s.count]);
}

// Writes a row, with its arguments.
// Kept: beside `fill::write_text_row`: of a row of a text its bytes say the arguments, of one of a file `part` has them.
fn write_file_row(
    part: &[u64; MAX_ARGS],
    r: FileRow,
    t: &mut Records<'_>,
    p: &Place,
    row: Row,
) -> Walk
    requires known { row ≡ row_by r }
    requires counted { RowCounted part.now r }
    requires ready { ReadyIn t.old (state_of p.now.state) p.now.walk (Ok row) (operands_by part.now r) }
    ensures { RecordedIn t.old (state_of p.now.state) p.now.walk (Ok row) (operands_by part.now r) t.new result }
{
    let given = match r {
        FileRow::Simple(s) => {
            put_file_args(part, s, t.args, p.state.stmts);
            Given {
                count: s.count,
                detail: 0,
            }
        }
        _ => Given::default(),
    };
    write_row(t.lines, t.stmts, p, row, given)
}

// The rows of an accepted file.
// Kept: `while let`, as `program_text::program::put_rows`.
pub(crate) fn fill_program(file: &[u8], t: &mut Records<'_>)
    requires { ZeroedIn (read_program file.now) t.old }
    ensures { FilledIn (read_program file.now) t.old t.new }
{
    let mut p = Place::start();
    let mut due = first_row();
    let mut part = [0u64; MAX_ARGS];
    while let Some(r) = row_at(file, due, &mut part) {
        let row = Row::from(r.row);
        p.walk = write_file_row(&part, r.row, t, &p, row);
        p.state.step_row(row).unwrap();
        due = r.next;
    }
}
