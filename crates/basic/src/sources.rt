// What is due of the listing that a file means, and its rows.
ghost use Rattle.std.specs.Prelude.{◌≤◌, ◌+◌, ◌*◌};

use super::cursors::Cursor;

// What is due next: the module's row, a line or the module's end, a statement or the end of its list, the row of a jump
// branch to a number, `(stmts`, rows `)`, nothing.
// Kept: `Ended`, and no `Option` of a source behind a row: tried, and `prglist` takes some 20 instructions more for
// each row (1,000 lines of three plain statements 4.94 million, 4.82).
#[derive(Clone, Copy)]
pub enum Stage {
    Module,
    Line,
    Statements,
    To(u16),
    Stmts,
    Ends,
    Ended,
}

// ends: how many rows `)` are due where the line ends: one for the line, two for each THEN that holds the rest of it.
#[derive(Clone, Copy)]
pub struct Source {
    pub stage: Stage,
    pub at: Cursor,
    pub ends: usize,
    // Two for each THEN, and a THEN is a byte that stands before `at`.
    ghost few: { ends ≤ 2 * at.at + 1 },
}

// A statement that holds no others: the number of its opening word, and how many arguments it has.
#[derive(Clone, Copy)]
pub struct Simple {
    pub word: u16,
    pub count: usize,
}

// A row: the module's, without handlers; a line's; a statement's; `(if`, `(to N)`, `(stmts`, `)`.
// Kept: `End` is the row `)`, and not that there is none.
// Kept: beside reader's `Row`: a file has no handlers, no IFELSE and no RCOMP, and its statements' arguments stand beside
// the row.
#[derive(Clone, Copy)]
pub enum FileRow {
    Module,
    Line(u16),
    Simple(Simple),
    If,
    To(u16),
    Stmts,
    End,
}

// A row, and what is due behind it.
#[derive(Clone, Copy)]
pub struct Sourced {
    pub row: FileRow,
    pub next: Source,
}
