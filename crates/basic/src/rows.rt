// The rows of the listing that an accepted file means, one after the other, as its bytes stand there.
ghost use Rattle.std.specs.Prelude.{◌≡◌, ◌≤◌, ◌<◌, ◌+◌, ◌*◌, ℕ, suc, List, [], ◌∷◌, length};
ghost use Rattle.listings.specs.Rows.{end_row};
ghost use Rattle.basic.specs.Cursors.{tokens_at};
ghost use Rattle.basic.specs.Rows.{Yields, StartsRows, FirstOf, IsDue, ends_then, lines_at, lines_behind, statements_at, action_rows};
ghost use Rattle.basic.specs.Rests.{zero_at, Ordered};

use super::actions::{Action, action_at, pass_over};
use super::covered::zero_from;
use super::cursors::{Cursor, token_at};
use super::lines::word_at;
use super::sources::{FileRow, Simple, Source, Sourced, Stage};

// Before the first row of a file.
pub fn first_row() -> Source
    ensures { (f : List ℕ) → StartsRows f result }
{
    Source {
        stage: Stage::Module,
        at: Cursor::uncovered(2),
        ends: 1,
    }
}

impl Source {
    // The same place, where something else is due.
    // Kept: field by field, since Rattle has no `..s` for a struct with a ghost field.
    fn staged(self, stage: Stage) -> Source
        ensures { result ≡ record self { stage = stage } }
    {
        Source {
            stage,
            at: self.at,
            ends: self.ends,
        }
    }
}

// The module's last row, behind which nothing is due.
fn module_end() -> Sourced
    ensures { (f z t : List ℕ) → FirstOf f z t (end_row ∷ []) result }
{
    Sourced {
        row: FileRow::End,
        next: Source {
            stage: Stage::Ended,
            at: Cursor::uncovered(0),
            ends: 0,
        },
    }
}

// The line whose link stands at a place, or the module's end.
fn line_row_at(file: &[u8], at: usize) -> Sourced
    ensures { (z t : List ℕ) → FirstOf file.now z t (lines_at file.now at) result }
{
    let left = file.len().saturating_sub(at);
    if left < 4 || word_at(file, at) == 0 {
        return module_end();
    }
    Sourced {
        row: FileRow::Line(word_at(file, at + 2)),
        next: Source {
            stage: Stage::Statements,
            at: Cursor::uncovered(at + 4),
            ends: 1,
        },
    }
}

// The link behind the line in whose bytes c stands; where the file ends before, a place past its end.
fn link_behind(file: &[u8], c: Cursor) -> usize
    ensures { lines_at file.now result ≡ lines_behind file.now c }
{
    if file.len() <= c.at {
        return c.at;
    }
    zero_from(file, c.at) + 1
}

// A row `)`; behind the last of them the next line is due.
fn end_row_at(file: &[u8], s: Source) -> Sourced
    ensures { (z t : List ℕ) → FirstOf file.now z t (ends_then s.ends (lines_behind file.now s.at)) result }
{
    match s.ends {
        0 => line_row_at(file, link_behind(file, s.at)),
        1 => Sourced {
            row: FileRow::End,
            next: Source {
                stage: Stage::Line,
                at: Cursor::uncovered(link_behind(file, s.at)),
                ends: 0,
            },
        },
        _ => Sourced {
            row: FileRow::End,
            next: Source {
                stage: Stage::Ends,
                at: s.at,
                ends: s.ends - 1,
            },
        },
    }
}

// The next statement behind colons, or the end of them.
// Kept: `loop`, as `actions::seek_at`.
fn statement_row_at(file: &[u8], s: Source, part: &mut [u64]) -> Sourced
    ensures { FirstOf file.now part.old part.new (statements_at file.now s.at s.ends) result }
{
    let mut at = s.at;
    loop {
        let t = token_at(file, at);
        match t.byte {
            0 => return end_row_at(file, s),
            b':' => at = t.next,
            byte => return action_row(file, byte, t.next, s, part),
        }
    }
}

// The statement whose first byte is b, which stands before `at` and not before s.at.
fn action_row(file: &[u8], b: u8, at: Cursor, s: Source, part: &mut [u64]) -> Sourced
    requires inside { s.at.at < length file.now }
    requires line { zero_at (tokens_at file.now at) ≡ zero_at (tokens_at file.now s.at) }
    requires later { Ordered (suc s.at.at) (length file.now) (tokens_at file.now at) }
    ensures { FirstOf file.now part.old part.new (action_rows file.now b at s) result }
{
    let Ok(action) = action_at(file, b, at, part) else {
        return end_row_at(file, s);
    };
    match action.value {
        Action::Does { word, count } => Sourced {
            row: FileRow::Simple(Simple { word, count }),
            next: due(file, Stage::Statements, pass_over(file, action.next), s, 0),
        },
        Action::Jumps(number) => Sourced {
            row: FileRow::If,
            next: due(file, Stage::To(number), action.next, s, 1),
        },
        Action::Holds => Sourced {
            row: FileRow::If,
            next: due(file, Stage::Stmts, action.next, s, 2),
        },
    }
}

// What is due behind a statement's row, with so many more rows `)`. It begins where the next byte counts: that place is
// known to be a later one.
fn due(file: &[u8], stage: Stage, c: Cursor, s: Source, more: usize) -> Source
    requires inside { s.at.at < length file.now }
    requires few { more ≤ 2 }
    requires later { Ordered (suc s.at.at) (length file.now) (tokens_at file.now c) }
    ensures { IsDue file.now stage c (s.ends + more) result }
{
    let t = token_at(file, c);
    Source {
        stage,
        at: Cursor::uncovered(t.place),
        ends: s.ends + more,
    }
}

// The row that is due, and what is due behind it; a statement's arguments at the front of `part`, as far as it goes.
pub fn row_at(file: &[u8], s: Source, part: &mut [u64]) -> Option<Sourced>
    ensures { Yields file.now part.old part.new s result }
{
    match s.stage {
        Stage::Module => Some(Sourced {
            row: FileRow::Module,
            next: s.staged(Stage::Line),
        }),
        Stage::Line => Some(line_row_at(file, s.at.at)),
        Stage::Statements => Some(statement_row_at(file, s, part)),
        Stage::To(number) => Some(Sourced {
            row: FileRow::To(number),
            next: s.staged(Stage::Ends),
        }),
        Stage::Stmts => Some(Sourced {
            row: FileRow::Stmts,
            next: s.staged(Stage::Statements),
        }),
        Stage::Ends => Some(end_row_at(file, s)),
        Stage::Ended => None,
    }
}
