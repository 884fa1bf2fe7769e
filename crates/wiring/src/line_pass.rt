// The line entries, found in one pass from the last line.
// A file of its own: where numbers need not ascend (document 02, L12), entries are defined otherwise.
ghost use Rattle.std.specs.Prelude.{◌≡◌, ◌*◌, ◌≤◌, ◌<◌, length, get_or};
ghost use Rattle.layout.specs.declared.columns.TheConstants.{ENTRY_ENTRIES};
ghost use Rattle.passes.specs.LineEntries.{EntriesComputed};
ghost use Rattle.passes.specs.LinePass.{put_row, StepMet};

use crate::falls::{start_of, target_of};
use layout::columns::{ENTRY_ENTRIES, ENTRY_NODE, ENTRY_NUMBER};
use tables::nodes::Records;

// How far the pass has come: the statements of the lines that it met are those from `from` on; `next` is one more than
// the node where the first of these lines enters, or 0.
#[derive(Clone, Copy)]
struct Met {
    from: usize,
    next: u16,
}

// Meets line l, the last of those that are not met: its row is its number and its entry, which is its first statement,
// or else the entry of the line behind it. Of each step is said that it stores this row alone; that a row is written
// twice within one step, or spoilt and put right, no clause can see.
fn meet_line(r: &Records<'_>, lines: &[u16], entries: &mut [u16], l: usize, met: Met) -> Met
    requires few { met.from ≤ r.now.n }
    requires within { l < length lines.now }
    requires room { length lines.now * ENTRY_ENTRIES ≤ length entries.old }
    ensures few { result.from ≤ met.from }
    ensures row { entries.new ≡ put_row entries.old l (get_or lines.now l 0) result.next }
    ensures met { StepMet lines.now r.now.stmts.now r.now.n l met.from met.next result.from result.next entries.old entries.new }
{
    let first = start_of(r, l, met.from);
    let next = target_of(first, met.from, met.next);
    entries[l * ENTRY_ENTRIES + ENTRY_NUMBER] = lines[l];
    entries[l * ENTRY_ENTRIES + ENTRY_NODE] = next;
    Met { from: first, next }
}

// The rows of these lines with these statements.
pub(crate) fn compute_line_after(r: &Records<'_>, lines: &[u16], entries: &mut [u16])
    requires { length lines.now * ENTRY_ENTRIES ≤ length entries.old }
    ensures { EntriesComputed lines.now r.now.stmts.now (length lines.now) r.now.n entries.old entries.new }
{
    let mut met = Met { from: r.n, next: 0 };
    for l in (0..lines.len()).rev() {
        met = meet_line(r, lines, entries, l, met);
    }
}
