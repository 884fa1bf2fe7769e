// A line's entry, read off tables that any caller may have written.
ghost use Rattle.std.specs.Prelude.{◌≡◌, ◌*◌, ◌≤◌, length};
ghost use Rattle.graph.specs.Nodes.{entry_in};
ghost use Rattle.tables.specs.EntryRows.{entries_in};
ghost use Rattle.tables.specs.Told.{told_by};
ghost use Rattle.adjacency.specs.EntryAt.{entry_at, node_of};

use layout::columns::{ENTRY_ENTRIES, ENTRY_NODE, ENTRY_NUMBER};
use layout::refusals::{Reason, Refusal};
use tables::counts::Counts;

// The entry of the first of n rows with that number, a node or none. The numbers need not ascend.
// Kept: a loop; tried `iter().find(..)`, by which 2,000 questions for entries took 16 % more instructions.
fn first_entry(entries: &[u16], n: usize, number: u16) -> Option<usize>
    requires { n * ENTRY_ENTRIES ≤ length entries.now }
    ensures { node_of result ≡ entry_in (entries_in n entries.now) number }
{
    let (rows, _) = entries.as_chunks::<ENTRY_ENTRIES>();
    for row in &rows[..n] {
        if row[ENTRY_NUMBER] == number {
            return usize::from(row[ENTRY_NODE]).checked_sub(1);
        }
    }
    None
}

// The node where a jump to the line with that number starts, or none.
// Refused 25 if the rows, or the entry itself, point outside.
pub fn ask_entry(counts: &[u32; 6], entries: &[u16], number: u16) -> Result<Option<usize>, Refusal>
    ensures { told_by node_of result ≡ entry_at counts.now entries.now number }
{
    let used = Counts(counts);
    let n = used.rows();
    if entries.len() < n * ENTRY_ENTRIES {
        return Err(Reason::Outside.at(0));
    }
    match first_entry(entries, n, number) {
        Some(id) if used.nodes() <= id => Err(Reason::Outside.at(0)),
        entry => Ok(entry),
    }
}
