// A line's entry.
ghost use Rattle.std.specs.Prelude.{◌≡◌};
ghost use Rattle.tables.specs.Told.{told_by};
ghost use Rattle.adjacency.specs.EntryAt.{entry_at, node_of};

use adjacency::entry::ask_entry;
use layout::refusals::Refusal;

// The node where a jump to that line number starts, or none.
pub fn line_first(counts: &[u32; 6], entries: &[u16], number: u16) -> Result<Option<usize>, Refusal>
    ensures { told_by node_of result ≡ entry_at counts.now entries.now number }
{
    ask_entry(counts, entries, number)
}
