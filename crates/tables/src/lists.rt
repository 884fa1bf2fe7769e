// Lists of nodes, and where they stand.
ghost use Rattle.std.specs.Prelude.{◌≡◌, ◌+◌, ◌*◌, get_or};
ghost use Rattle.graph.specs.Lists.{has};

use crate::nodes::entry;
use layout::columns::{LIST_ENTRIES, SUCC_COUNT};
use std::ops::Range;

// Whether a list has the node a.
pub fn holds(l: &[u16], a: u16) -> bool
    ensures { result ≡ has a l.now }
{
    l.contains(&a)
}

// Where in the edge table node v's list of successors stands, by the node's row; 0 for what the table has not.
pub fn list_ends(lists: &[u16], v: usize) -> Range<usize>
    ensures start { result.start ≡ get_or lists.now (v * LIST_ENTRIES) 0 }
    ensures end { result.end ≡ get_or lists.now (v * LIST_ENTRIES) 0 + get_or lists.now (v * LIST_ENTRIES + SUCC_COUNT) 0 }
{
    let row = v.saturating_mul(LIST_ENTRIES);
    let start = usize::from(entry(lists, row));
    let count = usize::from(entry(lists, row.saturating_add(SUCC_COUNT)));
    start..start + count
}
