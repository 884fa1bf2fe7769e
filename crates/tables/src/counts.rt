// How much of the lent tables is used.
ghost use Rattle.std.specs.Prelude.{◌≡◌, ◌<◌, get_or};

use layout::columns::{LINE_COUNT, NODE_COUNT, ROW_COUNT, TARGET_COUNT};
use layout::widths::count_of;

// The table of counts: lines, statements, handlers, edges, return targets and rows of line entries.
// Kept: `[u32; 6]`, here and wherever it is lent: six, as C's header has it.
#[derive(Clone, Copy)]
pub struct Counts<'a>(pub &'a [u32; 6]);

impl Counts<'_> {
    // How many lines there are.
    // Kept: four of one shape: each reads one column, by its name.
    pub fn lines(&self) -> usize
        ensures { (result ≡ get_or self.now.0.now LINE_COUNT 0) × (result < 4294967296) }
    {
        count_of(self.0[LINE_COUNT])
    }

    // How many statements, each a node.
    // Kept: one of four, as `lines`.
    pub fn nodes(&self) -> usize
        ensures { (result ≡ get_or self.now.0.now NODE_COUNT 0) × (result < 4294967296) }
    {
        count_of(self.0[NODE_COUNT])
    }

    // How many return targets.
    // Kept: one of four, as `lines`.
    pub fn targets(&self) -> usize
        ensures { (result ≡ get_or self.now.0.now TARGET_COUNT 0) × (result < 4294967296) }
    {
        count_of(self.0[TARGET_COUNT])
    }

    // How many rows of line entries.
    // Kept: one of four, as `lines`.
    pub fn rows(&self) -> usize
        ensures { (result ≡ get_or self.now.0.now ROW_COUNT 0) × (result < 4294967296) }
    {
        count_of(self.0[ROW_COUNT])
    }
}
