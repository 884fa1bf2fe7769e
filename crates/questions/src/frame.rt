// The frame list.
ghost use Rattle.std.specs.Prelude.{length};
ghost use Rattle.frame_lists.specs.FromTables.{frame_from};
ghost use Rattle.frame_slices.specs.FrameAnswer.{FrameAnswered};

use frame_lists::frame::{FrameTables, ask_frame};
use layout::refusals::Refusal;

// Header, node, name and flag: the list's length, the list at the front of `out` and zeros behind;
// or the refusal and `out` as it was.
// Kept: header, node, name and flag one by one, as C's function hands them on.
pub fn frame_successors(
    t: &FrameTables<'_>,
    header: usize,
    node: usize,
    name: &[u8],
    flag: bool,
    out: &mut [u16],
) -> Result<usize, Refusal>
    ensures { FrameAnswered (frame_from t.now header node name.now flag (length out.old)) out.old out.new result }
{
    ask_frame(t, header, node, name, flag, out)
}
