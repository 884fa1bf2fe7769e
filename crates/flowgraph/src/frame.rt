// The frame list: its length; the list itself stands in `out`.
// Kept: C lends the tables one by one.
ghost use Rattle.std.specs.Prelude.{length, get_or};
ghost use Rattle.frame_lists.specs.FrameAt.{frame_at};
ghost use Rattle.c_answers.specs.QuestionNumbers.{ListNumbered};

use c_answers::question::number_of_answer;
use frame_lists::frame::FrameTables;
use questions::frame::frame_successors;

// `frame_successors` for C: the list's length; the list stands in the lent slice.
#[unsafe(no_mangle)]
pub extern "C" fn flow_frame(
    counts: &[u32; 6],
    stmts: &[u16],
    args: &[u64],
    falls: &[u16],
    lists: &[u16],
    succ: &[u16],
    header: usize,
    node: usize,
    name: &[u8],
    flag: bool,
    out: &mut [u16],
    answer: &mut [usize; 2],
) -> u8
    ensures { ListNumbered (frame_at (get_or counts.now 0 0) (get_or counts.now 1 0) stmts.now args.now falls.now lists.now succ.now header node name.now flag (length out.old)) out.old out.new result answer.new }
{
    let tables = FrameTables {
        counts,
        stmts,
        args,
        falls,
        lists,
        succ,
    };
    let framed = frame_successors(&tables, header, node, name, flag, out);
    number_of_answer(framed, answer)
}
