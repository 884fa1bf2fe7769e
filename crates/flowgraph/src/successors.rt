// A node's successors and predecessors: where they stand in the caller's edge table.
// Kept: C lends the tables one by one.
ghost use Rattle.std.specs.Prelude.{length};
ghost use Rattle.adjacency.specs.ListsAt.{successors_at, predecessors_at};
ghost use Rattle.c_answers.specs.QuestionNumbers.{pair_words, Numbered};

use c_answers::question::number_of_answer;
use questions::successors::{ask_predecessors, ask_successors};

// `successors` for C, which has no slices: start and length of the part.
#[tactic(auto, using(c_answers::specs::QuestionNumbers::numbered_as))]
#[unsafe(no_mangle)]
pub extern "C" fn flow_successors(
    counts: &[u32; 6],
    lists: &[u16],
    succ: &[u16],
    node: usize,
    answer: &mut [usize; 2],
) -> u8
    ensures { Numbered pair_words (successors_at counts.now lists.now (length succ.now) node) result answer.new }
{
    number_of_answer(ask_successors(counts, lists, succ, node), answer)
}

// `predecessors` for C, in the same way.
#[tactic(auto, using(c_answers::specs::QuestionNumbers::numbered_as))]
#[unsafe(no_mangle)]
pub extern "C" fn flow_predecessors(
    counts: &[u32; 6],
    lists: &[u16],
    pred: &[u16],
    node: usize,
    answer: &mut [usize; 2],
) -> u8
    ensures { Numbered pair_words (predecessors_at counts.now lists.now (length pred.now) node) result answer.new }
{
    number_of_answer(ask_predecessors(counts, lists, pred, node), answer)
}
