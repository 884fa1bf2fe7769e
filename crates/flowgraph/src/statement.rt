// A node's statement and the statement at a path: its node and the number of its opening word.
// Kept: C lends the tables one by one.
ghost use Rattle.statements.specs.StatementAt.{node_statement, path_statement};
ghost use Rattle.c_answers.specs.QuestionNumbers.{pair_words, Numbered};

use c_answers::question::number_of_answer;
use questions::statement::{resolve_path, stmt_at};

// `stmt_at` for C: the node and the number of its word.
#[tactic(auto, using(c_answers::specs::QuestionNumbers::numbered_as))]
#[unsafe(no_mangle)]
pub extern "C" fn flow_statement(
    counts: &[u32; 6],
    stmts: &[u16],
    node: usize,
    answer: &mut [usize; 2],
) -> u8
    ensures { Numbered pair_words (node_statement counts.now stmts.now node) result answer.new }
{
    number_of_answer(stmt_at(counts, stmts, node), answer)
}

// `resolve_path` for C: the node at the path and the number of its word.
#[tactic(auto, using(c_answers::specs::QuestionNumbers::numbered_as))]
#[unsafe(no_mangle)]
pub extern "C" fn flow_path(
    counts: &[u32; 6],
    stmts: &[u16],
    line: usize,
    path: &[u16],
    answer: &mut [usize; 2],
) -> u8
    ensures { Numbered pair_words (path_statement counts.now stmts.now line path.now) result answer.new }
{
    number_of_answer(resolve_path(counts, stmts, line, path), answer)
}
