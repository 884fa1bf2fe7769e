// A line's entry, by the line's number: a node and 1, or 0 and 0 where there is none.
ghost use Rattle.adjacency.specs.EntryAt.{entry_at};
ghost use Rattle.c_answers.specs.QuestionNumbers.{entry_words, Numbered};

use c_answers::question::number_of_answer;
use questions::entry::line_first;

// `line_first` for C: the entry and 1, or 0 and 0 where the line has none.
#[unsafe(no_mangle)]
pub extern "C" fn flow_entry(
    counts: &[u32; 6],
    entries: &[u16],
    number: u16,
    answer: &mut [usize; 2],
) -> u8
    ensures { Numbered entry_words (entry_at counts.now entries.now number) result answer.new }
{
    number_of_answer(line_first(counts, entries, number), answer)
}
