// The answer to a question, as a number and two words.
ghost use Rattle.std.specs.Prelude.{◌≡◌, ℕ, List, [], ◌∷◌};
ghost use Rattle.tables.specs.Told.{told_as};
ghost use Rattle.adjacency.specs.EntryAt.{node_of};
ghost use Rattle.c_answers.specs.QuestionNumbers.{Numbered, pair_words, entry_words};

use layout::refusals::Refused;

// What is answered, in two words.
pub trait Words {
    ghost as_words: { Self → List ℕ };

    fn words(self) -> [usize; 2]
        ensures { result ≡ as_words self };
}

// Start and length of a list; a statement's node and the number of its opening word.
// Kept: a pair for both: C reads each as two words in that order, so that two structs would say one `words` twice.
impl Words for (usize, usize) {
    ghost as_words = { pair_words };

    #[tactic(auto, unfolding(crate::specs::QuestionNumbers::pair_words))]
    fn words(self) -> [usize; 2] {
        [self.0, self.1]
    }
}

// A line's entry: a node and 1, or 0 and 0 where there is none.
impl Words for Option<usize> {
    ghost as_words = { λ entry. entry_words (node_of entry) };

    #[tactic(auto, unfolding(crate::specs::QuestionNumbers::entry_words))]
    fn words(self) -> [usize; 2] {
        match self {
            Some(node) => [node, 1],
            None => [0, 0],
        }
    }
}

// The length of a frame list.
impl Words for usize {
    ghost as_words = { λ len. len ∷ 0 ∷ [] };

    fn words(self) -> [usize; 2] {
        [self, 0]
    }
}

// 0 and the words of an answer; or document 01's number, and the refusal's place and 0.
pub fn number_of_answer<T: Words, R: Refused>(answer: Result<T, R>, words: &mut [usize; 2]) -> u8
    ensures { Numbered T.as_words (told_as R.as_pair answer) result words.new }
{
    match answer {
        Ok(answered) => {
            *words = answered.words();
            0
        }
        Err(refusal) => {
            *words = [refusal.place(), 0];
            refusal.number()
        }
    }
}
