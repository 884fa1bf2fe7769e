// A stack of frames by value. The openers of the frames ascend, so that a stack is a set of marks and its top the
// highest mark.
ghost use Rattle.std.specs.Prelude.{◌≡◌, ◌≤◌, ◌<◌, length};
ghost use Rattle.passes.specs.FrameStacks.{no_frames, pushed, highest_mark, top_mark, popped, under, HoldsBelow, Room};
ghost use Rattle.tables.specs.OneMore.{one_more};

use layout::limits::MAX_STMTS;
use layout::zeroing::fill_behind;
use walks::sets::{WORD_BITS, WORDS, bit, no_words};

// A stack is a set as `walks` has them: the frame of opener i is bit i % 64 of word i / 64.
// Kept: push and pop hand the changed stack back, a form that the project asks for.
// Kept: contracts ask that all openers are below the node at hand (`HoldsBelow`): it ties the stack to an argument.
// Tried as a ghost field: the check sees no proposition in it, and behind `∥ ∥₁` each proof that reads it would have to
// open it.
#[derive(Clone, Copy)]
pub(crate) struct FrameStack {
    pub(crate) words: [u64; WORDS],
}

// The stack that a pop leaves, and the opener of the popped frame.
#[derive(Clone, Copy)]
pub(crate) struct Popped {
    pub(crate) stack: FrameStack,
    pub(crate) frame: Option<usize>,
}

// A frame as a table has it: one more than its opener, or 0.
pub(crate) fn number_of(frame: Option<usize>) -> u16
    requires { one_more frame ≤ MAX_STMTS }
    ensures { result ≡ one_more frame }
{
    frame.map_or(0, |id| (id + 1) as u16)
}

// The highest mark in the first n words.
// Kept: a `for` with a way out: std has no lemma of `find_map`, so a chain would need one of its own to be led to the
// marks.
fn highest(words: &[u64; WORDS], n: usize) -> Option<usize>
    requires { n ≤ WORDS }
    ensures { one_more result ≡ highest_mark words.now n }
{
    for q in (0..n).rev() {
        if let Some(h) = words[q].checked_ilog2() {
            return Some(q * WORD_BITS + h as usize);
        }
    }
    None
}

impl FrameStack {
    // No frame is open.
    #[tactic(auto, unfolding(passes::specs::FrameStacks::no_frames))]
    pub(crate) fn new() -> FrameStack
        ensures { result.words ≡ no_frames }
    {
        FrameStack { words: no_words() }
    }

    // The newest opener. All are below i: no word above that of i is looked at.
    pub(crate) fn newest(&self, i: usize) -> Option<usize>
        requires i_bound { i < MAX_STMTS }
        requires holds_below { HoldsBelow self.now.words i }
        ensures { one_more result ≡ top_mark self.now.words }
    {
        highest(&self.words, i / WORD_BITS + 1)
    }

    // The highest mark below mark id: the frame under the frame of opener id.
    // Kept: the sum of a word's place and its top bit as in `highest`; tried as a function of both: its contract has to
    // say of a word what `highest_mark` says of a list, and the source grew by eight lines.
    pub(crate) fn below(&self, id: usize) -> Option<usize>
        requires { id < MAX_STMTS }
        ensures { (one_more result ≤ id) × (one_more result ≡ top_mark (under self.now.words id)) }
    {
        let q = id / WORD_BITS;
        let b = bit(id);
        let w = self.words[q] % b;
        match w.checked_ilog2() {
            Some(h) => Some(q * WORD_BITS + h as usize),
            None => highest(&self.words, q),
        }
    }

    // The frame of opener id goes on top.
    pub(crate) fn push(mut self, id: usize) -> FrameStack
        requires id_bound { id < MAX_STMTS }
        requires room { Room self.words id }
        ensures { result.words ≡ pushed self.words id }
    {
        let b = bit(id);
        self.words[id / WORD_BITS] += b;
        self
    }

    // Pops the newest frame, if there is one. All openers are below i.
    pub(crate) fn pop(mut self, i: usize) -> Popped
        requires i_bound { i < MAX_STMTS }
        requires holds_below { HoldsBelow self.words i }
        ensures { (one_more result.frame ≡ top_mark self.words) × (result.stack.words ≡ popped self.words) }
    {
        let frame = self.newest(i);
        if let Some(id) = frame {
            let b = bit(id);
            self.words[id / WORD_BITS] -= b;
        }
        Popped { stack: self, frame }
    }

    // Pops down to the frame of opener id: it and all above it go.
    // Kept: `fill_behind`; tried as `self.words[q + 1..].fill(0)`, here and in `fors.rt`: it proves, and `flowlist`
    // took 0.3 % more instructions on 1,500 FORs closed one by one, 0.1 % less on 1,500 that are closed at the end.
    pub(crate) fn pop_to(mut self, id: usize) -> FrameStack
        requires { id < MAX_STMTS }
        ensures { result.words ≡ under self.words id }
    {
        let q = id / WORD_BITS;
        let b = bit(id);
        self.words[q] %= b;
        fill_behind(&mut self.words, q + 1, 0);
        self
    }
}
