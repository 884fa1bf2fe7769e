// What a statement does to the loop stack and to the DO stack.
ghost use Rattle.std.specs.Prelude.{◌≡◌};
ghost use Rattle.passes.specs.Frames.{loop_move, do_move};
ghost use Rattle.passes.specs.FramePass.{move_of, moves_stack};

use layout::words::{DOIF, DONE, ELSE, ENDLOOP, EXIT, EXITIF, LOOP, REPEAT, UNTIL};

// What a statement does to a stack.
// Kept: `Stays`, and no `Option` of a move: each word has a move by the definition, and it is the last arm of both.
#[derive(Clone, Copy)]
pub enum FrameMove {
    Stays,
    Opens,
    Closes,
    Joins,
}

impl FrameMove {
    // Whether the stack is changed.
    pub fn moves(self) -> bool
        ensures { result ≡ moves_stack (move_of self) }
    {
        matches!(self, FrameMove::Opens | FrameMove::Closes)
    }
}

// REPEAT and LOOP open, UNTIL and ENDLOOP close, EXIT and EXITIF join.
// Kept: this and the next are two functions, as the definitions are two: no word stands in both.
#[tactic(auto, unfolding(crate::specs::Frames::loop_move))]
pub fn loop_move(word: u16) -> FrameMove
    ensures { move_of result ≡ loop_move word }
{
    match word {
        REPEAT | LOOP => FrameMove::Opens,
        UNTIL | ENDLOOP => FrameMove::Closes,
        EXIT | EXITIF => FrameMove::Joins,
        _ => FrameMove::Stays,
    }
}

// What a word does to the DO stack.
#[tactic(auto, unfolding(crate::specs::Frames::do_move))]
pub fn do_move(word: u16) -> FrameMove
    ensures { move_of result ≡ do_move word }
{
    match word {
        DOIF => FrameMove::Opens,
        ELSE => FrameMove::Joins,
        DONE => FrameMove::Closes,
        _ => FrameMove::Stays,
    }
}
