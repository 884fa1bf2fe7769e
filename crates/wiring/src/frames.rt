// What each node meets on the loop stack and on the DO stack, and the links from openers to closers and along ELSEs.
ghost use Rattle.std.specs.Prelude.{◌≡◌, true, false, ◌+◌, ◌*◌, ◌≤◌, ◌<◌, length, get_or};
ghost use Rattle.passes.specs.FrameStacks.{HoldsBelow};
ghost use Rattle.passes.specs.Frames.{Framed};
ghost use Rattle.passes.specs.FramePass.{move_of, moves_stack, Stepped, AllZero, MetFrames, linked};
ghost use Rattle.wiring.specs.FrameRows.{flat};

use crate::leads::Frame;
use crate::stacks::{FrameStack, number_of};
use layout::columns::FRAME_ENTRIES;
use layout::limits::MAX_STMTS;
use layout::words::{ELSE, EXIT, EXITIF};
use passes::moves::{FrameMove, do_move, loop_move};
use tables::nodes::Records;

// Node i leaves the stack alone: if it joins a frame, it writes which.
fn join_frame(s: &FrameStack, m: FrameMove, i: usize, frames: &mut [Frame; MAX_STMTS])
    requires i_bound { i < MAX_STMTS }
    requires holds_below { HoldsBelow s.now.words i }
    requires m_value { moves_stack (move_of m) ≡ false }
    ensures { Stepped (move_of m) i s.now.words s.now.words (flat frames.old) (flat frames.new) }
{
    if let FrameMove::Joins = m {
        frames[i].opener = number_of(s.newest(i));
    }
}

// Node i opens a frame, or closes one: then it writes the frame that the pop hands back.
fn move_stack(s: FrameStack, m: FrameMove, i: usize, frames: &mut [Frame; MAX_STMTS]) -> FrameStack
    requires i_bound { i < MAX_STMTS }
    requires holds_below { HoldsBelow s.words i }
    requires m_value { moves_stack (move_of m) ≡ true }
    ensures { Stepped (move_of m) i s.words result.words (flat frames.old) (flat frames.new) }
{
    match m {
        FrameMove::Opens => s.push(i),
        FrameMove::Closes => {
            let p = s.pop(i);
            frames[i].opener = number_of(p.frame);
            p.stack
        }
        _ => s,
    }
}

// What node i does to a stack.
// Kept: two functions and a test: a stack is 512 bytes, so it is handed over only to be changed. Tried as one `match`
// with four arms: `flowlist` took 2.4 % more instructions on 4,000 lines of DOIF, and 4.4 % on 4,000 of ENDLOOP.
fn step(s: &mut FrameStack, m: FrameMove, i: usize, frames: &mut [Frame; MAX_STMTS])
    requires i_bound { i < MAX_STMTS }
    requires holds_below { HoldsBelow s.old.words i }
    ensures { Stepped (move_of m) i s.old.words s.new.words (flat frames.old) (flat frames.new) }
{
    if m.moves() {
        *s = move_stack(*s, m, i, frames);
    } else {
        join_frame(s, m, i, frames);
    }
}

// What each node meets, in reading order.
fn meet_frames(r: &Records<'_>, frames: &mut [Frame; MAX_STMTS])
    requires { AllZero (flat frames.old) }
    ensures { MetFrames r.now.stmts.now r.now.n (flat frames.new) }
{
    let mut loops = FrameStack::new();
    let mut dos = FrameStack::new();
    for i in 0..r.n {
        let word = r.word(i);
        step(&mut loops, loop_move(word), i, frames);
        step(&mut dos, do_move(word), i, frames);
    }
}

// The closer of a frame is written at its opener. Each ELSE is put before the ELSEs after it, so that the opener has
// the first.
fn link_node(word: u16, i: usize, frames: &mut [Frame; MAX_STMTS])
    requires { (i < MAX_STMTS) × (get_or (flat frames.old) (i * FRAME_ENTRIES) 0 ≤ i) }
    ensures { flat frames.new ≡ linked word i (flat frames.old) }
{
    let met = usize::from(frames[i].opener);
    let Some(opener) = met.checked_sub(1) else {
        return;
    };
    let node = (i + 1) as u16;
    match word {
        ELSE => {
            frames[i].next_else = frames[opener].next_else;
            frames[opener].next_else = node;
        }
        EXIT | EXITIF => {}
        _ => frames[opener].closer = node,
    }
}

// From the last node to the first, so that what is written last is what comes first.
fn link_frames(r: &Records<'_>, frames: &mut [Frame; MAX_STMTS])
    requires { MetFrames r.now.stmts.now r.now.n (flat frames.old) }
    ensures { Framed r.now.stmts.now r.now.n (flat frames.new) }
{
    for i in (0..r.n).rev() {
        link_node(r.word(i), i, frames);
    }
}

// The table of the frames of all statements.
pub(crate) fn stack_frames(r: &Records<'_>, frames: &mut [Frame; MAX_STMTS])
    requires { AllZero (flat frames.old) }
    ensures { Framed r.now.stmts.now r.now.n (flat frames.new) }
{
    meet_frames(r, frames);
    link_frames(r, frames);
}
