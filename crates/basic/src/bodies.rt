// The statements of a line: how many, whether one stands too deep, whether one lists too much; or the place that 35
// names.
ghost use Rattle.std.specs.Prelude.{◌≡◌, length};
ghost use Rattle.listings.specs.Listing.{∅};
ghost use Rattle.program_files.specs.Program.{body_of};
ghost use Rattle.basic.specs.Cursors.{tokens_at};
ghost use Rattle.basic.specs.Actions.{fuel};
ghost use Rattle.basic.specs.Rests.{zero_at};
ghost use Rattle.basic.specs.Bodies.{summary, body_in, AtMost, EndsAt};

use super::actions::{Action, action_at, pass_over};
use super::covered::zero_from;
use super::cursors::{Cursor, token_at};
use super::found::Lack;
use layout::limits::{MAX_ARGS, MAX_DEPTH};

// deep: a statement at depth 17. long: a 65th number or slot.
// Kept: two flags, and no `Option<Reason>`: each is joined by `|=` where it is met; of one reason the lower would
// have to be chosen there.
#[derive(Clone, Copy)]
pub(crate) struct Body {
    pub(crate) stmts: usize,
    pub(crate) deep: bool,
    pub(crate) long: bool,
}

// A line's statements, none of them lacking, and where its zero stands.
#[derive(Clone, Copy)]
pub(crate) struct Whole {
    pub(crate) body: Body,
    pub(crate) zero: usize,
}

// The statements from c on. "Of a jump branch the rest of that line makes no node".
// Kept: `loop`: a statement says where the next one is looked for, and can be lacking; an iterator of statements would
// yield a `Result` and hold the place, and its `next` would be what a turn is here.
pub(crate) fn judge_body(file: &[u8], c: Cursor) -> Result<Whole, Lack>
    ensures told { body_in result ≡ summary (body_of (fuel file.now c) ∅ (tokens_at file.now c)) }
    ensures few { AtMost (length file.now) (body_in result) }
    ensures zero { EndsAt (zero_at (tokens_at file.now c)) result }
{
    let mut at = c;
    let mut stmts: usize = 0;
    let mut depth: usize = 0;
    let mut deep = false;
    let mut long = false;
    let zero = loop {
        let t = token_at(file, at);
        match t.byte {
            0 => break t.place,
            b':' => at = t.next,
            byte => {
                deep |= MAX_DEPTH < depth;
                stmts += 1;
                let action = action_at(file, byte, t.next, &mut [])?;
                match action.value {
                    Action::Does { word: _, count } => {
                        long |= MAX_ARGS < count;
                        at = pass_over(file, action.next);
                    }
                    Action::Jumps(_) => break zero_from(file, action.next.at),
                    Action::Holds => {
                        depth += 1;
                        at = action.next;
                    }
                }
            }
        }
    };
    let body = Body { stmts, deep, long };
    Ok(Whole { body, zero })
}
