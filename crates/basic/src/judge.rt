// A whole file, accepted or refused.
ghost use Rattle.std.specs.Prelude.{◌≡◌};
ghost use Rattle.program_files.specs.Program.{read_program};
ghost use Rattle.basic.specs.Judge.{judged_of, told_of};

use super::line::{Counted, LineAt};
use super::lines::word_at;
use layout::limits::MAX_BYTES;
use layout::refusals::{Reason, Refusal};

// How many lines and statements the listing has that an accepted file means.
#[derive(Clone, Copy, Debug, PartialEq, Eq)]
pub struct Counts {
    pub lines: usize,
    pub stmts: usize,
}

// "lines are judged in order". "33, the file ends early": the place is the file's length.
// Kept: `loop`, as `bodies::judge_body`: a line says where the next link stands, and can be refused.
pub fn judge_program(file: &[u8]) -> Result<Counts, Refusal>
    ensures { told_of result ≡ judged_of (read_program file.now) }
{
    let len = file.len();
    if MAX_BYTES < len {
        return Err(Reason::TextTooLong.at(0));
    }
    let mut at: usize = 2;
    let mut s = Counted::start();
    loop {
        if len < at + 2 {
            return Err(Reason::EndsEarly.at(len));
        }
        if word_at(file, at) == 0 {
            // Kept: field by field, and not by `From`: what is counted is told at this place alone.
            return Ok(Counts {
                lines: s.lines,
                stmts: s.stmts,
            });
        }
        if len < at + 4 {
            return Err(Reason::EndsEarly.at(len));
        }
        let line = LineAt { file, at }.judge(s)?;
        s = line.counted;
        at = line.next;
    }
}
