// A listing with questions on standard input; their answers, or the listing's refusal, on standard output.
#![tactic(auto)]

ghost use Rattle.std.specs.Prelude.{◌≡◌};
ghost use Rattle.graph.specs.Build.{limits};
ghost use Rattle.graph.specs.Print.{printed_refusal};
ghost use Rattle.layout.specs.Refusals.{number_of};
ghost use Rattle.formatting.specs.Printing.{Puts};
ghost use Rattle.answers.specs.Flowask.{ask_text, flowask};

use asking::ask::ask_text;
use at_limits::lent::Tables;
use at_limits::with_tables;
use filling::read_full;
use formatting::page::print_refusal;
use layout::refusals::{Reason, Refusal};
use std::io::Write;

// So many bytes a text may have, questions and all.
const MAX_TEXT: usize = 262144;

// So many bytes its answers may have together.
const MAX_ANSWERS: usize = 2097152;

// With tables that suffice at all limits.
// Kept: a length: where the answers are too long `out` is written again, so no slice of it can be kept.
fn ask_at_limits(text: &[u8], out: &mut [u8]) -> usize
    ensures { Puts out.old 0 out.new result (ask_text limits text.now) }
{
    let mut t = Tables::zeroed();
    with_tables!(ask_text, text, t, out)
}

// A refusal alone.
fn refuse(out: &mut [u8; MAX_ANSWERS + 1], refusal: Refusal) -> &[u8]
    ensures { result.now ≡ printed_refusal (number_of refusal.reason) refusal.place }
{
    let r = print_refusal(out, refusal);
    &out[..r]
}

// There is room for a byte more than the answers may have, so that the length tells whether they are too long.
fn ask<'a>(text: &[u8], out: &'a mut [u8; MAX_ANSWERS + 1]) -> &'a [u8]
    ensures { result.now ≡ flowask text.now }
{
    if MAX_TEXT < text.len() {
        return refuse(out, Reason::TextTooLong.at(0));
    }
    let r = ask_at_limits(text, out);
    if MAX_ANSWERS < r {
        return refuse(out, Reason::NoRoom.at(MAX_ANSWERS));
    }
    &out[..r]
}

// The text ends where the input does; one that goes on past the room for it is refused by its length.
// Kept: these lines stand in four programs; `filling` says why.
fn main(rt: HostRuntime) {
    let mut text = [0u8; MAX_TEXT + 1];
    let mut out = [0u8; MAX_ANSWERS + 1];
    let n = read_full(&mut rt.stdin(), &mut text);
    let answers = ask(&text[..n], &mut out);
    let _ = rt.stdout().write_all(answers);
}
