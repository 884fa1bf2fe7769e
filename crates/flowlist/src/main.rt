// The listing on standard input; its graph or its refusal on standard output.
#![tactic(auto)]

use at_limits::list::list_text;
use filling::read_full;
use layout::limits::MAX_BYTES;
use printing::list::MAX_PRINTED;
use std::io::Write;

// The text ends where the input does; one that goes on past the room for it is refused by its length.
// Kept: these lines stand in four programs; `filling` says why.
fn main(rt: HostRuntime) {
    let mut text = [0u8; MAX_BYTES + 1];
    let mut out = [0u8; MAX_PRINTED];
    let n = read_full(&mut rt.stdin(), &mut text);
    let listed = list_text(&text[..n], &mut out);
    let _ = rt.stdout().write_all(&out[..listed.len]);
}
