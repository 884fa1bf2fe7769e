// A saved program on standard input; the listing that it means in the bracket form, or its refusal, on standard output.
#![tactic(auto)]

use filling::read_full;
use layout::limits::MAX_BYTES;
use program_text::program::{MAX_LISTED, list_page};
use std::io::Write;

// The file ends where the input does; one that goes on past the room for it is refused by its length.
// Kept: these lines stand in four programs; `filling` says why.
fn main(rt: HostRuntime) {
    let mut file = [0u8; MAX_BYTES + 1];
    let mut out = [0u8; MAX_LISTED];
    let n = read_full(&mut rt.stdin(), &mut file);
    let r = list_page(&file[..n], &mut out);
    let _ = rt.stdout().write_all(&out[..r]);
}
