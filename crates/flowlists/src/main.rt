// Framed texts on standard input (a row with the byte count, then the bytes);
// for each its graph or its refusal, framed in the same way.
#![tactic(auto)]

use at_limits::list::list_text;
use filling::read_full;
use printing::list::MAX_PRINTED;
use std::io::{Read, Write};

// Room for the longest text that a test has.
const MAX_TEXT: usize = 131072;

// One byte of the input, while there is one.
fn next_byte(input: &mut impl Read) -> Option<u8> {
    let mut byte = [0u8; 1];
    if read_full(input, &mut byte) == 0 {
        return None;
    }
    Some(byte[0])
}

// The row before a text: its byte count.
// Kept: a byte is a digit, whatever it is; `parse` would refuse what is none, and what this program makes of a row stays.
fn next_length(input: &mut impl Read) -> Option<usize> {
    let mut n: usize = 0;
    for _ in 0..9 {
        let b = next_byte(input)?;
        if b == b'\n' {
            return Some(n);
        }
        n = n % 10000000 * 10 + usize::from(b % 48);
    }
    None
}

// The answer behind a row with its byte count.
fn print_framed(output: &mut impl Write, answer: &[u8]) {
    let _ = writeln!(output, "{}", answer.len());
    let _ = output.write_all(answer);
}

// A text of n bytes; nothing where it is longer than any that a test has.
fn answer_text(input: &mut impl Read, output: &mut impl Write, n: usize) {
    let mut text = [0u8; MAX_TEXT];
    let mut out = [0u8; MAX_PRINTED];
    let Some(part) = text.get_mut(..n) else {
        return;
    };
    read_full(input, part);
    let listed = list_text(part, &mut out);
    print_framed(output, &out[..listed.len]);
}

// Kept: a range and no `loop`, as flowcheck's compare_file: up to a number that no run comes to.
fn main(rt: HostRuntime) {
    let mut input = rt.stdin();
    let mut output = rt.stdout();
    for _ in 0..u64::MAX {
        let Some(n) = next_length(&mut input) else {
            return;
        };
        answer_text(&mut input, &mut output, n);
    }
}
