// What the programs read with, over std's `Read`.
#![tactic(auto)]

ghost use Rattle.std.specs.Prelude.{take};
ghost use Rattle.std.specs.Counts.{IsPrefixLen};
ghost use Rattle.std.specs.Io.KnownBytes.{Consumes};

use std::io::Read;

// Kept: what four programs do (read, call, write what was answered) stands in each: one function of it, with the call
// as a closure and both lengths as const parameters, was tried: no bound `FnOnce` may name a const parameter yet,
// and what is called takes an array of the length that it promises to fill no further.

// Reads until `buf` is full, the input ends or a read fails: so many bytes of the input stand at the front of `buf`.
// Kept: `while`; std's `read_exact` tells no count where the input is shorter, `read_to_end` wants a heap,
// and `bytes` reads one byte a call.
pub fn read_full<R: Read>(input: &mut R, buf: &mut [u8]) -> usize
    ensures inside { IsPrefixLen result buf.new }
    ensures bytes { Consumes (R.remaining input.old) (R.remaining input.new) (take result buf.new) }
{
    let mut done = 0;
    while done < buf.len() {
        match input.read(&mut buf[done..]) {
            Ok(n) if n > 0 => done += n,
            _ => break,
        }
    }
    done
}
