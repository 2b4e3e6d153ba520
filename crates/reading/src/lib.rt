// Bytes of an input into a buffer that is lent.
#![tactic(auto)]

ghost use Rattle.std.specs.Prelude.{◌≤◌, length, take};
ghost use Rattle.std.specs.Io.KnownBytes.{Consumes};

use std::io::Read;

// Reads until the buffer is full, the input ends or a read fails, and gives how many bytes stand at the buffer's front: what the input had next, no
// byte lost.
pub fn read_full<R: Read>(input: &mut R, into: &mut [u8]) -> usize
    ensures within { result ≤ length into.new }
    ensures bytes { Consumes (R.remaining input.old) (R.remaining input.new) (take result into.new) }
{
    let mut done = 0;
    // The library's `read_exact` does not say how much a short input had.
    while done < into.len() {
        match input.read(&mut into[done..]) {
            Ok(0) | Err(_) => break,
            Ok(more) => done += more,
        }
    }
    done
}
