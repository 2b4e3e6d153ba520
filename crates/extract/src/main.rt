// The program `extract`: mask.pack and journal.pack of the working directory in, out.pack and one line out (docs/FORMAT.md, 10).
#![tactic(auto)]

ghost use Rattle.std.specs.Prelude.{◌≤◌, length, IfOk};

use format::Answer;
use reading::read_full;
use report::Line;
use std::io::Read;
use std::rt::Files;
use std::{fs, io};

// A file may have so many bytes; one more is read, to see that there are more.
const FILE_LIMIT: usize = 16_384;

const FILE_ROOM: usize = 16_385;

// Lent to the filter, as docs/FORMAT.md says (10).
const OUTPUT_ROOM: usize = 32_768;

const SCRATCH_ROOM: usize = 16_384;

// The bytes of a file, as many as `into` holds, at its front; gives how many.
fn load(rt: &impl Files, path: &str, into: &mut [u8]) -> io::Result<usize>
    ensures { IfOk result (λ n. n ≤ length into.old) }
{
    let mut file = fs::open(rt, path)?;
    let n = read_full(&mut file, into);
    // `read_full` stops at the end and at an error alike: one more read tells which
    file.read(&mut [0u8; 1])?;
    Ok(n)
}

// The line of an answer, on standard output. A write that fails is passed over.
fn say(rt: &impl Print, answer: Answer) {
    let _ = rt.print(Line(answer));
}

// One call with no list and no stated count: the extract into out.pack if it is not refused, and the line.
fn run(rt: &(impl Files + Print + Eprint), mask: &[u8], journal: &[u8]) {
    let mut scratch = [0u8; SCRATCH_ROOM];
    let mut output = [0u8; OUTPUT_ROOM];
    let answer = filter::filter(
        mask,
        journal,
        None,
        false,
        &mut [],
        &mut scratch,
        &mut output,
    );
    if let Ok(done) = answer {
        let size = done.bytes as usize;
        if let Err(error) = fs::write(rt, "out.pack", &output[..size]) {
            let _ = eprintln!(rt; "out.pack: {error}");
            return;
        }
    }
    say(rt, answer);
}

// A file that cannot be read counts as empty.
fn main(rt: HostRuntime) {
    let mut mask = [0u8; FILE_ROOM];
    let mut journal = [0u8; FILE_ROOM];
    let m = load(&rt, "mask.pack", &mut mask).unwrap_or(0);
    let j = load(&rt, "journal.pack", &mut journal).unwrap_or(0);
    if m > FILE_LIMIT || j > FILE_LIMIT {
        let _ = println!(rt; "too large");
        return;
    }
    run(&rt, &mask[..m], &journal[..j]);
}
