// Runs the whole calls that stand on standard input: a sample of those that the test host compares (host/src/replay.rs).
#![tactic(auto)]

use reading::read_full;

// The most that the calls together can hold.
const TEXT_ROOM: usize = 262_144;

fn main(rt: HostRuntime) {
    let mut text = [0u8; TEXT_ROOM];
    let n = read_full(&mut rt.reader(), &mut text);
    calls::run(&rt, &text[..n]);
}
