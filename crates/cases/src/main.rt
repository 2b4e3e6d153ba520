// Runs the whole calls that stand on standard input, the cases of docs/FORMAT.md and more of their kind (tools/make_cases.py).
#![tactic(auto)]

use reading::read_full;

// The most that the calls together can hold.
const TEXT_ROOM: usize = 65_536;

fn main(rt: HostRuntime) {
    let mut text = [0u8; TEXT_ROOM];
    let n = read_full(&mut rt.reader(), &mut text);
    calls::run(&rt, &text[..n]);
}
