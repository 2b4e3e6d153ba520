// Runs the checker on packs that stand on standard input as text, one to a line, and prints each one's name and numbers: the one by
// which it is refused as a journal, and as a mask.
#![tactic(auto)]

ghost use Rattle.std.specs.Prelude.{◌<◌, length};

use format::Reason;
use reading::read_full;

// The most that a line can hold: a pack of 64 nodes, the most that there may be, has 2,576 bytes of table and trailer.
const PACK_ROOM: usize = 4096;

// The most that the cases together can hold.
const TEXT_ROOM: usize = 65_536;

// The number of a verdict: 0 where the pack is accepted.
fn number(verdict: Result<(), Reason>) -> u64 {
    verdict.map_or_else(u64::from, |()| 0)
}

// A pack's name and numbers. A write that fails is passed over: what is printed is held to stored lines.
fn report(rt: &impl Print, name: &[u8], pack: &[u8]) {
    let as_journal = number(checker::check(pack));
    let as_mask = number(checker::check_mask(pack));
    let _ = rt.write_all(name);
    let _ = println!(rt; " {as_journal} {as_mask}");
}

// The pack that a text begins with; gives the text behind it.
fn case<'a>(rt: &impl Print, text: &'a [u8]) -> &'a [u8]
    requires { 0 < length text.now }
    ensures { length result.now < length text.now }
{
    let mut room = [0u8; PACK_ROOM];
    let (name, words) = text.split_at(1 + case_text::name_end(&text[1..]));
    let part = case_text::read_part(words, &mut room);
    let len = part.len;
    report(rt, name, &room[..len]);
    part.rest
}

fn run(rt: &impl Print, text: &[u8]) {
    let mut rest = text;
    while let Some(_) = rest.first() {
        rest = case(rt, rest);
    }
}

fn main(rt: HostRuntime) {
    let mut text = [0u8; TEXT_ROOM];
    let n = read_full(&mut rt.reader(), &mut text);
    run(&rt, &text[..n]);
}
