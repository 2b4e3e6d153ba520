// Whole calls in text, one to a line: each is run, and of each are printed the answer, the extract in hexadecimal, the stored entries,
// the scratch that is zero, and whether all else that was lent is as it was.
// A line: a name, the mask, |, the journal, |, then six numbers: is a count stated, and which; is the list asked for, and how long is
// the lent one; the lengths of scratch and output. A line that begins with # is passed over.
#![tactic(auto)]

ghost use Rattle.std.specs.Prelude.{◌≤◌, ◌<◌, length};

use filter::filter;
use format::Answer;
use report::Line;
use std::array;

// What lent bytes and entries hold before a call. No entry is so large: it is a row number.
const BEFORE: u8 = 0xA5;

const BEFORE_ENTRY: u32 = 0xA5A5_A5A5;

// The most that a line can hold or lend: room for the longest stored case, and little, since all of it is set anew for each case.
const PACK_ROOM: usize = 4096;

const LIST_ROOM: usize = 256;

const SCRATCH_ROOM: usize = 64;

const OUTPUT_ROOM: usize = 4096;

// The six numbers of a line: what is said of a call, and how long what is lent to it is.
#[derive(Clone, Copy)]
struct Lent {
    stated: Option<u64>,
    asked: bool,
    list: u32,
    scratch: u32,
    output: u32,
}

impl Lent {
    // The numbers have four bytes each, low byte first.
    fn of(numbers: [u8; 24]) -> Lent {
        let [s, c, a, list, scratch, output] = array::from_fn::<u32, 6, _>(|k| {
            let at = 4 * k;
            u32::from_le_bytes([
                numbers[at],
                numbers[at + 1],
                numbers[at + 2],
                numbers[at + 3],
            ])
        });
        Lent {
            stated: (s != 0).then_some(u64::from(c)),
            asked: a != 0,
            list,
            scratch,
            output,
        }
    }
}

// A length that a line gives, but no more than there is.
fn at_most(x: u32, room: usize) -> usize
    ensures { result ≤ room }
{
    room.min(x as usize)
}

// The bytes in hexadecimal, a space before every four. A write that fails is passed over: what is printed is held to stored answers.
fn say_extract(rt: &impl Print, bytes: &[u8]) {
    let _ = print!(rt; "  extract");
    for four in bytes.chunks(4) {
        let _ = print!(rt; " ");
        for byte in four {
            let _ = print!(rt; "{byte:02x}");
        }
    }
    let _ = println!(rt; "");
}

fn say_list(rt: &impl Print, list: &[u32]) {
    let _ = print!(rt; "  list");
    for entry in list {
        let _ = print!(rt; " {entry}");
    }
    let _ = println!(rt; "");
}

// How many entries at the front of a list were stored.
fn stored(list: &[u32]) -> usize
    ensures { result ≤ length list.now }
{
    list.iter()
        .take_while(|entry| **entry != BEFORE_ENTRY)
        .count()
}

// The stored entries, where a list was asked for; gives how many. `asked` is one of the line's numbers, and stands beside the list as in `filter::filter`.
fn say_stored(rt: &impl Print, asked: bool, list: &[u32]) -> usize {
    if asked {
        let n = stored(list);
        say_list(rt, &list[..n]);
        return n;
    }
    0
}

// How many bytes at the front of the scratch are zero.
fn cleared(scratch: &[u8]) -> usize
    ensures { result ≤ length scratch.now }
{
    scratch.iter().take_while(|byte| **byte == 0).count()
}

// All bytes from a place on are as they were before the call.
fn bytes_kept(bytes: &[u8], from: usize) -> bool {
    bytes.iter().skip(from).all(|byte| *byte == BEFORE)
}

fn entries_kept(list: &[u32], from: usize) -> bool {
    list.iter().skip(from).all(|entry| *entry == BEFORE_ENTRY)
}

// Whether list, scratch and output are as they were, each from a place on.
fn say_rest(
    rt: &impl Print,
    list: &[u32],
    entries: usize,
    scratch: &[u8],
    zeros: usize,
    output: &[u8],
    size: usize,
) {
    let list_kept = entries_kept(list, entries);
    let scratch_kept = bytes_kept(scratch, zeros);
    let output_kept = bytes_kept(output, size);
    let rest = if list_kept & scratch_kept & output_kept {
        "rest kept"
    } else {
        "REST CHANGED"
    };
    let _ = println!(rt; "  {rest}");
}

// What a call left that was not refused.
fn say_done(rt: &impl Print, bytes: u64, asked: bool, list: &[u32], scratch: &[u8], output: &[u8]) {
    let size = bytes.min(output.len() as u64) as usize;
    if size as u64 != bytes {
        let _ = println!(rt; "  EXTRACT PAST THE OUTPUT");
    }
    say_extract(rt, &output[..size]);
    let entries = say_stored(rt, asked, list);
    let zeros = cleared(scratch);
    let _ = println!(rt; "  scratch zero {zeros}");
    say_rest(rt, list, entries, scratch, zeros, output, size);
}

fn say_answer(rt: &impl Print, answer: Answer) {
    let _ = rt.print(Line(answer));
}

fn call(
    rt: &impl Print,
    mask: &[u8],
    journal: &[u8],
    lent: Lent,
    list: &mut [u32],
    scratch: &mut [u8],
    output: &mut [u8],
) {
    let Lent { stated, asked, .. } = lent;
    let answer = filter(mask, journal, stated, asked, list, scratch, output);
    say_answer(rt, answer);
    match answer {
        Ok(done) => say_done(rt, done.bytes, asked, list, scratch, output),
        Err(_) => say_rest(rt, list, 0, scratch, 0, output, 0),
    }
}

// A call with buffers as long as the line says.
fn lend(rt: &impl Print, mask: &[u8], journal: &[u8], lent: Lent) {
    let mut list = [BEFORE_ENTRY; LIST_ROOM];
    let mut scratch = [BEFORE; SCRATCH_ROOM];
    let mut output = [BEFORE; OUTPUT_ROOM];
    let places = at_most(lent.list, LIST_ROOM);
    let need = at_most(lent.scratch, SCRATCH_ROOM);
    let room = at_most(lent.output, OUTPUT_ROOM);
    call(
        rt,
        mask,
        journal,
        lent,
        &mut list[..places],
        &mut scratch[..need],
        &mut output[..room],
    );
}

// The case of a line; gives the text behind it.
fn case<'a>(rt: &impl Print, text: &'a [u8]) -> &'a [u8]
    requires { 0 < length text.now }
    ensures { length result.now < length text.now }
{
    let mut mask = [0u8; PACK_ROOM];
    let mut journal = [0u8; PACK_ROOM];
    let mut numbers = [0u8; 24];
    let (name, rest) = text.split_at(1 + case_text::name_end(&text[1..]));
    let _ = rt.write_all(name);
    let _ = print!(rt; ": ");
    let m = case_text::read_part(rest, &mut mask);
    let j = case_text::read_part(m.rest, &mut journal);
    let n = case_text::read_part(j.rest, &mut numbers);
    let m_len = m.len;
    let j_len = j.len;
    lend(rt, &mask[..m_len], &journal[..j_len], Lent::of(numbers));
    n.rest
}

// Every call of a text. Nothing can be promised, since it only prints and the contract of a write says nothing of what is written: what it prints is
// held to stored answers.
pub fn run(rt: &impl Print, text: &[u8]) {
    let mut rest = text;
    while let Some(c) = rest.first() {
        rest = if (*c == b'#') | (*c == b'\n') {
            case_text::next_line(rest)
        } else {
            case(rt, rest)
        };
    }
}
