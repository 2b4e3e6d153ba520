// Cases in text, one to a line: a name, then parts of words that give bytes. A part ends at | or at the line's end.
// Words: 12 is a number of four bytes, b12 one byte, *12 the forty bytes before it twelve times more.
#![tactic(auto)]

mod bytes;

ghost use Rattle.std.specs.Prelude.{◌≡◌, ◌≤◌, ◌<◌, length};
ghost use Rattle.case_text.specs.Places.{name_end, part_rest, line_rest};
ghost use Rattle.case_text.specs.Words.{Front, put_word, next_word, part_bytes, with_digit};
ghost use Rattle.case_text.specs.Filled.{Fills, FillsAt, FillsPart};

use bytes::Bytes;

// How many bytes a part gave, and the text behind it.
#[derive(Clone, Copy)]
pub struct Part<'a> {
    pub len: usize,
    pub rest: &'a [u8],
}

// What a word gives: a number of four bytes, one byte, or the forty bytes before it so many times more.
#[derive(Clone, Copy)]
enum WordKind {
    Number,
    Byte,
    Again,
}

// The word that is being read, and its number so far.
#[derive(Clone, Copy)]
struct Word {
    kind: WordKind,
    value: u32,
}

impl Word {
    // The word before its first digit.
    fn new(kind: WordKind) -> Word
        ensures { result ≡ record { kind = kind; value = 0 } }
    {
        Word { kind, value: 0 }
    }

    // A digit more.
    fn with_digit(self, digit: u32) -> Word
        ensures { result ≡ with_digit self digit }
    {
        Word {
            kind: self.kind,
            value: self.value.wrapping_mul(10).wrapping_add(digit),
        }
    }
}

// The word that was read, put behind the bytes so far.
fn put_word(bytes: &mut Bytes, word: Option<Word>)
    ensures same_reference { bytes.new.buffer.ghost_name ≡ bytes.old.buffer.ghost_name }
    ensures bytes { Fills bytes.old bytes.new put_word word }
{
    if let Some(Word { kind, value }) = word {
        match kind {
            WordKind::Number => bytes.put_number(value),
            WordKind::Byte => bytes.put_byte((value % 256) as u8),
            WordKind::Again => bytes.put_again(value),
        }
    }
}

// A byte of text: a digit more of a word, or what ends one and may begin another.
fn step(bytes: &mut Bytes, word: Option<Word>, c: u8) -> Option<Word>
    ensures same_reference { bytes.new.buffer.ghost_name ≡ bytes.old.buffer.ghost_name }
    ensures bytes { FillsAt bytes.old bytes.new word c }
    ensures word { result ≡ next_word word c }
{
    if c.is_ascii_digit() {
        let word = word.unwrap_or(Word::new(WordKind::Number));
        return Some(word.with_digit((c - b'0') as u32));
    }
    put_word(bytes, word);
    match c {
        b'b' => Some(Word::new(WordKind::Byte)),
        b'*' => Some(Word::new(WordKind::Again)),
        _ => None,
    }
}

// The words of the part that a text begins with, put behind the bytes so far; gives the text behind it.
fn put_part<'a>(bytes: &mut Bytes, text: &'a [u8]) -> &'a [u8]
    ensures same_reference { bytes.new.buffer.ghost_name ≡ bytes.old.buffer.ghost_name }
    ensures bytes { FillsPart bytes.old bytes.new text.now }
    ensures rest { result.now ≡ part_rest text.now }
{
    let mut word = None;
    let mut rest = text;
    while let Some((c, tail)) = rest.split_first() {
        rest = tail;
        word = step(bytes, word, *c);
        if (*c == b'|') | (*c == b'\n') {
            return rest;
        }
    }
    // The text's end ends a word as a line's does.
    put_word(bytes, word);
    rest
}

// The part that a text begins with: its bytes at the front of `buffer`, as far as there is room.
pub fn read_part<'a>(text: &'a [u8], buffer: &mut [u8]) -> Part<'a>
    ensures rest { result.rest.now ≡ part_rest text.now }
    ensures front { Front buffer.new result.len (part_bytes (length buffer.old) text.now) }
{
    let mut bytes = Bytes { buffer, len: 0 };
    let rest = put_part(&mut bytes, text);
    Part {
        len: bytes.len,
        rest,
    }
}

// The end of a name: the first space or line end.
pub fn name_end(text: &[u8]) -> usize
    ensures { (result ≡ name_end text.now) × (result ≤ length text.now) }
{
    text.iter()
        .position(|c| (*c == b' ') | (*c == b'\n'))
        .unwrap_or(text.len())
}

// The text behind the line's end.
pub fn next_line(text: &[u8]) -> &[u8]
    ensures rest { result.now ≡ line_rest text.now }
    ensures shorter { 0 < length text.now → length result.now < length text.now }
{
    match text.iter().position(|c| *c == b'\n') {
        Some(end) => &text[end + 1..],
        None => &[],
    }
}
