// Numbers and entries as they stand in bytes: each is one load or one store. And the lowest run of a word's set bits.
#![tactic(auto)]

ghost use Rattle.std.specs.Prelude.{ℕ, ◌≡◌, ◌+◌, ◌^◌, ◌%◌, ◌-◌, ◌<◌, ◌≤◌, length};
ghost use Rattle.format.specs.Put.{Wrote};
ghost use Rattle.format.specs.Bytes.{le, to_le, bytes_at};
ghost use Rattle.std.specs.Iterator.{YieldsFirst, item_count, at_most};
ghost use Rattle.format.specs.Rows.{set_rows, Below};
ghost use Rattle.words.specs.Run.{LowestRun, TakesRun};
ghost use Rattle.words.specs.Width.{IsWidth, width_1, width_2, width_4, width_8};

// N bytes of a slice from a place on.
pub fn array_at<const N: usize>(s: &[u8], at: usize) -> [u8; N]
    requires { at + N ≤ length s.now }
    ensures { result ≡ bytes_at s.now at N }
{
    let mut bytes = [0u8; N];
    bytes.copy_from_slice(&s[at..at + N]);
    bytes
}

// N bytes at a place of a slice.
pub fn put_array<const N: usize>(out: &mut [u8], at: usize, bytes: [u8; N]) -> usize
    requires { at + N ≤ length out.old }
    ensures { Wrote out.old at bytes.entry out.new result }
{
    out[at..at + N].copy_from_slice(&bytes);
    at + N
}

// N bytes of src to a place. All are read before any is written, so that they are one load and one store. 32 bytes are two of each, and go as halves:
// as one array the second half is stored first, and where stores cross cache lines a long copy takes up to 1.7 times as long.
pub fn move_bytes<const N: usize>(out: &mut [u8], at: usize, src: &[u8], from: usize) -> usize
    requires { (at + N ≤ length out.old) × (from + N ≤ length src.now) }
    ensures { Wrote out.old at (bytes_at src.now from N) out.new result }
{
    if N == 32 {
        let half = put_array(out, at, array_at::<16>(src, from));
        return put_array(out, half, array_at::<16>(src, from + 16));
    }
    put_array(out, at, array_at::<N>(src, from))
}

// A number that stands in WIDTH bytes, low byte first.
pub trait Number: Copy {
    ghost WIDTH: { ℕ };

    ghost value: { Self → ℕ };

    const WIDTH: usize;

    // The number at a place; its bytes are those that stand there.
    fn get(s: &[u8], at: usize) -> Self
        requires { at + WIDTH ≤ length s.now }
        ensures value { value result ≡ le WIDTH s.now at }
        ensures bytes { to_le WIDTH (value result) ≡ bytes_at s.now at WIDTH };

    // The number at a place of a slice; the next place.
    fn put(self, out: &mut [u8], at: usize) -> usize
        requires { at + WIDTH ≤ length out.old }
        ensures { Wrote out.old at (to_le WIDTH (value self)) out.new result };

    // The number among those of 8 bytes, and what of such a number fits.
    fn wide(self) -> u64
        ensures { result ≡ value self };

    fn low(x: u64) -> Self
        ensures { value result ≡ x % 256 ^ WIDTH };

    ghost width: { IsWidth WIDTH };
}

impl Number for u8 {
    ghost WIDTH = { 1 };

    ghost value = { λ x. x };

    const WIDTH: usize = 1;

    fn get(s: &[u8], at: usize) -> u8 {
        s[at]
    }

    fn put(self, out: &mut [u8], at: usize) -> usize {
        put_array(out, at, [self])
    }

    fn wide(self) -> u64 {
        u64::from(self)
    }

    fn low(x: u64) -> u8 {
        (x % 0x100) as u8
    }

    ghost width = { width_1 };
}

impl Number for u16 {
    ghost WIDTH = { 2 };

    ghost value = { λ x. x };

    const WIDTH: usize = 2;

    fn get(s: &[u8], at: usize) -> u16 {
        u16::from_le_bytes(array_at(s, at))
    }

    fn put(self, out: &mut [u8], at: usize) -> usize {
        put_array(out, at, self.to_le_bytes())
    }

    fn wide(self) -> u64 {
        u64::from(self)
    }

    fn low(x: u64) -> u16 {
        (x % 0x1_0000) as u16
    }

    ghost width = { width_2 };
}

impl Number for u32 {
    ghost WIDTH = { 4 };

    ghost value = { λ x. x };

    const WIDTH: usize = 4;

    fn get(s: &[u8], at: usize) -> u32 {
        u32::from_le_bytes(array_at(s, at))
    }

    fn put(self, out: &mut [u8], at: usize) -> usize {
        put_array(out, at, self.to_le_bytes())
    }

    fn wide(self) -> u64 {
        u64::from(self)
    }

    fn low(x: u64) -> u32 {
        (x % 0x1_0000_0000) as u32
    }

    ghost width = { width_4 };
}

impl Number for u64 {
    ghost WIDTH = { 8 };

    ghost value = { λ x. x };

    const WIDTH: usize = 8;

    fn get(s: &[u8], at: usize) -> u64 {
        u64::from_le_bytes(array_at(s, at))
    }

    fn put(self, out: &mut [u8], at: usize) -> usize {
        put_array(out, at, self.to_le_bytes())
    }

    fn wide(self) -> u64 {
        self
    }

    fn low(x: u64) -> u64 {
        x
    }

    ghost width = { width_8 };
}

// The number of so many bytes at a place, where the width is known only as the code runs.
pub fn read_number(s: &[u8], at: usize, width: usize) -> u64
    requires is_width { IsWidth width }
    requires inside { at + width ≤ length s.now }
    ensures { result ≡ le width s.now at }
{
    // What is chosen is a type, so that no closure can stand for it; a `dyn` would be called for each number.
    match width {
        1 => u8::get(s, at).wide(),
        2 => u16::get(s, at).wide(),
        4 => u32::get(s, at).wide(),
        _ => u64::get(s, at),
    }
}

// A number in so many bytes at a place of a slice; only the bytes that fit are written.
pub fn put_number(out: &mut [u8], at: usize, x: u64, width: usize) -> usize
    requires is_width { IsWidth width }
    requires inside { at + width ≤ length out.old }
    ensures { Wrote out.old at (to_le width x) out.new result }
{
    // What is chosen is a type, so that no closure can stand for it; a `dyn` would be called for each number.
    match width {
        1 => u8::low(x).put(out, at),
        2 => u16::low(x).put(out, at),
        4 => u32::low(x).put(out, at),
        _ => x.put(out, at),
    }
}

// The rows base + k for the set bits k of a word, rising.
#[derive(Drop)]
pub struct SetRows {
    base: usize,
    rest: u64,
}

impl SetRows {
    pub fn new(base: usize, word: u64) -> SetRows
        ensures base { result.base ≡ base }
        ensures rest { result.rest ≡ word }
    {
        SetRows { base, rest: word }
    }
}

impl Iterator for SetRows {
    type Item = usize;

    // Each row, and the one behind it, is a number.
    ghost can_next = { λ s. Below (2 ^ 64 - 1) (set_rows s.base s.rest) };

    ghost next_gives = { YieldsFirst (λ s. set_rows s.base s.rest) };

    ghost remaining = { item_count (λ s. set_rows s.base s.rest) };

    fn next(&mut self) -> Option<usize> {
        if self.rest == 0 {
            return None;
        }
        let row = self.base + self.rest.trailing_zeros() as usize;
        self.rest = self.rest & self.rest.wrapping_sub(1);
        Some(row)
    }
}

// The lowest run of rows base + k for the set bits k of a word, rows `from` up to `to`, and the word without it.
#[derive(Clone, Copy)]
pub struct LowRun {
    pub from: usize,
    pub to: usize,
    pub rest: u64,
}

// Taken off by a carry: the lowest bit added clears its run and sets the bit above it.
pub fn lowest_run(base: usize, word: u64) -> LowRun
    requires set { 0 < word }
    requires fits { Below (2 ^ 64 - 1) (set_rows base word) }
    ensures { LowestRun base word result.from result.to result.rest }
{
    let others = word & word.wrapping_sub(1);
    let carried = word.wrapping_add(word - others);
    LowRun {
        from: base + word.trailing_zeros() as usize,
        to: base + carried.trailing_zeros() as usize,
        rest: word & carried,
    }
}

// The runs of rows base + k for the set bits k of a word, rising: first row, and the row behind the last.
#[derive(Drop)]
pub struct RowRuns {
    base: usize,
    rest: u64,
}

impl RowRuns {
    pub fn new(base: usize, word: u64) -> RowRuns
        ensures base { result.base ≡ base }
        ensures rest { result.rest ≡ word }
    {
        RowRuns { base, rest: word }
    }
}

impl Iterator for RowRuns {
    type Item = (usize, usize);

    ghost can_next = { λ s. Below (2 ^ 64 - 1) (set_rows s.base s.rest) };

    ghost next_gives = { λ s r t. TakesRun s.base s.rest r t.base t.rest };

    ghost remaining = { λ s. at_most s.rest };

    fn next(&mut self) -> Option<(usize, usize)> {
        if self.rest == 0 {
            return None;
        }
        let run = lowest_run(self.base, self.rest);
        self.rest = run.rest;
        Some((run.from, run.to))
    }
}
