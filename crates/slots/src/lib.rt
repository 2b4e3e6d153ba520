// Bit sources: packed bits with an optional validity bitmap in a lent slice of bytes, read by slot, by word and by window, and counted.
#![tactic(auto)]

ghost use Rattle.std.specs.Option.{ForSome};
ghost use Rattle.std.specs.Prelude.{not, ℕ, MatchOption, bit_and, ◌≡◌, ◌+◌, ◌*◌, ◌-◌, ◌/◌, ◌%◌, ◌^◌, ◌≤◌, ◌<◌, length, get_or};
ghost use Rattle.format.specs.Bytes.{bit_in, bit_at, chosen};
ghost use Rattle.format.specs.Slots.{after, word_from, picks_from};
ghost use Rattle.slots.specs.Source.{both_set, word_at, Lies, ByteWords};

use words::Number;

// Where a source's bits stand in a slice: places are in bytes, skip and len in slots. Where there is no validity bitmap no slot is null.
#[derive(Clone, Copy, PartialEq, Eq, Debug)]
pub struct Bits {
    pub values_at: usize,
    pub validity: Option<usize>,
    pub skip: usize,
    pub len: usize,
}

// A bit source: bytes, and where in them its bits stand.
#[derive(Clone, Copy)]
pub struct Source<'a> {
    pub bytes: &'a [u8],
    pub bits: Bits,
    pub ghost lies: { Lies bytes.now bits },
}

// Byte j of a slice, 0 past its end.
fn byte(s: &[u8], j: usize) -> u8
    ensures { result ≡ get_or s.now j 0 }
{
    s.get(j).copied().unwrap_or(0)
}

// Bit k of a slice, false past its end; bit 0 of a byte is first.
pub fn bit(s: &[u8], k: usize) -> bool
    ensures { result ≡ bit_in s.now k }
{
    (byte(s, k / 8) >> (k % 8)) % 2 == 1
}

// The eight bytes from byte j on, the first lowest, zeros past the end.
fn load(s: &[u8], j: usize) -> u64
    requires { j < 2 ^ 63 }
    ensures { result ≡ word_from (bit_in s.now) 64 (8 * j) }
{
    let mut x: u64 = 0;
    for t in (0..8).rev() {
        x = x * 256 + u64::from(byte(s, j + t));
    }
    x
}

// `load` where the eight bytes lie in the slice: one load, no test.
pub fn load_in(s: &[u8], j: usize) -> u64
    requires { j + 8 ≤ length s.now }
    ensures { result ≡ word_from (bit_in s.now) 64 (8 * j) }
{
    u64::get(s, j)
}

// The 64 bits from bit k on, low bit first, zeros past the end.
pub fn bits64(s: &[u8], k: usize) -> u64
    ensures { result ≡ word_from (bit_in s.now) 64 k }
{
    let j = k / 8;
    let r = k % 8;
    u64::from(byte(s, j)) >> r | load(s, j + 1) << (8 - r)
}

// `bits64` where the bits and the byte after them lie in the slice: a byte and a word, with no test.
pub fn bits64_in(s: &[u8], k: usize) -> u64
    requires { k / 8 + 9 ≤ length s.now }
    ensures { result ≡ word_from (bit_in s.now) 64 k }
{
    let j = k / 8;
    let r = k % 8;
    u64::from(s[j]) >> r | load_in(s, j + 1) << (8 - r)
}

// `bits64`, by `bits64_in` where that stays in the slice: one test, and bytes one by one at the slice's end alone.
pub fn load64(s: &[u8], k: usize) -> u64
    ensures { result ≡ word_from (bit_in s.now) 64 k }
{
    if k / 8 + 9 <= s.len() {
        return bits64_in(s, k);
    }
    bits64(s, k)
}

// The bits from bit k on that the word at its byte has, low bit first: 57 at least, for at most 7 of its 64 stand before k. One load, no test.
fn bits57_in(s: &[u8], k: usize) -> u64
    requires { k / 8 + 8 ≤ length s.now }
    ensures { result ≡ word_from (bit_in s.now) (64 - k % 8) k }
{
    load_in(s, k / 8) >> (k % 8)
}

impl<'a> Source<'a> {
    ghost use Rattle.slots.specs.Slot.{slot_in};

    // Whether slot i is picked: true and not null. There is none past the last.
    pub fn slot(self, i: usize) -> bool
        ensures { result ≡ slot_in self.entry i }
    {
        let b = self.bits;
        if b.len <= i {
            return false;
        }
        let k = b.skip + i;
        bit(self.bytes, 8 * b.values_at + k)
            && b.validity.is_none_or(|at| bit(self.bytes, 8 * at + k))
    }

    // The bits that `read` gives of the values' place, and that it gives of the validity bitmap's too where there is one.
    #[inline(always)]
    fn both<F: Fn(usize) -> u64>(self, read: F) -> u64
        requires values { F.pre read self.bits.values_at }
        requires validity { ForSome self.bits.validity (F.pre read) }
        ensures { (x : ℕ)
            × F.post read self.entry.bits.values_at x
            × MatchOption self.entry.bits.validity (result ≡ x) (λ at. (y : ℕ) × F.post read at y × (result ≡ bit_and x y)) }
    {
        let x = read(self.bits.values_at);
        match self.bits.validity {
            Some(at) => x & read(at),
            None => x,
        }
    }

    // The 64 slots from i on, low bit first; past the last slot, whatever bits stand there.
    fn both64(self, i: usize) -> u64
        requires { i ≤ self.bits.len }
        ensures { result ≡ word_from (both_set self.entry.bytes.now self.entry.bits) 64 i }
    {
        let k = self.bits.skip + i;
        self.both(|at| load64(self.bytes, 8 * at + k))
    }

    // The n slots from i on, low bit first, wherever they start.
    pub fn window(self, i: usize, n: usize) -> u64
        requires { (i + n ≤ self.bits.len) × (n ≤ 64) }
        ensures { result ≡ word_from (slot_in self.entry) n i }
    {
        let x = self.both64(i);
        if n < 64 { x % (1 << n) } else { x }
    }

    // `word` near the end of the slots, where its reads may leave the slice and its bits the last slot.
    #[inline(never)]
    fn last_word(self, w: usize) -> u64
        requires { 64 * w ≤ self.bits.len }
        ensures { result ≡ word_at self.entry.bytes.now self.entry.bits w }
    {
        self.window(64 * w, (self.bits.len - 64 * w).min(64))
    }

    // The 64 slots from i on, low bit first, where nine bytes from theirs on lie in the slice: with no test of a read.
    fn slots64_in(self, i: usize) -> u64
        requires { i + 72 ≤ self.bits.len }
        ensures { result ≡ word_from (slot_in self.entry) 64 i }
    {
        let k = self.bits.skip + i;
        self.both(|at| bits64_in(self.bytes, 8 * at + k))
    }

    // The slots from i on that the words at their bytes have: 57 at least.
    fn slots57_in(self, i: usize) -> u64
        requires { i + 64 ≤ self.bits.len }
        ensures { result ≡ word_from (slot_in self.entry) (64 - (self.entry.bits.skip + i) % 8) i }
    {
        let k = self.bits.skip + i;
        self.both(|at| bits57_in(self.bytes, 8 * at + k))
    }

    // `word` where another whole word follows, so that no read can leave the slice.
    #[inline(always)]
    pub fn word_in(self, w: usize) -> u64
        requires { 64 * w + 128 ≤ self.bits.len }
        ensures { result ≡ word_at self.entry.bytes.now self.entry.bits w }
    {
        self.slots64_in(64 * w)
    }

    // The n slots from i on, low bit first, wherever they start; also without a test of a read.
    pub fn window_in(self, i: usize, n: usize) -> u64
        requires { (i + 72 ≤ self.bits.len) × (n < 64) }
        ensures { result ≡ word_from (slot_in self.entry) n i }
    {
        self.slots64_in(i) % (1 << n)
    }

    // `window_in` for at most 57 slots: one load of each bitmap, not two.
    pub fn window57_in(self, i: usize, n: usize) -> u64
        requires { (i + 64 ≤ self.bits.len) × (n ≤ 57) }
        ensures { result ≡ word_from (slot_in self.entry) n i }
    {
        self.slots57_in(i) % (1 << n)
    }

    // Slots 64 w to 64 w + 63, low bit first, zero-filled past the last slot. It is compiled into its callers' loops, which then call only for
    // the last two words.
    #[inline(always)]
    pub fn word(self, w: usize) -> u64
        requires { 64 * w ≤ self.bits.len }
        ensures { result ≡ word_at self.entry.bytes.now self.entry.bits w }
    {
        if 64 * w + 128 <= self.bits.len {
            self.word_in(w)
        } else {
            self.last_word(w)
        }
    }

    // What is left of the word of slot `from`: its set bits at or after that slot.
    pub fn word_after(self, from: usize) -> u64
        requires { from ≤ self.bits.len }
        ensures { result ≡ word_from (after (slot_in self.entry) from) 64 (64 * (from / 64)) }
    {
        self.word(from / 64) >> (from % 64) << (from % 64)
    }

    // How many words of slots stand in eight bytes each: all that are whole, or none where slot 0 stands within a byte.
    fn byte_words(self) -> usize
        ensures { ByteWords self.entry.bits result }
    {
        if self.bits.skip % 8 == 0 {
            self.bits.len / 64
        } else {
            0
        }
    }

    // How many slots of the first n such words are picked. One load a word and bitmap, and no test but the loop's own, so that it runs on vectors:
    // .012 ns a bit, where words that may start within a byte take .038.
    fn count_words(self, n: usize) -> usize
        requires { ByteWords self.bits n }
        ensures { result ≡ length (picks_from (slot_in self.entry) (64 * n) 0) }
    {
        let first = self.bits.skip / 8;
        let mut set: usize = 0;
        for w in 0..n {
            let place = first + 8 * w;
            let x = self.both(|at| load_in(self.bytes, at + place));
            set += x.count_ones() as usize;
        }
        set
    }

    // How many slots are picked.
    pub fn count(self) -> usize
        ensures { result ≡ length (picks_from (slot_in self.entry) self.entry.bits.len 0) }
    {
        let whole = self.byte_words();
        let mut n = self.count_words(whole);
        for w in whole..self.bits.len.div_ceil(64) {
            n += self.word(w).count_ones() as usize;
        }
        n
    }
}

// How many of the rows from skip on a bitmap at a place marks null: all but those that it marks valid.
pub fn null_count(s: &[u8], at: usize, skip: usize, rows: usize) -> usize
    requires { (length s.now < 2 ^ 60) × (8 * at + (skip + rows) ≤ 8 * length s.now) }
    ensures { result ≡ length (chosen (λ k. not (bit_at s.now at (skip + k))) rows) }
{
    let marks = Source {
        bytes: s,
        bits: Bits {
            values_at: at,
            validity: None,
            skip,
            len: rows,
        },
    };
    rows - marks.count()
}
