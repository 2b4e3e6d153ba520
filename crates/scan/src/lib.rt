// The scan over the words of a bit source: its next run of picked slots, its next picked slot, and whether a range has one.
#![tactic(auto)]

ghost use Rattle.std.specs.Prelude.{◌≡◌, ◌+◌, ◌-◌, ◌*◌, ◌<◌, ◌≤◌};
ghost use Rattle.format.specs.Slots.{runs_from};
ghost use Rattle.slots.specs.Slot.{slot_in};
ghost use Rattle.std.specs.Iterator.{at_most};
ghost use Rattle.scan.specs.Asked.{Ones, Blank, Picked, any_in, first_run};
ghost use Rattle.scan.specs.Words.{NextWord, GivesWord};

use slots::Source;

// A word whose slots are all picked.
pub const ONES: u64 = u64::MAX;

// The word at which the words of ones from word `from` on end. The last two words are not looked at: they need not be whole.
pub fn ones_end(source: Source, from: usize) -> usize
    requires { 64 * from < source.bits.len }
    ensures { Ones (slot_in source.entry) from source.entry.bits.len result }
{
    let end = (source.bits.len / 64).saturating_sub(1).max(from);
    for w in from..end {
        if source.word_in(w) != ONES {
            return w;
        }
    }
    end
}

// Empty words are passed over in fours from every so many words on: a gap of a few words is done sooner one by one. Asked at each empty word, clustered masks of
// 10 % kept, with gaps of nine words, took .146 ns a row in place of .129 in a model of the loop in Rust, and those of 1 % .015 in place of .029.
pub const SPACING: usize = 16;

// The first word from `from` on that may have a picked slot: words of zeros are passed over four at a time. Wherever in a byte their value bits
// start, they stand in 33 bytes: where no bit is set there no slot is picked, whatever the validity says.
pub fn blank_end(source: Source, from: usize) -> usize
    requires { 64 * from ≤ source.bits.len + 64 }
    ensures { Blank (slot_in source.entry) from source.entry.bits.len result }
{
    let Source { bytes, bits } = source;
    let mut w = from;
    // A `step_by` would have to compute where it ended.
    while 64 * w + 320 <= bits.len {
        let j = bits.values_at + (bits.skip + 64 * w) / 8;
        let low = slots::load_in(bytes, j) | slots::load_in(bytes, j + 8);
        let high = slots::load_in(bytes, j + 16) | slots::load_in(bytes, j + 24);
        if low | high | slots::load_in(bytes, j + 25) != 0 {
            return w;
        }
        w += 4;
    }
    w
}

// The words of a source that have a picked slot, one after another: the first slot of each, and the word.
#[derive(Drop)]
pub struct PickedWords<'a> {
    source: Source<'a>,
    at: usize,
}

impl<'a> PickedWords<'a> {
    pub fn new(source: Source<'a>) -> PickedWords<'a>
        ensures source { result.source ≡ source.entry }
        ensures at { result.at ≡ 0 }
    {
        PickedWords { source, at: 0 }
    }
}

impl<'a> Iterator for PickedWords<'a> {
    type Item = (usize, u64);

    ghost can_next = { λ s. 64 * s.at ≤ s.source.bits.len + 64 };

    ghost next_gives = { GivesWord };

    ghost remaining = { λ s. at_most (s.source.bits.len - s.at) };

    // An empty word costs one test alone, and now and then one of what follows it. It is compiled into its callers' loops.
    #[inline(always)]
    fn next(&mut self) -> Option<(usize, u64)> {
        let mut w = self.at;
        // Empty stretches are passed at once: no plainer as a range.
        while 64 * w < self.source.bits.len {
            let base = 64 * w;
            let word = self.source.word(w);
            w += 1;
            if word != 0 {
                self.at = w;
                return Some((base, word));
            }
            if w % SPACING == 0 {
                w = blank_end(self.source, w);
            }
        }
        self.at = w;
        None
    }
}

// The next maximal run of picked slots at or after `from`, as its start and its end, [start, end).
pub fn next_run(source: Source, from: usize) -> Option<(usize, usize)>
    ensures { result ≡ first_run (runs_from (slot_in source.entry) (source.entry.bits.len - from) from) }
{
    let len = source.bits.len;
    if len <= from {
        return None;
    }
    let mut w = from / 64;
    // What is left of word w: its set bits at or after e.
    let mut x = source.word_after(from);
    // The run so far, [a, e); none yet where a is e. The specification names these two loops, left from inside (docs/DECISIONS.md, the table of forms).
    let mut a = from;
    let mut e = from;
    let end = 'words: loop {
        while x != 0 {
            let k = 64 * w + x.trailing_zeros() as usize;
            if a == e {
                a = k;
            } else if k != e {
                break 'words e;
            }
            e = k + 1;
            x = x & x.wrapping_sub(1);
        }
        w += 1;
        if len <= 64 * w {
            break e;
        }
        if a < e {
            if e < 64 * w {
                break e;
            }
            // The run goes on: whole words of it are passed at once.
            w = ones_end(source, w);
            e = 64 * w;
        }
        x = source.word(w);
    };
    (a < end).then_some((a, end))
}

// The first picked slot of [from, end). No word past end's is looked at.
pub fn next_row(source: Source, from: usize, end: usize) -> Option<usize>
    requires { end ≤ source.bits.len }
    ensures { Picked (slot_in source.entry) from end result }
{
    if end <= from {
        return None;
    }
    let mut w = from / 64;
    let mut x = source.word_after(from);
    // The first word is cut and the others are not, so no range has them all.
    while x == 0 {
        w += 1;
        if end <= 64 * w {
            return None;
        }
        x = source.word(w);
    }
    let k = 64 * w + x.trailing_zeros() as usize;
    (k < end).then_some(k)
}

// Whether any slot of [lo, hi) is picked.
pub fn any_picked(source: Source, lo: usize, hi: usize) -> bool
    ensures { result ≡ any_in (slot_in source.entry) lo hi }
{
    next_row(source, lo, hi.min(source.bits.len)).is_some()
}

// `any_within` of a range that may have more than 57 slots: one of fewer than 64 slots is one word, if it is not among the last.
#[inline(never)]
fn any_long(source: Source, lo: usize, hi: usize) -> bool
    requires { (lo ≤ hi) × (hi ≤ source.bits.len) }
    ensures { result ≡ any_in (slot_in source.entry) lo hi }
{
    if hi - lo < 64 && lo + 72 <= source.bits.len {
        return source.window_in(lo, hi - lo) != 0;
    }
    any_picked(source, lo, hi)
}

// Whether any slot of [lo, hi) is picked, where the range lies in the source. It is compiled into its callers' loops, which then call only for a range
// that one load of each bitmap does not have (`Source::window57_in`).
#[inline(always)]
pub fn any_within(source: Source, lo: usize, hi: usize) -> bool
    requires { (lo ≤ hi) × (hi ≤ source.bits.len) }
    ensures { result ≡ any_in (slot_in source.entry) lo hi }
{
    if (hi - lo <= 57) & (lo + 64 <= source.bits.len) {
        source.window57_in(lo, hi - lo) != 0
    } else {
        any_long(source, lo, hi)
    }
}
