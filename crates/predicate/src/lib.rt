// From a mask's bits to the rows that every column filter takes: the selection, and blocks of kept rows.
#![tactic(auto)]

ghost use Rattle.std.specs.Prelude.{◌≡◌, ◌+◌, ◌-◌, ◌*◌, ◌/◌, ◌^◌, ◌<◌, ◌≤◌, [], length, get_or, drop, MatchOption, None};
ghost use Rattle.std.specs.Iterator.{at_most};
ghost use Rattle.std.specs.Option.{ForSome};
ghost use Rattle.slots.specs.Slot.{slot_in};
ghost use Rattle.predicate.specs.Entries.{entries_on};
ghost use Rattle.predicate.specs.Selection.{Selects, reach};
ghost use Rattle.predicate.specs.Blocks.{picks_on, Begun, GoesOn, InStep, Worded, GivesNext, Found, Filled, NextRun, starts_long, as_runs};

pub mod stored;
#[cfg(test)]
mod tests;

use format::Route;
use slots::Source;
use stored::{StoredRows, StoredRuns};

// Which rows are kept: none, all of so many, or those that a source picks, by its words or by a stored list.
#[derive(Clone, Copy)]
pub enum Selection<'a> {
    Nothing,
    Everything(usize),
    Words(Source<'a>),
    Runs(StoredRuns<'a>),
    Rows(StoredRows<'a>),
}

// Kept rows that stand next to each other in a selection: a run [a, e); the rows base + k for the set bits k of a word; or those of a list.
#[derive(Clone, Copy)]
pub enum Block<'a> {
    Run(usize, usize),
    Word(usize, u64),
    Listed(&'a [u32]),
}

// The blocks of a selection, one after another: rows below `place` are done, and entries below `index` of a stored list. A column that takes the source's
// own words or runs moves `place` on by itself.
#[derive(Drop)]
pub struct Blocks<'a> {
    pub sel: Selection<'a>,
    pub place: usize,
    // The list itself stays as it is, since the selection's fact is of all of it.
    pub index: usize,
}

// What is left of one of the mask's last two words: its reads may leave the slice, and its bits the last slot.
fn last_block<'a>(source: Source<'a>, place: usize) -> (Block<'a>, usize)
    requires { place < source.bits.len }
    ensures { Worded (slot_in source.entry) source.entry.bits.len place result }
{
    let base = 64 * (place / 64);
    let x = source.word_after(place);
    (Block::Word(base, x), source.bits.len.min(base + 64))
}

// Where the kept rows end that start with word `from`: at the first row that is not kept, or before the last two words.
fn run_end(source: Source, from: usize) -> usize
    requires { 64 * from < source.bits.len }
    ensures { Filled (slot_in source.entry) (64 * from) source.entry.bits.len result }
{
    let len = source.bits.len;
    let w = scan::ones_end(source, from);
    if len < 64 * w + 128 {
        return 64 * w;
    }
    64 * w + u64::trailing_zeros(scan::ONES - source.word_in(w)) as usize
}

// Whether a word has at most two set bits. Nothing is promised: it chooses between two right answers.
fn few(y: u64) -> bool {
    let z = y & y.wrapping_sub(1);
    z & z.wrapping_sub(1) == 0
}

// Whether a word starts with 16 set bits: a run that is worth a copy of its own.
fn long(x: u64) -> bool
    ensures { result ≡ starts_long x }
{
    x % 0x1_0000 == 0xFFFF
}

// Whether a whole word starts or ends with 16 set bits, so that its rows go better as runs: a column that takes the mask's words itself asks for
// a block there, and `word_block` decides. A count of the zeros, as `word_block` makes it, would cost five times as much, at every word of a
// scattered mask.
pub fn as_runs(x: u64) -> bool
    ensures { result ≡ as_runs x }
{
    long(x) | (x >> 48 == 0xFFFF)
}

// The rows of word w from its first kept row on, x being what is left of that word: as a run, which may go on in later words, where at most
// two rows after the first are not kept. Measured at random masks: against a limit of one, two take up to .08 ns a row more of native columns
// at 93 to 95 % kept, .04 at 97 % and nothing at 99 %, but 1.3 to 1.9 ns less of texts at 95 to 97 %. In a model of the loops in Rust, four
// took .1 to .3 more than two of native columns at 90 to 95 %, and gained nothing above.
fn word_block<'a>(source: Source<'a>, place: usize, w: usize, x: u64) -> (Block<'a>, usize)
    requires { (64 * w + 128 ≤ source.bits.len) × Found (slot_in source) place w x }
    ensures { Worded (slot_in source.entry) source.entry.bits.len place result }
{
    let base = 64 * w;
    let t = u64::trailing_zeros(x) as usize;
    let y = (scan::ONES - x) >> t << t;
    if !(few(y) | long(x)) {
        return (Block::Word(base, x), base + 64);
    }
    let e = if y == 0 {
        run_end(source, w + 1)
    } else {
        base + u64::trailing_zeros(y) as usize
    };
    (Block::Run(base + t, e), e)
}

// The run of kept rows that starts next in the word of `place`, which may go on in later words; none where that word has no row left. For a column
// that takes runs itself.
pub fn run_from(source: Source, place: usize) -> Option<(usize, usize)>
    requires { 64 * (place / 64) + 128 ≤ source.bits.len }
    ensures { NextRun (slot_in source.entry) source.entry.bits.len place result }
{
    let w = place / 64;
    let x = source.word_in(w) >> (place % 64) << (place % 64);
    if x == 0 {
        return None;
    }
    let base = 64 * w;
    let t = u64::trailing_zeros(x) as usize;
    let y = (scan::ONES - x) >> t << t;
    if y == 0 {
        return Some((base + t, run_end(source, w + 1)));
    }
    Some((base + t, base + u64::trailing_zeros(y) as usize))
}

// The rows kept next, by the source alone: from the word of `place` on, words of zeros are passed over, many of them in fours.
#[inline(always)]
fn next_word<'a>(source: Source<'a>, place: usize) -> Option<(Block<'a>, usize)>
    ensures { MatchOption result (picks_on (slot_in source.entry) source.entry.bits.len place ≡ []) (Worded (slot_in source.entry) source.entry.bits.len place) }
{
    let len = source.bits.len;
    if len <= place {
        return None;
    }
    let mut w = place / 64;
    if len < 64 * w + 128 {
        return Some(last_block(source, place));
    }
    let mut x = source.word_in(w) >> (place % 64) << (place % 64);
    // No `for`: behind an empty word w may move on past many.
    while x == 0 {
        w = if (w + 1) % scan::SPACING == 0 {
            scan::blank_end(source, w + 1)
        } else {
            w + 1
        };
        if len < 64 * w + 128 {
            return Some(last_block(source, 64 * w));
        }
        x = source.word_in(w);
    }
    Some(word_block(source, place, w, x))
}

// The run whose start and end stand at `index` of a list, which is no longer than memory.
fn run_at(ends: &[u32], index: usize) -> (usize, usize)
    requires { index + 1 < length ends.now }
    ensures run { result ≡ (get_or ends.now index 0, get_or ends.now (index + 1) 0) }
    ensures fits { length ends.now < 2 ^ 63 }
{
    (ends[index] as usize, ends[index + 1] as usize)
}

// The rows of a list from `index` on.
fn rows_from<'a>(rows: &'a [u32], index: usize) -> &'a [u32]
    requires { index ≤ length rows.now }
    ensures { result.now ≡ drop index rows.now }
{
    &rows[index..]
}

impl<'a> Blocks<'a> {
    pub fn new(sel: Selection<'a>) -> Blocks<'a>
        ensures begun { Begun sel.entry result }
        ensures in_step { InStep result }
        ensures goes_on { GoesOn result }
    {
        Blocks {
            sel,
            place: 0,
            index: 0,
        }
    }
}

impl<'a> Iterator for Blocks<'a> {
    type Item = Block<'a>;

    ghost can_next = { GoesOn };

    ghost next_gives = { GivesNext };

    ghost remaining = { λ s. at_most (reach s.sel - s.place) };

    // The next block of kept rows, whatever the selection: the one place that looks at it. It and `next_word` are compiled into
    // their callers' loops: as calls, native columns take up to 23 % longer under random masks and 40 % under clustered ones.
    #[inline(always)]
    fn next(&mut self) -> Option<Block<'a>> {
        match self.sel {
            Selection::Nothing => None,
            Selection::Everything(n) => {
                if n <= self.place {
                    return None;
                }
                let a = self.place;
                self.place = n;
                Some(Block::Run(a, n))
            }
            Selection::Words(source) => {
                let (block, next) = next_word(source, self.place)?;
                self.place = next;
                Some(block)
            }
            Selection::Runs(stored) => {
                if stored.ends.len() <= self.index {
                    return None;
                }
                let (a, e) = run_at(stored.ends, self.index);
                self.place = e;
                self.index += 2;
                Some(Block::Run(a, e))
            }
            Selection::Rows(stored) => {
                if stored.rows.len() <= self.index {
                    return None;
                }
                let rows = rows_from(stored.rows, self.index);
                self.place = stored.bits.len;
                self.index = stored.rows.len();
                Some(Block::Listed(rows))
            }
        }
    }
}

// The selection of a route over a source's slots, by the source's words.
pub fn selection_by_words<'a>(route: Route, source: Source<'a>) -> Selection<'a>
    ensures { Selects route source.entry None result }
{
    match route {
        Route::None => Selection::Nothing,
        Route::All => Selection::Everything(source.bits.len),
        Route::Slices | Route::Indices => Selection::Words(source),
    }
}

// The same, or by the route's entries where a list holds them, all of them and no more.
pub fn selection_of<'a>(route: Route, source: Source<'a>, list: Option<&'a [u32]>) -> Selection<'a>
    requires stored { ForSome list (λ xs. xs.now ≡ entries_on route (slot_in source) source.bits.len) }
    ensures { Selects route source.entry list.entry result }
{
    let Some(list) = list else {
        return selection_by_words(route, source);
    };
    let Source { bytes, bits, .. } = source;
    match route {
        // No list is looked at.
        Route::None | Route::All => selection_by_words(route, source),
        Route::Slices => Selection::Runs(StoredRuns {
            bytes,
            bits,
            ends: list,
        }),
        Route::Indices => Selection::Rows(StoredRows {
            bytes,
            bits,
            rows: list,
        }),
    }
}
