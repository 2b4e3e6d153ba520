// Entries of kept rows taken straight from the mask, between two blocks of a selection. Asking for a block costs as much as the rows of a scattered
// word, or a run of a hundred bytes; so after a block that was a word the words behind it are taken here, and after a run the runs.
ghost use Rattle.std.specs.Prelude.{◌+◌, ◌*◌, ◌≤◌, length};
ghost use Rattle.slots.specs.Slot.{slot_in};
ghost use Rattle.predicate.specs.Selection.{reach};
ghost use Rattle.predicate.specs.Blocks.{Inside, rows_left};
ghost use Rattle.append.specs.Cells.{Entries};
ghost use Rattle.gather.specs.Column.{entries_in};
ghost use Rattle.columns.specs.Words.{Ahead, Passed};

use gather::Column;
use predicate::{Blocks, Selection};
use slots::Source;

// So many words of the mask are read before the entries of their rows are copied. Each of the two loops then has few enough values for the
// registers, and little stands between the rows of one word and those of the next: at 10 % kept that is most of the time. 8 to 64 words do alike.
const STRETCH: usize = 16;

// The mask's words from word `from` on, at the front of `words`, as many as it holds, up to one that goes better as runs or is among the last two:
// how many.
fn words_ahead(source: Source, from: usize, words: &mut [u64]) -> usize
    requires { 64 * from ≤ source.bits.len }
    ensures { Ahead (slot_in source.entry) source.entry.bits.len from words.new result }
{
    let whole = (source.bits.len / 64).saturating_sub(1);
    let most = whole.saturating_sub(from).min(words.len());
    for n in 0..most {
        let x = source.word_in(from + n);
        if predicate::as_runs(x) {
            return n;
        }
        words[n] = x;
    }
    most
}

// The entries of the kept rows from a word's start on, word after word, up to one that goes better as runs or is among the last two. None are
// taken where the selection does not read the mask.
pub fn pass_words(out: &mut [u8], at: usize, column: Column, blocks: &mut Blocks) -> usize
    requires inside { Inside blocks.old.sel blocks.old.place }
    requires entries { Entries column.width column.src.now column.first (reach blocks.old.sel) }
    requires place_in_bounds { at + length (entries_in column (rows_left blocks.old)) ≤ length out.old }
    ensures { Passed (entries_in column.entry) blocks.old out.old at out.new result blocks.new }
{
    let Selection::Words(source) = blocks.sel else {
        // The blocks stay where they are, so that they stay in step.
        return at;
    };
    if blocks.place % 64 != 0 {
        return at;
    }
    let mut here = at;
    let mut w = blocks.place / 64;
    let mut words = [0u64; STRETCH];
    // No range: how many words a turn takes, the words decide.
    loop {
        let n = words_ahead(source, w, &mut words);
        if n == 0 {
            break;
        }
        here = column.gather_words(out, here, 64 * w, &words[..n]);
        w += n;
    }
    blocks.place = 64 * w;
    here
}

// A run of fewer rows than this is left to the blocks: a copy of its own is worth no more than its rows one by one.
const SHORT: usize = 8;

// The entries of the kept rows from the next block's place on, run after run, up to a short one or the last two words: where nearly all rows are
// kept, no block is asked for between the runs. One function for all widths, since a run is copied whole.
pub fn pass_runs(out: &mut [u8], at: usize, column: Column, blocks: &mut Blocks) -> usize
    requires inside { Inside blocks.old.sel blocks.old.place }
    requires entries { Entries column.width column.src.now column.first (reach blocks.old.sel) }
    requires place_in_bounds { at + length (entries_in column (rows_left blocks.old)) ≤ length out.old }
    ensures { Passed (entries_in column.entry) blocks.old out.old at out.new result blocks.new }
{
    let Selection::Words(source) = blocks.sel else {
        return at;
    };
    let len = source.bits.len;
    let mut here = at;
    let mut place = blocks.place;
    // No range: a run may end many words further on.
    while 64 * (place / 64) + 128 <= len {
        let Some((start, end)) = predicate::run_from(source, place) else {
            break;
        };
        if end < start + SHORT {
            break;
        }
        here = column.copy_rows(out, here, start, end);
        place = end;
    }
    blocks.place = place;
    here
}
