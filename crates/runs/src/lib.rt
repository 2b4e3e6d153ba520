// The run ends of a runs node's kept rows (filter.rs: filter_run_end_array), and how many rows of a range a selection keeps.
#![tactic(auto)]

ghost use Rattle.std.specs.Prelude.{ℕ, ◌≡◌, ◌+◌, ◌-◌, ◌≤◌, length};
ghost use Rattle.format.specs.Put.{Wrote};
ghost use Rattle.format.specs.Slots.{picks_from};
ghost use Rattle.slots.specs.Slot.{slot_in};
ghost use Rattle.predicate.specs.Blocks.{kept_by};
ghost use Rattle.predicate.specs.Selection.{reach, selected, Sourced};
ghost use Rattle.runs.specs.Ends.{kept_ends};

pub mod run_ends;

use predicate::Selection;
use predicate::stored::{StoredRows, StoredRuns};
use run_ends::RunEnds;
use slots::Source;
use words::put_number;

// How many slots of [lo, hi) are picked, word by word.
#[inline(never)]
fn count_words(source: Source, lo: usize, hi: usize) -> usize
    requires { (lo ≤ hi) × (hi ≤ source.bits.len) }
    ensures { result ≡ length (picks_from (slot_in source.entry) (hi - lo) lo) }
{
    let whole = (hi - lo) / 64;
    let mut n: usize = 0;
    for w in 0..whole {
        n += source.window(lo + 64 * w, 64).count_ones() as usize;
    }
    n + source.window(lo + 64 * whole, (hi - lo) % 64).count_ones() as usize
}

// How many slots of [lo, hi) are picked. It is compiled into its callers' loops, which then call only for a range that one load of each bitmap does
// not have (`Source::window57_in`).
#[inline(always)]
pub fn count_in(source: Source, lo: usize, hi: usize) -> usize
    requires { (lo ≤ hi) × (hi ≤ source.bits.len) }
    ensures { result ≡ length (picks_from (slot_in source.entry) (hi - lo) lo) }
{
    if (hi - lo <= 57) & (lo + 64 <= source.bits.len) {
        source.window57_in(lo, hi - lo).count_ones() as usize
    } else {
        count_words(source, lo, hi)
    }
}

// All rows of a selection lie below this one. No plainer than by a match, because it stands in each variant.
fn reach(sel: Selection) -> usize
    ensures { result ≡ reach sel.entry }
{
    match sel {
        Selection::Nothing => 0,
        Selection::Everything(n) => n,
        Selection::Words(Source { bits, .. })
        | Selection::Runs(StoredRuns { bits, .. })
        | Selection::Rows(StoredRows { bits, .. }) => bits.len,
    }
}

// `filter_run_ends` where `count` says how many rows of a range are kept: a loop for each way to count. One loop that asks the selection at each run
// takes up to 1.4 times as long where runs are short and few rows are kept.
#[inline(always)]
fn ends_by<F: Fn(usize, usize) -> usize>(
    out: &mut [u8],
    at: usize,
    runs: RunEnds,
    sel: Selection,
    count: F,
) -> usize
    requires callable { (lo hi : ℕ) → lo ≤ hi → hi ≤ reach sel → F.pre count lo hi }
    requires counts { (lo hi n : ℕ) → lo ≤ hi → hi ≤ reach sel → F.post count lo hi n → n ≡ length (picks_from (kept_by sel) (hi - lo) lo) }
    requires room { at + length (kept_ends runs (selected sel)) ≤ length out.old }
    ensures { Wrote out.old at (kept_ends runs.entry (selected sel.entry)) out.new result }
{
    let len = reach(sel);
    let mut here = at;
    let mut kept: usize = 0;
    // The rows before run j are those below lo.
    let mut lo: usize = 0;
    for j in 0..runs.count {
        let hi = runs.end(j, len);
        let size = count(lo, hi);
        lo = hi;
        if 0 < size {
            kept += size;
            here = put_number(out, here, kept as u64, runs.width);
        }
    }
    here
}

// The ends of the runs with a kept row, each at the running kept count; neighbours are not merged. The selection is looked at once, so that the loop is
// compiled for each way to count.
pub fn filter_run_ends(out: &mut [u8], at: usize, runs: RunEnds, sel: Selection) -> usize
    requires sourced { Sourced sel }
    requires room { at + length (kept_ends runs (selected sel)) ≤ length out.old }
    ensures { Wrote out.old at (kept_ends runs.entry (selected sel.entry)) out.new result }
{
    match sel {
        Selection::Nothing => at,
        Selection::Everything(_) => ends_by(out, at, runs, sel, |lo, hi| hi - lo),
        Selection::Words(Source { bytes, bits, .. })
        | Selection::Runs(StoredRuns { bytes, bits, .. })
        | Selection::Rows(StoredRows { bytes, bits, .. }) => {
            let source = Source { bytes, bits };
            ends_by(out, at, runs, sel, |lo, hi| count_in(source, lo, hi))
        }
    }
}
