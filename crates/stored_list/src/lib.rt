// The route's list, stored: picked row numbers, or start and end of each run, at the front of a lent list.
#![tactic(auto)]

ghost use Rattle.std.specs.Prelude.{◌≡◌, ◌+◌, ◌*◌, ◌^◌, ◌<◌, ◌≤◌, length};
ghost use Rattle.format.specs.Put.{Wrote};
ghost use Rattle.format.specs.Rows.{set_rows, Below};
ghost use Rattle.format.specs.Slots.{picks_from, runs_from, starts_and_ends};
ghost use Rattle.slots.specs.Slot.{slot_in};
ghost use Rattle.predicate.specs.Entries.{entries_on};

use format::Route;
use slices::SlicesIterator;
use slots::Source;
use words::SetRows;

// The rows base + k for the set bits k of a word, at place `at` of the list.
fn put_word(list: &mut [u32], at: usize, base: usize, word: u64) -> usize
    requires below { Below (2 ^ 32) (set_rows base word) }
    requires word_in_bounds { at + length (set_rows base word) ≤ length list.old }
    ensures { Wrote list.old at (set_rows base word) list.new result }
{
    let mut here = at;
    for row in SetRows::new(base, word) {
        list[here] = row as u32;
        here += 1;
    }
    here
}

// The picked rows, at the front of the list: how many. The first loop has no test but its own: the words whose reads may leave the slice are the last two.
fn store_rows(source: Source, list: &mut [u32]) -> usize
    requires { (source.bits.len < 2 ^ 32) × (length (picks_from (slot_in source) source.bits.len 0) ≤ length list.old) }
    ensures { Wrote list.old 0 (picks_from (slot_in source.entry) source.entry.bits.len 0) list.new result }
{
    let whole = (source.bits.len / 64).saturating_sub(1);
    let mut here = 0;
    for w in 0..whole {
        here = put_word(list, here, 64 * w, source.word_in(w));
    }
    for w in whole..source.bits.len.div_ceil(64) {
        here = put_word(list, here, 64 * w, source.word(w));
    }
    here
}

// Start and end of each maximal run of picked rows, at the front of the list: how many entries.
fn store_runs(source: Source, list: &mut [u32]) -> usize
    requires { (source.bits.len < 2 ^ 32) × (length (starts_and_ends (runs_from (slot_in source) source.bits.len 0)) ≤ length list.old) }
    ensures { Wrote list.old 0 (starts_and_ends (runs_from (slot_in source.entry) source.entry.bits.len 0)) list.new result }
{
    let mut here = 0;
    for (start, end) in SlicesIterator::new(source.bytes, source.bits) {
        list[here] = start as u32;
        list[here + 1] = end as u32;
        here += 2;
    }
    here
}

// How many entries the route's list has, where the mask picks `kept` slots.
pub fn list_entries(source: Source, route: Route, kept: usize) -> usize
    requires { (source.bits.len < 2 ^ 32) × (kept ≡ length (picks_from (slot_in source) source.bits.len 0)) }
    ensures { result ≡ length (entries_on route (slot_in source.entry) source.entry.bits.len) }
{
    match route {
        Route::None | Route::All => 0,
        Route::Slices => 2 * slices::count_runs(source),
        Route::Indices => kept,
    }
}

// The route's entries, at the front of the list: how many.
pub fn store_list(source: Source, route: Route, list: &mut [u32]) -> usize
    requires { (source.bits.len < 2 ^ 32) × (length (entries_on route (slot_in source) source.bits.len) ≤ length list.old) }
    ensures { Wrote list.old 0 (entries_on route (slot_in source.entry) source.entry.bits.len) list.new result }
{
    match route {
        Route::None | Route::All => 0,
        Route::Slices => store_runs(source, list),
        Route::Indices => store_rows(source, list),
    }
}
