// One buffer of an extract, behind the body so far: padding to a multiple of 8, then what the kept rows give.
#![tactic(auto, using(crate::proofs::PutLaws::appended_size))]

ghost use Rattle.std.specs.Prelude.{map, ◌+◌, ◌^◌, ◌≤◌, ◌<◌, length};
ghost use Rattle.format.specs.Bytes.{packed};
ghost use Rattle.format.specs.Write.{holds, numbers, offsets};
ghost use Rattle.append.specs.Cells.{Entries};
ghost use Rattle.gather.specs.Column.{entries_in};
ghost use Rattle.texts.specs.Texts.{offset, sizes_of, Offsets};
ghost use Rattle.texts.specs.Own.{Have as HaveOwn, own_of};
ghost use Rattle.list_columns.specs.Lists.{Have as HaveLists, starts};
ghost use Rattle.bitmaps.specs.Push.{bit_from};
ghost use Rattle.runs.specs.Ends.{kept_ends};
ghost use Rattle.predicate.specs.Selection.{reach, selected, Sourced};
ghost use Rattle.buffers.specs.Place.{appended, Puts};

use gather::Column;
use list_columns::Lists;
use predicate::Selection;
use runs::run_ends::RunEnds;
use texts::OwnBytes;
use words::Number;

// Where a buffer starts, and where the body ends behind it.
#[derive(Clone, Copy)]
pub struct Placed {
    pub start: usize,
    pub next: usize,
}

// The entries of the kept rows.
pub fn put_entries(out: &mut [u8], at: usize, column: Column, sel: Selection) -> Placed
    requires entries { Entries column.width column.src.now column.first (reach sel) }
    requires room { at + length (appended at (holds (entries_in column (selected sel)))) ≤ length out.old }
    ensures { Puts 0 (holds (entries_in column.entry (selected sel.entry))) out.old at out.new result }
{
    let start = append::fields::pad(out, at);
    let next = columns::native::filter_native(out, start, column, sel);
    Placed { start, next }
}

// The offsets of the kept rows rebuilt from 0, row 0's at `place`.
pub fn put_offsets<N: Number>(
    out: &mut [u8],
    at: usize,
    journal: &[u8],
    place: usize,
    sel: Selection,
) -> Placed
    requires offsets { Offsets N.WIDTH journal.now place (reach sel) }
    requires room { at + length (appended at (holds (numbers N.WIDTH (offsets (sizes_of (offset N.WIDTH journal.now place) (selected sel)))))) ≤ length out.old }
    ensures { Puts 0 (holds (numbers N.WIDTH (offsets (sizes_of (offset N.WIDTH journal.now place) (selected sel.entry))))) out.old at out.new result }
{
    let start = append::fields::pad(out, at);
    let next = text_columns::filter_offsets::<N>(out, start, journal, place, sel).next;
    Placed { start, next }
}

// The own bytes of the kept rows.
pub fn put_texts(out: &mut [u8], at: usize, own: OwnBytes, sel: Selection) -> Placed
    requires texts { HaveOwn own (reach sel) }
    requires room { at + length (appended at (holds (own_of own (selected sel)))) ≤ length out.old }
    ensures { Puts 0 (holds (own_of own.entry (selected sel.entry))) out.old at out.new result }
{
    let start = append::fields::pad(out, at);
    let next = text_columns::filter_texts(out, start, own, sel);
    Placed { start, next }
}

// The offsets of the kept rows of a list rebuilt from 0: a null row has no child row.
pub fn put_spans<N: Number>(out: &mut [u8], at: usize, lists: Lists, sel: Selection) -> Placed
    requires spans { HaveLists N.WIDTH lists (reach sel) }
    requires room { at + length (appended at (holds (numbers N.WIDTH (offsets (sizes_of (starts N.WIDTH lists) (selected sel)))))) ≤ length out.old }
    ensures { Puts 0 (holds (numbers N.WIDTH (offsets (sizes_of (starts N.WIDTH lists.entry) (selected sel.entry))))) out.old at out.new result }
{
    let start = append::fields::pad(out, at);
    let next = list_columns::filter_spans::<N>(out, start, lists, sel);
    Placed { start, next }
}

// The bits of the kept rows, row 0 at bit `from`.
pub fn put_bits(
    out: &mut [u8],
    at: usize,
    journal: &[u8],
    from: usize,
    sel: Selection,
    count: usize,
) -> Placed
    requires sourced { Sourced sel }
    requires len_bound { from + reach sel < 2 ^ 61 }
    requires room { at + length (appended at (holds (packed (map (bit_from journal.now from) (selected sel))))) ≤ length out.old }
    ensures { Puts 0 (holds (packed (map (bit_from journal.now from) (selected sel.entry)))) out.old at out.new result }
{
    let start = append::fields::pad(out, at);
    let next = bitmaps::filter_bits(out, start, journal, from, sel, count);
    Placed { start, next }
}

// The run ends of the runs that keep a row.
pub fn put_run_ends(out: &mut [u8], at: usize, runs: RunEnds, sel: Selection) -> Placed
    requires sourced { Sourced sel }
    requires room { at + length (appended at (holds (kept_ends runs (selected sel)))) ≤ length out.old }
    ensures { Puts 0 (holds (kept_ends runs.entry (selected sel.entry))) out.old at out.new result }
{
    let start = append::fields::pad(out, at);
    let next = runs::filter_run_ends(out, start, runs, sel);
    Placed { start, next }
}
