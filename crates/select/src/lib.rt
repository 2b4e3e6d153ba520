// From an accepted mask's bits to the written extract: the selection, its list where it is asked for, scratch filled and cleared again.
#![tactic(auto)]

ghost use Rattle.std.specs.Prelude.{◌≡◌, true, cond, [], ◌^◌, ◌<◌, ◌≤◌, length, replicate, Some};
ghost use Rattle.format.specs.Bytes.{over};
ghost use Rattle.format.specs.Node.{node_count, rows};
ghost use Rattle.format.specs.Verdict.{pack_limit};
ghost use Rattle.format.specs.Write.{extract};
ghost use Rattle.format.specs.Answer.{scratch_needed};
ghost use Rattle.slots.specs.Slot.{slot_in};
ghost use Rattle.predicate.specs.Entries.{entries_on};
ghost use Rattle.predicate.specs.Selection.{selected, reach, Sourced, Selects};
ghost use Rattle.nesting.specs.Rows.{picks_in};
ghost use Rattle.select.specs.Routed.{Goes, Few, Ready};

use format::{Kind, Route};
use nesting::Counted;
use predicate::stored::{StoredRows, StoredRuns};
use predicate::{Selection, selection_by_words};
use regions::Regions;
use slots::Source;
use stored_list::store_list;
use write::write_extract;

// Rows are few where at most one in 64 slots is picked, as docs/FORMAT.md (6) has it of a bitmap column; so at most this many of a mask's 1,048,576 slots.
const FEW_ROWS: usize = 16_384;

// A shorter mask is walked by each column: the list for few rows has 64 KiB, and clearing it takes about half as long as a walk over so many
// slots (in a model of the loops in Rust, at 1 % picked: .7 against 1.2 microseconds).
const LONG_MASK: usize = 65_536;

// The extract into an output as long as it, by way of scratch as long as is needed, which is zero at the end.
fn fill_and_write(counted: Counted, sel: Selection, scratch: &mut [u8], output: &mut [u8])
    requires selects { (selected sel ≡ picks_in counted.source) × (reach sel ≤ rows counted.journal.now.bytes.now 0) × Sourced sel }
    requires ready { Ready counted scratch.old output.old }
    ensures { (output.new ≡ extract counted.entry.journal.now.bytes.now (picks_in counted.entry.source)) × (scratch.new ≡ replicate (length scratch.old) 0) }
{
    let places = fill::fill_all(counted, scratch);
    let regions = Regions {
        counted,
        sel,
        scratch,
        places: &places,
    };
    write_extract(output, &regions);
    let need = scratch.len();
    fill::clear(scratch, need);
}

// The selection of a route by its entries, which a list holds, all of them and no more.
fn selection_by<'a>(route: Route, source: Source<'a>, list: &'a [u32]) -> Selection<'a>
    requires { list.now ≡ entries_on route (slot_in source) source.bits.len }
    ensures { Selects route source.entry (Some list.entry) result }
{
    let Source { bytes, bits, .. } = source;
    match route {
        Route::None => Selection::Nothing,
        Route::All => Selection::Everything(bits.len),
        Route::Slices => Selection::Runs(StoredRuns {
            bytes,
            bits,
            ends: list,
        }),
        Route::Indices => Selection::Rows(StoredRows {
            bytes,
            bits,
            rows: list,
        }),
    }
}

// The same by the route's entries, which are stored at the front of a list, so that the mask is not walked by every column.
fn write_listed(
    counted: Counted,
    route: Route,
    list: &mut [u32],
    scratch: &mut [u8],
    output: &mut [u8],
)
    requires goes { Goes route counted.source }
    requires room { length (entries_on route (slot_in counted.source) counted.source.bits.len) ≤ length list.old }
    requires ready { Ready counted scratch.old output.old }
    ensures { (output.new ≡ extract counted.entry.journal.now.bytes.now (picks_in counted.entry.source)) × (scratch.new ≡ replicate (length scratch.old) 0) × (list.new ≡ over (entries_on route (slot_in counted.entry.source) counted.entry.source.bits.len) list.old) }
{
    let n = store_list(counted.source, route, list);
    let sel = selection_by(route, counted.source, &list[..n]);
    fill_and_write(counted, sel, scratch, output);
}

// The same where few rows are picked: their numbers are stored in a list of this call's own.
fn write_few(counted: Counted, scratch: &mut [u8], output: &mut [u8])
    requires few { length (picks_in counted.source) ≤ 16_384 }
    requires ready { Ready counted scratch.old output.old }
    ensures { (output.new ≡ extract counted.entry.journal.now.bytes.now (picks_in counted.entry.source)) × (scratch.new ≡ replicate (length scratch.old) 0) }
{
    let mut list = [0u32; FEW_ROWS];
    write_listed(counted, Route::Indices, &mut list[..], scratch, output);
}

// Whether the picked rows are few, so that their numbers are stored though no list is asked for: at most one in 64 slots of a long mask. Not
// where the root is a column of bits: compress passes the mask once and needs no list. `asked` stands beside the list as it does in `filter::filter`.
fn few(asked: bool, kept: usize, len: usize, root: Kind) -> bool
    ensures { Few result asked kept len }
{
    !asked & (root != Kind::Bits) & (LONG_MASK <= len) & (0 < kept) & (kept <= len / 64)
}

// The extract by the numbers of few rows or by the mask's own selection, and the list where it is asked for.
pub fn select_and_write(
    counted: Counted,
    route: Route,
    asked: bool,
    list: &mut [u32],
    scratch: &mut [u8],
    output: &mut [u8],
)
    requires goes { Goes route counted.source }
    requires room { asked ≡ true → length (entries_on route (slot_in counted.source) counted.source.bits.len) ≤ length list.old }
    requires ready { Ready counted scratch.old output.old }
    ensures { (output.new ≡ extract counted.entry.journal.now.bytes.now (picks_in counted.entry.source)) × (scratch.new ≡ replicate (length scratch.old) 0) × (list.new ≡ over (cond asked (entries_on route (slot_in counted.entry.source) counted.entry.source.bits.len) []) list.old) }
{
    let source = counted.source;
    if few(
        asked,
        counted.kept(0),
        source.bits.len,
        counted.journal.kind(0),
    ) {
        write_few(counted, scratch, output);
        return;
    }
    if asked {
        write_listed(counted, route, list, scratch, output);
        return;
    }
    let sel = selection_by_words(route, source);
    fill_and_write(counted, sel, scratch, output);
}
