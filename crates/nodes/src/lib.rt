// One node of an extract: its bitmap, first and second buffer, each behind the body so far, padded to a multiple of 8.
#![tactic(auto)]

ghost use Rattle.std.specs.Prelude.{◌≡◌, true, suc, ◌+◌, ◌*◌, ◌≤◌, length};
ghost use Rattle.format.specs.Accepted.{Nests};
ghost use Rattle.format.specs.Kept.{cells, kept_spans};
ghost use Rattle.format.specs.Node.{has_no_bitmap, no_bitmap, kind, param};
ghost use Rattle.format.specs.Verdict.{pack_limit};
ghost use Rattle.format.specs.Write.{nulls, any_null, bitmap, first, second};
ghost use Rattle.buffers.specs.Place.{appended, Puts};
ghost use Rattle.nodes.specs.Place.{ByteColumn, Copies, Sizes};
ghost use Rattle.nodes.specs.Rows.{bytes_of, kind_of, param_of, marks_of, values_of};
ghost use Rattle.predicate.specs.Selection.{selected};

pub mod picked;

use buffers::Placed;
use format::Kind;
use gather::Column;
use list_columns::Lists;
use pack::NO_BITMAP;
use picked::Picked;
use runs::run_ends::RunEnds;
use texts::OwnBytes;
use words::Number;

// Where the bitmap of a node's kept rows was put, and how many of these rows are null.
#[derive(Clone, Copy)]
pub struct Nulls {
    pub placed: Placed,
    pub count: usize,
}

// The bitmap of the `count` kept rows, only if one of them is null; these are counted in it.
pub fn filter_nulls(out: &mut [u8], at: usize, picked: Picked, null: bool, count: usize) -> Nulls
    requires null_value { (null ≡ any_null (marks_of picked)) × (count ≡ length (selected picked.sel)) × (length out.old ≤ pack_limit) }
    requires room { at + length (appended at (bitmap (marks_of picked))) ≤ length out.old }
    ensures { Puts no_bitmap (bitmap (marks_of picked.entry)) out.old at out.new result.placed × (result.count ≡ nulls (marks_of picked.entry)) }
{
    if null {
        let start = append::fields::pad(out, at);
        let node = picked.node();
        let from = 8 * (node.validity_at as usize) + node.skip as usize;
        let journal = picked.journal.bytes;
        let next = bitmaps::filter_bits(out, start, journal, from, picked.sel, count);
        return Nulls {
            placed: Placed { start, next },
            count: slots::null_count(out, start, 0, count),
        };
    }
    Nulls {
        placed: Placed {
            start: NO_BITMAP as usize,
            next: at,
        },
        count: 0,
    }
}

// Where row 0 of a node stands in a buffer of entries.
fn row_zero(at: u32, width: usize, skip: u32) -> usize
    requires { width ≤ 1024 }
    ensures { result ≡ at + width * skip }
{
    at as usize + width * (skip as usize)
}

// The first buffer of a node of a kind that copies entries of `width` bytes.
fn first_entries(out: &mut [u8], at: usize, picked: Picked, width: usize) -> Placed
    requires copies { Copies (kind_of picked) (param_of picked) width }
    requires room { at + length (appended at (first (values_of picked))) ≤ length out.old }
    ensures { Puts 0 (first (values_of picked.entry)) out.old at out.new result }
{
    let node = picked.node();
    let column = Column {
        src: picked.journal.bytes,
        first: row_zero(node.first_at, width, node.skip),
        width,
    };
    buffers::put_entries(out, at, column, picked.sel)
}

// The first buffer of a node of bits.
fn first_bits(out: &mut [u8], at: usize, picked: Picked, count: usize) -> Placed
    requires kind_value { kind_of picked ≡ Kind.Bits }
    requires room { at + length (appended at (first (values_of picked))) ≤ length out.old }
    ensures { Puts 0 (first (values_of picked.entry)) out.old at out.new result }
{
    let node = picked.node();
    let from = 8 * (node.first_at as usize) + node.skip as usize;
    buffers::put_bits(out, at, picked.journal.bytes, from, picked.sel, count)
}

// The first buffer of a byte column: the offsets.
fn first_offsets<N: Number>(out: &mut [u8], at: usize, picked: Picked) -> Placed
    requires column { ByteColumn (kind_of picked) N.WIDTH }
    requires room { at + length (appended at (first (values_of picked))) ≤ length out.old }
    ensures { Puts 0 (first (values_of picked.entry)) out.old at out.new result }
{
    let node = picked.node();
    let place = row_zero(node.first_at, N::WIDTH, node.skip);
    buffers::put_offsets::<N>(out, at, picked.journal.bytes, place, picked.sel)
}

// Its second buffer: the data, by offsets of `width` bytes.
fn second_texts(out: &mut [u8], at: usize, picked: Picked, width: usize) -> Placed
    requires column { ByteColumn (kind_of picked) width }
    requires room { at + length (appended at (second (values_of picked))) ≤ length out.old }
    ensures { Puts 0 (second (values_of picked.entry)) out.old at out.new result }
{
    let node = picked.node();
    let own = OwnBytes {
        src: picked.journal.bytes,
        first: row_zero(node.first_at, width, node.skip),
        width,
        start: node.second_at as usize,
        unit: 1,
    };
    buffers::put_texts(out, at, own, picked.sel)
}

// The first buffer of a list: without a bitmap as a byte column's, and else a null row has no child row.
fn first_spans<N: Number>(out: &mut [u8], at: usize, picked: Picked) -> Placed
    requires nests { Nests N.WIDTH (kind_of picked) }
    requires room { at + length (appended at (first (values_of picked))) ≤ length out.old }
    ensures { Puts 0 (first (values_of picked.entry)) out.old at out.new result }
{
    let node = picked.node();
    let src = picked.journal.bytes;
    let first = row_zero(node.first_at, N::WIDTH, node.skip);
    if picked.journal.has_no_bitmap(picked.index) {
        return buffers::put_offsets::<N>(out, at, src, first, picked.sel);
    }
    let lists = Lists {
        src,
        first,
        from: 8 * (node.validity_at as usize) + node.skip as usize,
    };
    buffers::put_spans::<N>(out, at, lists, picked.sel)
}

// The first buffer of a node of entries of `width` bytes, the one behind a list with no bitmap, whose rows are selected: copied by the list's offsets, of w bytes.
pub fn first_values(out: &mut [u8], at: usize, above: Picked, w: usize, width: usize) -> Placed
    requires nests { Nests w (kind_of above) × (has_no_bitmap (bytes_of above) above.index ≡ true) }
    requires copies { Copies (kind (bytes_of above) (suc above.index)) (param (bytes_of above) (suc above.index)) width }
    requires room { at + length (appended at (first (cells (kind (bytes_of above) (suc above.index)) (bytes_of above) (suc above.index) (kept_spans w (bytes_of above) above.index (selected above.sel))))) ≤ length out.old }
    ensures { Puts 0 (first (cells (kind (bytes_of above.entry) (suc above.entry.index)) (bytes_of above.entry) (suc above.entry.index) (kept_spans w (bytes_of above.entry) above.entry.index (selected above.entry.sel)))) out.old at out.new result }
{
    let list = above.node();
    let node = above.journal.node(above.index + 1);
    let own = OwnBytes {
        src: above.journal.bytes,
        first: row_zero(list.first_at, w, list.skip),
        width: w,
        start: row_zero(node.first_at, width, node.skip),
        unit: width,
    };
    buffers::put_texts(out, at, own, above.sel)
}

// The first buffer of a runs node.
fn first_runs(out: &mut [u8], at: usize, picked: Picked) -> Placed
    requires kind_value { kind_of picked ≡ Kind.Runs }
    requires room { at + length (appended at (first (values_of picked))) ≤ length out.old }
    ensures { Puts 0 (first (values_of picked.entry)) out.old at out.new result }
{
    let node = picked.node();
    let runs = RunEnds {
        bytes: picked.journal.bytes,
        first: node.first_at as usize,
        width: node.param as usize,
        count: picked.journal.rows(picked.index + 1),
        skip: node.skip as usize,
    };
    buffers::put_run_ends(out, at, runs, picked.sel)
}

// A node's first buffer; of a runs node its run ends.
pub fn filter_first(out: &mut [u8], at: usize, picked: Picked, count: usize) -> Placed
    requires { at + length (appended at (first (values_of picked))) ≤ length out.old }
    ensures { Puts 0 (first (values_of picked.entry)) out.old at out.new result }
{
    let width = picked.node().param as usize;
    match picked.kind() {
        Kind::Bits => first_bits(out, at, picked, count),
        Kind::Native | Kind::Fixed | Kind::Dictionary => first_entries(out, at, picked, width),
        Kind::Bytes32 => first_offsets::<u32>(out, at, picked),
        Kind::Bytes64 => first_offsets::<u64>(out, at, picked),
        Kind::Views => first_entries(out, at, picked, 16),
        Kind::Lists32 => first_entries(out, at, picked, 4),
        Kind::Lists64 => first_entries(out, at, picked, 8),
        Kind::Runs => first_runs(out, at, picked),
        Kind::Union => first_entries(out, at, picked, 1),
        Kind::Nested32 => first_spans::<u32>(out, at, picked),
        Kind::Nested64 => first_spans::<u64>(out, at, picked),
        Kind::Struct | Kind::Unknown => Placed { start: 0, next: at },
    }
}

// The second buffer of a node of list views with sizes of `width` bytes.
fn second_sizes(out: &mut [u8], at: usize, picked: Picked, width: usize) -> Placed
    requires sizes { Sizes (kind_of picked) width }
    requires room { at + length (appended at (second (values_of picked))) ≤ length out.old }
    ensures { Puts 0 (second (values_of picked.entry)) out.old at out.new result }
{
    let node = picked.node();
    let column = Column {
        src: picked.journal.bytes,
        first: row_zero(node.second_at, width, node.skip),
        width,
    };
    buffers::put_entries(out, at, column, picked.sel)
}

// A node's second buffer: the data of a byte column, the sizes of list views, and of the other kinds none.
pub fn filter_second(out: &mut [u8], at: usize, picked: Picked) -> Placed
    requires { at + length (appended at (second (values_of picked))) ≤ length out.old }
    ensures { Puts 0 (second (values_of picked.entry)) out.old at out.new result }
{
    match picked.kind() {
        Kind::Bytes32 => second_texts(out, at, picked, 4),
        Kind::Bytes64 => second_texts(out, at, picked, 8),
        Kind::Lists32 => second_sizes(out, at, picked, 4),
        Kind::Lists64 => second_sizes(out, at, picked, 8),
        _ => Placed { start: 0, next: at },
    }
}
