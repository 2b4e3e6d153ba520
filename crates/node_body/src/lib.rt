// The body of one node of an extract: its bitmap, first and second buffer behind the body so far.
#![tactic(auto)]

ghost use Rattle.std.specs.Prelude.{◌≡◌, true, suc, ◌+◌, ◌≤◌, length};
ghost use Rattle.format.specs.Accepted.{Nests};
ghost use Rattle.format.specs.Kept.{kept_node, kept_spans};
ghost use Rattle.format.specs.Node.{has_no_bitmap, kind};
ghost use Rattle.format.specs.Verdict.{pack_limit};
ghost use Rattle.format.specs.Write.{any_null};
ghost use Rattle.nodes.specs.Body.{node_body};
ghost use Rattle.nodes.specs.Place.{Flat};
ghost use Rattle.nodes.specs.Rows.{bytes_of, kind_of, marks_of, kept_of};
ghost use Rattle.predicate.specs.Selection.{selected};
ghost use Rattle.node_body.specs.Added.{data_size, Added};

use format::Kind;
use nodes::picked::Picked;
use pack::NO_BITMAP;

// Where a node's buffers start, where the body ends behind them, how many data bytes a byte column has, and how many of the kept rows are null.
#[derive(Clone, Copy)]
pub struct Buffers {
    pub validity: usize,
    pub first: usize,
    pub second: usize,
    pub next: usize,
    pub data: usize,
    pub nulls: usize,
}

// The length of the data of a byte column, which ends the body; 0 for the other kinds.
fn data_size(kind: Kind, start: usize, next: usize) -> usize
    requires { start ≤ next }
    ensures { result ≡ data_size kind start next }
{
    match kind {
        Kind::Bytes32 | Kind::Bytes64 => next - start,
        _ => 0,
    }
}

// A node's bitmap, first and second buffer, where `count` rows are kept.
pub fn put_buffers(out: &mut [u8], at: usize, picked: Picked, null: bool, count: usize) -> Buffers
    requires null_value { (null ≡ any_null (marks_of picked)) × (count ≡ length (selected picked.sel)) × (length out.old ≤ pack_limit) }
    requires room { at + length (node_body at (kept_of picked)) ≤ length out.old }
    ensures { Added (kept_of picked.entry) out.old at out.new result }
{
    let v = nodes::filter_nulls(out, at, picked, null, count);
    let f = nodes::filter_first(out, v.placed.next, picked, count);
    let d = nodes::filter_second(out, f.next, picked);
    Buffers {
        validity: v.placed.start,
        first: f.start,
        second: d.start,
        next: d.next,
        data: data_size(picked.kind(), d.start, d.next),
        nulls: v.count,
    }
}

// The buffers of the node of entries behind a list with offsets of w bytes, whose rows are selected. Neither has a bitmap, so the entries are copied by the list's
// offsets, and the node has no other buffer.
pub fn put_values(out: &mut [u8], at: usize, above: Picked, w: usize) -> Buffers
    requires nests { Nests w (kind_of above) × (has_no_bitmap (bytes_of above) above.index ≡ true) }
    requires flat { Flat (kind (bytes_of above) (suc above.index)) × (has_no_bitmap (bytes_of above) (suc above.index) ≡ true) }
    requires room { at + length (node_body at (kept_node (bytes_of above) (suc above.index) (kept_spans w (bytes_of above) above.index (selected above.sel)))) ≤ length out.old }
    ensures { Added (kept_node (bytes_of above.entry) (suc above.entry.index) (kept_spans w (bytes_of above.entry) above.entry.index (selected above.entry.sel))) out.old at out.new result }
{
    let width = above.journal.node(above.index + 1).param as usize;
    let f = nodes::first_values(out, at, above, w, width);
    Buffers {
        validity: NO_BITMAP as usize,
        first: f.start,
        second: 0,
        next: f.next,
        data: 0,
        nulls: 0,
    }
}
