// Nulls among a node's kept rows, and the data bytes of those rows.
ghost use Rattle.std.specs.Prelude.{◌≡◌, true, false, map, ◌∷◌, [], ◌+◌, ◌*◌, ◌≤◌, ◌<◌, length};
ghost use Rattle.format.specs.Bytes.{join};
ghost use Rattle.format.specs.Node.{node_count, rows, skip, validity_at, first_at, has_no_bitmap, valid, kind, second_length};
ghost use Rattle.format.specs.Verdict.{one_of};
ghost use Rattle.format.specs.Kept.{kept_rows, own_bytes, cells};
ghost use Rattle.format.specs.Write.{any_null, data_length};
ghost use Rattle.format.specs.Accepted.{Offsets as HasOffsets};
ghost use Rattle.nesting.specs.Rows.{picks_in};

use crate::root::{bytes_at_root, null_at_root};
use format::Kind;
use nesting::Counted;
use nesting::top::at_root;
use spans::Offsets;
use stretches::{KeptRuns, Stretches};

// Some kept row of a node whose validity bits stand from bit `first` on is null: of each null row it is asked whether it is kept. A word of rows that are
// all valid costs one test.
fn null_by_stretches(counted: Counted, node: usize, first: usize) -> bool
    requires inside { node < node_count counted.journal.now.bytes.now }
    requires known { node ≤ counted.known }
    requires bitmap { has_no_bitmap counted.journal.now.bytes.now node ≡ false }
    requires first { first ≡ 8 * validity_at counted.journal.now.bytes.now node + skip counted.journal.now.bytes.now node }
    ensures { result ≡ any_null (map (valid counted.entry.journal.now.bytes.now node) (kept_rows counted.entry.journal.now.bytes.now (picks_in counted.entry.source) node)) }
{
    let bytes = counted.journal.bytes;
    let rows = counted.journal.rows(node);
    let mut stretches = Stretches::new(counted);
    for w in 0..rows.div_ceil(64) {
        let base = 64 * w;
        if slots::load64(bytes, first + base) == u64::MAX {
            continue;
        }
        for row in base..rows.min(base + 64) {
            if !slots::bit(bytes, first + row) && stretches.told(node, row).kept {
                return true;
            }
        }
    }
    false
}

// Some kept row of the node is null.
pub fn any_null(counted: Counted, node: usize) -> bool
    requires inside { node < node_count counted.journal.now.bytes.now }
    requires known { node ≤ counted.known }
    ensures { result ≡ any_null (map (valid counted.entry.journal.now.bytes.now node) (kept_rows counted.entry.journal.now.bytes.now (picks_in counted.entry.source) node)) }
{
    let Some(first) = counted.journal.marks(node) else {
        return false;
    };
    if at_root(counted.journal, node) {
        return null_at_root(counted.source, counted.journal.bytes, first);
    }
    null_by_stretches(counted, node, first)
}

// How many data bytes the kept rows of a node have, run by run.
fn bytes_by_runs(counted: Counted, node: usize, offsets: Offsets) -> usize
    requires inside { node < node_count counted.journal.now.bytes.now }
    requires known { node ≤ counted.known }
    requires wide { one_of (2 ∷ 4 ∷ 8 ∷ []) offsets.width ≡ true }
    requires first { offsets.first ≡ first_at counted.journal.now.bytes.now node + offsets.width * skip counted.journal.now.bytes.now node }
    requires offsets { HasOffsets offsets.width counted.journal.now.bytes.now node }
    ensures { (result ≡ length (join (map (own_bytes offsets.width counted.entry.journal.now.bytes.now node) (kept_rows counted.entry.journal.now.bytes.now (picks_in counted.entry.source) node))))
        × (result ≤ second_length counted.entry.journal.now.bytes.now node) }
{
    let bytes = counted.journal.bytes;
    let mut n: usize = 0;
    for (from, to) in KeptRuns::new(counted, node) {
        n += offsets.get(bytes, to) - offsets.get(bytes, from);
    }
    n
}

// The same by offsets of so many bytes: by the mask's words where the node keeps the root's rows.
fn text_bytes(counted: Counted, node: usize, width: usize) -> usize
    requires inside { node < node_count counted.journal.now.bytes.now }
    requires known { node ≤ counted.known }
    requires long { counted.source.bits.len ≤ rows counted.journal.now.bytes.now 0 }
    requires wide { one_of (2 ∷ 4 ∷ 8 ∷ []) width ≡ true }
    requires offsets { HasOffsets width counted.journal.now.bytes.now node }
    ensures { (result ≡ length (join (map (own_bytes width counted.entry.journal.now.bytes.now node) (kept_rows counted.entry.journal.now.bytes.now (picks_in counted.entry.source) node))))
        × (result ≤ second_length counted.entry.journal.now.bytes.now node) }
{
    let n = counted.journal.node(node);
    let offsets = Offsets {
        first: n.first_at as usize + width * (n.skip as usize),
        width,
    };
    if at_root(counted.journal, node) {
        return bytes_at_root(counted, node, offsets);
    }
    bytes_by_runs(counted, node, offsets)
}

// How many data bytes the node's kept rows have.
pub fn data_length(counted: Counted, node: usize) -> usize
    requires inside { node < node_count counted.journal.now.bytes.now }
    requires known { node ≤ counted.known }
    requires long { counted.source.bits.len ≤ rows counted.journal.now.bytes.now 0 }
    ensures { (result ≡ data_length (cells (kind counted.entry.journal.now.bytes.now node) counted.entry.journal.now.bytes.now node (kept_rows counted.entry.journal.now.bytes.now (picks_in counted.entry.source) node)))
        × (result ≤ length counted.entry.journal.now.bytes.now) }
{
    match counted.journal.kind(node) {
        Kind::Bytes32 => text_bytes(counted, node, 4),
        Kind::Bytes64 => text_bytes(counted, node, 8),
        _ => 0,
    }
}
