// Reading a pack's trailer and nodes. Every reader is total: past the end each byte reads 0.
ghost use Rattle.std.specs.Prelude.{◌≡◌, ◌+◌, ◌*◌, ◌^◌, ◌<◌};
ghost use Rattle.format.specs.Bytes.{le};
ghost use Rattle.format.specs.Node.{table_start, node_count, rows, child};
ghost use Rattle.pack.specs.Read.{trailer_of, node_of};

use crate::{Node, Trailer};

// The number of four bytes at a place.
pub fn u32_at(s: &[u8], at: usize) -> u32
    requires { at < 2 ^ 63 }
    ensures { result ≡ le 4 s.now at }
{
    let byte = |k: usize| s.get(at + k).copied().unwrap_or(0);
    u32::from_le_bytes([byte(0), byte(1), byte(2), byte(3)])
}

// The trailer.
pub fn trailer_of(pack: &[u8]) -> Trailer
    ensures { result ≡ trailer_of pack.now }
{
    let n = pack.len();
    let back = |k: usize| u32_at(pack, n.saturating_sub(k));
    Trailer {
        table_start: back(16),
        node_count: back(12),
        root_rows: back(8),
        mark: back(4),
    }
}

// How many nodes there are.
pub fn node_count(pack: &[u8]) -> u32
    ensures { result ≡ node_count pack.now }
{
    trailer_of(pack).node_count
}

// Where the table of nodes starts, and the body ends. Read alone, since each read of a node begins with it: the whole trailer makes a check of many
// small nodes a quarter longer.
pub fn table_start(pack: &[u8]) -> u32
    ensures { result ≡ table_start pack.now }
{
    u32_at(pack, pack.len().saturating_sub(16))
}

// Node i.
pub fn node_at(pack: &[u8], i: u32) -> Node
    ensures { result ≡ node_of pack.now i }
{
    let at = table_start(pack) as usize + 40 * (i as usize);
    let field = |k: usize| u32_at(pack, at + 4 * k);
    Node {
        kind: field(0),
        param: field(1),
        rows: field(2),
        skip: field(3),
        kids: field(4),
        validity_at: field(5),
        first_at: field(6),
        second_at: field(7),
        second_length: field(8),
        last_field: field(9),
    }
}

// The rows of node i's one child, the node behind it.
pub fn child_rows(pack: &[u8], i: u32) -> u32
    requires { i < 64 }
    ensures { result ≡ rows pack.now (child i) }
{
    node_at(pack, i + 1).rows
}
