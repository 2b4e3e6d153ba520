// Refusal 6: the row limit, the trailer's rows, the rows of the children of struct and union.
ghost use Rattle.std.specs.Prelude.{◌≡◌, not, ◌&&◌, ◌||◌, eqb, ltb, ◌≤◌};
ghost use Rattle.format.specs.Node.{node_count, rows, places, of_kind};
ghost use Rattle.format.specs.Verdict.{wrong_rows};

use format::Kind;
use pack::read::{node_at, node_count, trailer_of};
use pack::tree::parents_of;

// Skip and rows of a node are at most this many together.
const ROW_LIMIT: u64 = 1_048_576;

// Whether node i has places for more rows than the limit.
fn too_many_rows(pack: &[u8], i: u32) -> bool
    ensures { result ≡ ltb 1_048_576 (places pack.now i) }
{
    let n = node_at(pack, i);
    ROW_LIMIT < n.skip as u64 + n.rows as u64
}

// Whether node i, a child of node p, is one of a struct or union and has other rows than it.
fn other_rows(pack: &[u8], p: u32, i: u32) -> bool
    ensures { result ≡ ((of_kind 10 pack.now p || of_kind 11 pack.now p)
        && not (eqb (rows pack.now i) (rows pack.now p))) }
{
    let above = node_at(pack, p);
    let n = node_at(pack, i);
    let kind = Kind::from(above.kind);
    let shares = (kind == Kind::Struct) | (kind == Kind::Union);
    shares & (n.rows != above.rows)
}

// 6, of all nodes; the second test of all below the root.
pub fn wrong_rows(pack: &[u8]) -> bool
    requires { node_count pack.now ≤ 64 }
    ensures { result ≡ wrong_rows pack.now }
{
    let n = node_count(pack);
    let root = node_at(pack, 0);
    let parents = parents_of(pack);
    let many = (0..n).any(|i| too_many_rows(pack, i));
    let other = (1..n).any(|i| other_rows(pack, parents[i as usize], i));
    many | (trailer_of(pack).root_rows != root.rows) | other
}
