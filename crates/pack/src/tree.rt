// The tree that the nodes write, parent first: each node's parent and depth; and refusal 5.
ghost use Rattle.std.specs.Prelude.{◌≡◌, not, ◌&&◌, eqb, ◌≤◌};
ghost use Rattle.format.specs.Node.{node_count, param, of_kind, has_no_bitmap};
ghost use Rattle.format.specs.Verdict.{wrong_tree};
ghost use Rattle.pack.specs.Tree.{Parents, Walked};

use crate::open_nodes::OpenNodes;
use crate::read::{node_at, node_count};
use crate::{Place, Walk};
use format::Kind;

// A node may be at most this deep.
const DEPTH_LIMIT: u32 = 8;

// Each node's place in the tree.
pub fn walk_of(pack: &[u8]) -> Walk
    requires { node_count pack.now ≤ 64 }
    ensures { Walked pack.now result }
{
    let mut places = [Place {
        parent: 0,
        depth: 0,
    }; 64];
    let mut open = OpenNodes::new();
    for i in 0..node_count(pack) {
        places[i as usize] = Place {
            parent: open.innermost(),
            depth: open.depth() as u32 + 1,
        };
        open.child_came();
        open.push(i, node_at(pack, i).kids);
        open.close();
    }
    Walk {
        places,
        unclosed: open.depth(),
    }
}

// Each node's parent.
pub fn parents_of(pack: &[u8]) -> [u32; 64]
    requires { node_count pack.now ≤ 64 }
    ensures { Parents pack.now result }
{
    walk_of(pack).places.map(|place| place.parent)
}

// Whether node i, a child of node p, is one of a views node and no data buffer: native of width 1, no bitmap.
fn bad_data_buffer(pack: &[u8], p: u32, i: u32) -> bool
    ensures { result ≡ (of_kind 6 pack.now p
        && not (of_kind 2 pack.now i && eqb (param pack.now i) 1 && has_no_bitmap pack.now i)) }
{
    let above = node_at(pack, p);
    let n = node_at(pack, i);
    let views = Kind::from(above.kind) == Kind::Views;
    let native = Kind::from(n.kind) == Kind::Native;
    views & !(native & (n.param == 1) & n.bitmap().is_none())
}

// 5: the tree closes after the last node and not before, so that no node after the first has depth 1; depth; a views node's children.
pub fn wrong_tree(pack: &[u8]) -> bool
    requires { node_count pack.now ≤ 64 }
    ensures { result ≡ wrong_tree pack.now }
{
    let n = node_count(pack);
    let walk = walk_of(pack);
    let early = (1..n).any(|i| walk.places[i as usize].depth == 1);
    let deep = (0..n).any(|i| DEPTH_LIMIT < walk.places[i as usize].depth);
    let buffer = (1..n).any(|i| bad_data_buffer(pack, walk.places[i as usize].parent, i));
    early | (walk.unclosed != 0) | deep | buffer
}
