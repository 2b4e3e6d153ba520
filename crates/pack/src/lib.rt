// Packs: reading trailer and nodes out of any bytes; the tree that the nodes write.
#![tactic(auto)]

pub mod frame;
mod open_nodes;
pub mod read;
pub mod tree;

// Validity at this place: no bitmap.
pub const NO_BITMAP: u32 = 0xFFFF_FFFF;

// The trailer: the last 16 bytes.
#[derive(Clone, Copy, Debug, PartialEq, Eq)]
pub struct Trailer {
    pub table_start: u32,
    pub node_count: u32,
    pub root_rows: u32,
    pub mark: u32,
}

// A node: its ten fields, in order.
#[derive(Clone, Copy, Debug, PartialEq, Eq)]
pub struct Node {
    pub kind: u32,
    pub param: u32,
    pub rows: u32,
    pub skip: u32,
    pub kids: u32,
    pub validity_at: u32,
    pub first_at: u32,
    pub second_at: u32,
    pub second_length: u32,
    pub last_field: u32,
}

impl Node {
    ghost use Rattle.std.specs.Prelude.{◌≡◌, None, Some, cond, eqb};
    ghost use Rattle.format.specs.Node.{no_bitmap};

    // Where its validity bitmap stands, if it has one.
    pub fn bitmap(self) -> Option<usize>
        ensures { result ≡ cond (eqb self.validity_at no_bitmap) None (Some self.validity_at) }
    {
        (self.validity_at != NO_BITMAP).then_some(self.validity_at as usize)
    }
}

// Where a node stands in the tree: its parent, and its depth. The root's are 0 and 1.
#[derive(Clone, Copy, Debug, PartialEq, Eq)]
pub struct Place {
    pub parent: u32,
    pub depth: u32,
}

// Each node's place in the tree, and how many nodes are still open after the last.
#[derive(Clone, Copy, Debug, PartialEq, Eq)]
pub struct Walk {
    pub places: [Place; 64],
    pub unclosed: usize,
}
