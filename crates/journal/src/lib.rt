// An accepted journal: its bytes, with each node's fields read where they stand and each node's parent read once.
#![tactic(auto)]

ghost use Rattle.std.specs.Prelude.{◌≡◌, ◌<◌};
ghost use Rattle.format.specs.Node.{table_start, node_count, kind, has_no_bitmap, rows, parent};
ghost use Rattle.format.specs.Accepted.{Sound};
ghost use Rattle.pack.specs.Read.{node_of};
ghost use Rattle.pack.specs.Tree.{Parents};
ghost use Rattle.journal.specs.Marks.{first_mark};
ghost use Rattle.journal.specs.Sound.{Sound-prop};

use format::Kind;
use pack::Node;
use pack::tree::parents_of;
use words::Number;

// A journal that is accepted. Its nodes' parents stand in an array of as many as a pack may have: project rule (no heap).
#[derive(Clone, Copy)]
pub struct Journal<'a> {
    pub bytes: &'a [u8],
    start: usize,
    parents: [u32; 64],
    pub ghost sound: { Sound bytes.now } by { Sound-prop bytes.now },
    ghost starts: { start ≡ table_start bytes.now },
    ghost above: { Parents bytes.now parents },
}

impl<'a> Journal<'a> {
    // The journal of accepted bytes.
    pub fn new(bytes: &'a [u8]) -> Journal<'a>
        requires { Sound bytes.now }
        ensures { result.bytes ≡ bytes.entry }
    {
        Journal {
            bytes,
            start: u32::get(bytes, bytes.len() - 16) as usize,
            parents: parents_of(bytes),
        }
    }

    // How many nodes there are.
    pub fn node_count(&self) -> usize
        ensures { result ≡ node_count self.now.bytes.now }
    {
        u32::get(self.bytes, self.bytes.len() - 12) as usize
    }

    // Node i.
    pub fn node(&self, i: usize) -> Node
        requires { i < node_count self.now.bytes.now }
        ensures { result ≡ node_of self.now.bytes.now i }
    {
        let at = self.start + 40 * i;
        let field = |k: usize| u32::get(self.bytes, at + 4 * k);
        Node {
            kind: field(0),
            param: field(1),
            rows: field(2),
            skip: field(3),
            kids: field(4),
            validity_at: field(5),
            first_at: field(6),
            second_at: field(7),
            second_length: field(8),
            last_field: field(9),
        }
    }

    // Node i's kind.
    pub fn kind(&self, i: usize) -> Kind
        requires { i < node_count self.now.bytes.now }
        ensures { result ≡ kind self.now.bytes.now i }
    {
        Kind::from(self.node(i).kind)
    }

    // How many rows node i has.
    pub fn rows(&self, i: usize) -> usize
        requires { i < node_count self.now.bytes.now }
        ensures { result ≡ rows self.now.bytes.now i }
    {
        self.node(i).rows as usize
    }

    // Whether node i has no bitmap.
    pub fn has_no_bitmap(&self, i: usize) -> bool
        requires { i < node_count self.now.bytes.now }
        ensures { result ≡ has_no_bitmap self.now.bytes.now i }
    {
        self.marks(i).is_none()
    }

    // Where row 0's validity bit of node i stands, behind those of skipped rows, if it has a bitmap.
    pub fn marks(&self, i: usize) -> Option<usize>
        requires { i < node_count self.now.bytes.now }
        ensures { result ≡ first_mark self.now.bytes.now i }
    {
        let n = self.node(i);
        let at = n.bitmap()?;
        Some(8 * at + n.skip as usize)
    }

    // The node above node i.
    pub fn parent(&self, i: usize) -> usize
        requires { i < node_count self.now.bytes.now }
        ensures { result ≡ parent self.now.bytes.now i }
    {
        self.parents[i] as usize
    }
}
