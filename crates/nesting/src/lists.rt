// A list whose child rows follow one another: where the child rows of each row start, and which rows are valid.
ghost use Rattle.std.specs.Prelude.{◌≡◌, ◌+◌, ◌*◌, ◌^◌, ◌≤◌, ◌<◌, suc};
ghost use Rattle.std.specs.Int.Bits.{bit_and};
ghost use Rattle.std.proofs.Props.{props};
ghost use Rattle.format.specs.Node.{node_count, kind, rows, skip, first_at, has_no_bitmap, valid, first_number};
ghost use Rattle.format.specs.Slots.{word_from};
ghost use Rattle.format.specs.Accepted.{Nests};
ghost use Rattle.journal.specs.Marks.{first_mark};
ghost use Rattle.nesting.specs.Rows.{AtList};
ghost use Rattle.nesting.specs.Facts.{AtList-prop};

use journal::Journal;
use words::read_number;

// A list with offsets of `width` bytes, of which row 0's stands at `first`, behind those of skipped rows; and where row 0's validity bit stands, if it has a bitmap.
#[derive(Clone, Copy)]
pub struct List<'a> {
    pub journal: &'a Journal<'a>,
    pub node: usize,
    pub width: usize,
    pub first: usize,
    marks: Option<usize>,
    pub ghost at: { AtList journal.now.bytes.now width node } by { AtList-prop journal.now.bytes.now width node },
    pub ghost begins: { first ≡ first_at journal.now.bytes.now node + width * skip journal.now.bytes.now node },
    ghost marked: { marks ≡ first_mark journal.now.bytes.now node } by { Prim.hlevel props },
}

impl<'a> List<'a> {
    pub fn new(journal: &'a Journal<'a>, node: usize, width: usize) -> List<'a>
        requires inside { node < node_count journal.now.bytes.now }
        requires is_list { Nests width (kind journal.now.bytes.now node) }
        ensures { (result.journal ≡ journal.entry) × (result.node ≡ node) × (result.width ≡ width) }
    {
        let n = journal.node(node);
        let first = n.first_at as usize + width * (n.skip as usize);
        List {
            journal,
            node,
            width,
            first,
            marks: journal.marks(node),
        }
    }

    // How many rows it has.
    pub fn rows(self) -> usize
        ensures { result ≡ rows self.entry.journal.now.bytes.now self.entry.node }
    {
        self.journal.rows(self.node)
    }

    // How many rows its child has.
    pub fn child_rows(self) -> usize
        ensures { result ≡ rows self.entry.journal.now.bytes.now (suc self.entry.node) }
    {
        self.journal.rows(self.node + 1)
    }

    // Whether it has no bitmap.
    pub fn bare(self) -> bool
        ensures { result ≡ has_no_bitmap self.entry.journal.now.bytes.now self.entry.node }
    {
        self.marks.is_none()
    }

    // Where the child rows of row r start; those of the last row end where a row behind it would start.
    pub fn start(self, r: usize) -> usize
        requires { r ≤ rows self.journal.now.bytes.now self.node }
        ensures { result ≡ first_number self.entry.width self.entry.journal.now.bytes.now self.entry.node r }
    {
        read_number(self.journal.bytes, self.first + self.width * r, self.width) as usize
    }

    // Row r is valid.
    pub fn valid(self, r: usize) -> bool
        requires { r < rows self.journal.now.bytes.now self.node }
        ensures { result ≡ valid self.entry.journal.now.bytes.now self.entry.node r }
    {
        match self.marks {
            None => true,
            Some(first) => slots::bit(self.journal.bytes, first + r),
        }
    }

    // Of the rows base + k for the set bits k of a word, the valid ones.
    pub fn valid_rows(self, base: usize, word: u64) -> u64
        requires { base < 2 ^ 63 }
        ensures { result ≡ bit_and word (word_from (valid self.entry.journal.now.bytes.now self.entry.node) 64 base) }
    {
        match self.marks {
            None => word,
            Some(first) => word & slots::load64(self.journal.bytes, first + base),
        }
    }
}
