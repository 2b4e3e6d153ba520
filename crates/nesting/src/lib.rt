// What the nodes of an accepted journal hand on to their children: rows, runs, or the child rows of lists; and the node whose rows a node keeps.
#![tactic(auto)]

pub mod edges;
pub mod lists;
pub mod top;

ghost use Rattle.std.specs.Prelude.{◌≡◌, ◌<◌, ◌≤◌, ◌&&◌, ◌||◌, eqb, length};
ghost use Rattle.format.specs.Node.{node_count, no_bitmap};
ghost use Rattle.format.specs.Kept.{kept_rows};
ghost use Rattle.nesting.specs.Rows.{by_offsets, picks_in, Ready};
ghost use Rattle.nesting.specs.Facts.{Ready-prop};
ghost use Rattle.nesting.specs.Hands.{Hands};

pub use edges::Runs;
use format::Kind;
use journal::Journal;
pub use lists::List;
use pack::read::node_at;
use pack::{NO_BITMAP, Node};
use slots::Source;

// What a node hands on to its children: its own rows, the runs in which it keeps a row, the child rows of its valid rows, or all rows of each child.
#[derive(Clone, Copy)]
pub enum Handing<'a> {
    Rows,
    Runs(Runs<'a>),
    List(List<'a>),
    All,
}

impl<'a> Handing<'a> {
    // What node i hands on. A node that may have no children counts as one that hands on all.
    pub fn of(journal: &'a Journal<'a>, i: usize) -> Handing<'a>
        requires { i < node_count journal.now.bytes.now }
        ensures { Hands journal.now.bytes.now i result }
    {
        match journal.kind(i) {
            Kind::Struct => Handing::Rows,
            Kind::Union => Handing::Rows,
            Kind::Runs => Handing::Runs(Runs::new(journal, i)),
            Kind::Nested32 => Handing::List(List::new(journal, i, 4)),
            Kind::Nested64 => Handing::List(List::new(journal, i, 8)),
            _ => Handing::All,
        }
    }
}

// Of the first `known` nodes, how many rows each keeps where the root keeps the source's picked slots.
#[derive(Clone, Copy)]
pub struct Counted<'a> {
    pub source: Source<'a>,
    pub journal: &'a Journal<'a>,
    pub counts: &'a [usize; 64],
    pub known: usize,
    pub ghost ready: { Ready journal.now.bytes.now (picks_in source) counts.now known } by { Ready-prop journal.now.bytes.now (picks_in source) counts.now known },
}

impl<'a> Counted<'a> {
    // How many rows node i keeps.
    pub fn kept(self, i: usize) -> usize
        requires { (i < self.known) × (i < node_count self.journal.now.bytes.now) }
        ensures { result ≡ length (kept_rows self.entry.journal.now.bytes.now (picks_in self.entry.source) i) }
    {
        self.counts[i]
    }
}

// A node of this kind has a bitmap in scratch for its child: runs and lists.
#[tactic(auto, using(crate::proofs::Handed::takes_yes, crate::proofs::Handed::takes_no))]
pub fn takes_scratch(kind: u32) -> bool
    ensures { result ≡ (eqb kind 9 || eqb kind 13 || eqb kind 14) }
{
    matches!(
        Kind::from(kind),
        Kind::Runs | Kind::Nested32 | Kind::Nested64
    )
}

// A list with no bitmap.
fn plain_list(kind: u32, validity: u32) -> bool
    ensures { result ≡ ((eqb kind 13 || eqb kind 14) && eqb validity no_bitmap) }
{
    matches!(Kind::from(kind), Kind::Nested32 | Kind::Nested64) & (validity == NO_BITMAP)
}

// Entries of a width, with no bitmap.
fn plain_entries(kind: u32, validity: u32) -> bool
    ensures { result ≡ ((eqb kind 2 || eqb kind 3) && eqb validity no_bitmap) }
{
    matches!(Kind::from(kind), Kind::Native | Kind::Fixed) & (validity == NO_BITMAP)
}

// Such entries as node i under such a list as node i - 1.
fn listed(list: Node, entries: Node) -> bool
    ensures { result ≡ (((eqb list.kind 13 || eqb list.kind 14) && eqb list.validity_at no_bitmap)
        && ((eqb entries.kind 2 || eqb entries.kind 3) && eqb entries.validity_at no_bitmap)) }
{
    plain_list(list.kind, list.validity_at) & plain_entries(entries.kind, entries.validity_at)
}

// Node i is such entries under such a list: its rows are copied by the list's own offsets, so it takes no bitmap in scratch (why, docs/DECISIONS.md, 71).
pub fn by_offsets(pack: &[u8], i: usize) -> bool
    requires { (i < node_count pack.now) × (node_count pack.now ≤ 64) }
    ensures { result ≡ by_offsets pack.now i }
{
    if i == 0 {
        return false;
    }
    listed(node_at(pack, i as u32 - 1), node_at(pack, i as u32))
}

// The same of an accepted journal, whose nodes are read without a test of each byte's place.
pub fn copied_by_offsets(journal: &Journal, i: usize) -> bool
    requires { i < node_count journal.now.bytes.now }
    ensures { result ≡ by_offsets journal.now.bytes.now i }
{
    if i == 0 {
        return false;
    }
    listed(journal.node(i - 1), journal.node(i))
}
