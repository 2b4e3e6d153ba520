// A node's rows that an extract keeps.
ghost use Rattle.std.specs.Prelude.{◌≡◌, ◌<◌, ◌≤◌};
ghost use Rattle.format.specs.Node.{node_count, rows, kind};
ghost use Rattle.pack.specs.Read.{node_of};
ghost use Rattle.predicate.specs.Selection.{reach, Sourced};
ghost use Rattle.predicate.proofs.Props.{sourced_prop};

use format::Kind;
use journal::Journal;
use pack::Node;
use predicate::Selection;

// Node `index` of an accepted journal, and a selection of its rows.
#[derive(Clone, Copy)]
pub struct Picked<'a> {
    pub journal: &'a Journal<'a>,
    pub index: usize,
    pub sel: Selection<'a>,
    pub ghost inside: { index < node_count journal.now.bytes.now },
    pub ghost sourced: { Sourced sel } by { sourced_prop sel },
    pub ghost short: { reach sel ≤ rows journal.now.bytes.now index },
}

impl Picked<'_> {
    // The node's fields.
    pub fn node(self) -> Node
        ensures { result ≡ node_of self.entry.journal.now.bytes.now self.entry.index }
    {
        self.journal.node(self.index)
    }

    // The node's kind.
    pub fn kind(self) -> Kind
        ensures { result ≡ kind self.entry.journal.now.bytes.now self.entry.index }
    {
        self.journal.kind(self.index)
    }
}
