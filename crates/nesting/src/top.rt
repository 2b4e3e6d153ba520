// The node whose rows a node keeps, and whether that is the root: struct and union alone stand between them.
ghost use Rattle.std.specs.Prelude.{◌≡◌, ◌<◌};
ghost use Rattle.format.specs.Node.{node_count, kind};
ghost use Rattle.nesting.specs.Rows.{AtRoot, Top};
ghost use Rattle.nesting.specs.Hands.{shares};

use format::Kind;
use journal::Journal;

// Whether a node of a kind hands on its own rows.
fn shares(kind: Kind) -> bool
    ensures { result ≡ shares kind }
{
    matches!(kind, Kind::Struct | Kind::Union)
}

// The node whose rows this one keeps: climbed to as long as the parent is a struct or a union.
pub fn top_of(journal: &Journal, node: usize) -> usize
    requires { node < node_count journal.now.bytes.now }
    ensures { Top journal.now.bytes.now node result }
{
    let mut i = node;
    // A climb from parent to parent: no plainer as a range.
    while 0 < i && shares(journal.kind(journal.parent(i))) {
        i = journal.parent(i);
    }
    i
}

// Whether the node keeps the root's rows.
pub fn at_root(journal: &Journal, node: usize) -> bool
    requires { node < node_count journal.now.bytes.now }
    ensures { AtRoot journal.now.bytes.now node result }
{
    top_of(journal, node) == 0
}
