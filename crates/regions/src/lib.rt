// Which rows each node keeps, as a selection that the column filters take.
#![tactic(auto)]

ghost use Rattle.std.specs.Prelude.{◌≡◌, false, ◌≤◌, ◌<◌};
ghost use Rattle.std.proofs.Props.{props};
ghost use Rattle.format.specs.Node.{node_count, rows};
ghost use Rattle.predicate.specs.Selection.{selected, reach, Sourced};
ghost use Rattle.predicate.proofs.Props.{sourced_prop};
ghost use Rattle.nesting.specs.Rows.{by_offsets, picks_in};
ghost use Rattle.fill.specs.Scratch.{Earlier};
ghost use Rattle.regions.specs.Region.{none_or_all, Selects};

use fill::{Teller, told_by};
use nesting::Counted;
use predicate::Selection;

// What tells the rows of each node: the root's as a selection, how many rows each node keeps, and scratch with the bitmaps of kept runs and child rows,
// each from its node's place on.
#[derive(Clone, Copy)]
pub struct Regions<'a> {
    pub counted: Counted<'a>,
    pub sel: Selection<'a>,
    pub scratch: &'a [u8],
    pub places: &'a [usize; 64],
    pub ghost known: { counted.known ≡ node_count counted.journal.now.bytes.now },
    pub ghost rooted: { selected sel ≡ picks_in counted.source },
    pub ghost sourced: { Sourced sel } by { sourced_prop sel },
    pub ghost short: { reach sel ≤ rows counted.journal.now.bytes.now 0 },
    pub ghost filled: { Earlier counted.journal.now.bytes.now (picks_in counted.source) (node_count counted.journal.now.bytes.now) scratch.now places.now } by { Prim.hlevel props },
}

// All rows of a carried node, or none: no bits are read.
fn carried<'a>(kept: usize, len: usize) -> Selection<'a>
    ensures { result ≡ none_or_all kept len }
{
    if kept == 0 {
        return Selection::Nothing;
    }
    Selection::Everything(len)
}

impl<'a> Regions<'a> {
    // The rows that node i keeps, where it is not copied by the offsets of a list. Struct and union hand on their own; a root's are the call's selection, those
    // of a child of runs or of a list are told by its bitmap in scratch, and a carried child keeps all rows or none.
    pub fn rows_of(&self, i: usize) -> Selection<'a>
        requires { (i < node_count self.now.counted.journal.now.bytes.now) × (by_offsets self.now.counted.journal.now.bytes.now i ≡ false) }
        ensures { Selects self.now.counted.journal.now.bytes.now (picks_in self.now.counted.source) i result }
    {
        let counted = self.counted;
        match told_by(counted, self.places, self.scratch, i) {
            Teller::Root => self.sel,
            Teller::Bitmap(source) => Selection::Words(source),
            Teller::Carried(top) => carried(counted.kept(top), counted.journal.rows(top)),
        }
    }
}
