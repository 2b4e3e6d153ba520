// Lists one below another, from the mask's own rows down and none with a bitmap: a run of picked rows hands on one range at each level, from where its first row
// starts to where the row behind its last would. So the rows of the innermost child are counted by the mask's words and their runs.
ghost use Rattle.std.specs.Prelude.{◌≡◌, ◌^◌, ◌<◌};
ghost use Rattle.std.specs.Option.{ForSome};
ghost use Rattle.format.specs.Node.{node_count, rows};
ghost use Rattle.format.specs.Rows.{set_rows, Below};
ghost use Rattle.nesting.specs.Rows.{picks_in, Sifted};
ghost use Rattle.spans.specs.Spans.{spans};
ghost use Rattle.list_counts.specs.Chains.{followed, Bare, Reaches, Descends, Climbed};

use journal::Journal;
use nesting::top::top_of;
use nesting::{Handing, List};
use scan::PickedWords;
use slots::Source;
use spans::Offsets;
use words::RowRuns;

// How many levels are followed: a pack is at most 8 nodes deep, so no node has more lists above it.
const DEEPEST: usize = 8;

// Lists one below another, innermost first: where the offsets of each stand in a journal's bytes. An array and how much of it is used: project rule (no heap).
#[derive(Clone, Copy)]
pub struct Levels<'a> {
    pub bytes: &'a [u8],
    pub offsets: [Offsets; 8],
    pub depth: usize,
}

// Node i as a list, where it is one without a bitmap.
pub fn bare_list<'a>(journal: &'a Journal<'a>, i: usize) -> Option<List<'a>>
    requires { i < node_count journal.now.bytes.now }
    ensures { ForSome result (Bare journal.now.bytes.now i) }
{
    match Handing::of(journal, i) {
        Handing::List(list) => list.bare().then_some(list),
        _ => None,
    }
}

// The lists above a node up to the root's rows, if nothing else stands between, and none has a bitmap.
pub fn levels_above<'a>(journal: &'a Journal<'a>, node: usize) -> Option<Levels<'a>>
    requires { (0 < node) × (node < node_count journal.now.bytes.now) }
    ensures { ForSome result (Climbed journal.now.bytes.now node) }
{
    let mut offsets = [Offsets { first: 0, width: 0 }; DEEPEST];
    let mut t = node;
    for k in 0..DEEPEST {
        let list = bare_list(journal, journal.parent(t))?;
        offsets[k] = Offsets::of(list);
        t = top_of(journal, list.node);
        if t == 0 {
            return Some(Levels {
                bytes: journal.bytes,
                offsets,
                depth: k + 1,
            });
        }
    }
    None
}

impl<'a> Levels<'a> {
    // Where a row starts below all levels.
    fn follow(&self, row: usize) -> usize
        requires { Reaches self.now.bytes.now self.now.offsets self.now.depth row }
        ensures { result ≡ followed self.now.bytes.now self.now.offsets self.now.depth row }
    {
        let mut r = row;
        for k in (0..self.depth).rev() {
            r = self.offsets[k].get(self.bytes, r);
        }
        r
    }

    // How much the rows base + k for the set bits k of a word span below all levels: run by run.
    fn word_chain(&self, base: usize, word: u64) -> usize
        requires descends { Descends self.now.bytes.now self.now.offsets self.now.depth }
        requires below { Below (rows self.now.bytes.now 0) (set_rows base word) }
        requires word_bound { spans (followed self.now.bytes.now self.now.offsets self.now.depth) (set_rows base word) < 2 ^ 64 }
        ensures { result ≡ spans (followed self.now.bytes.now self.now.offsets self.now.depth) (set_rows base word) }
    {
        let mut sum: usize = 0;
        for (from, to) in RowRuns::new(base, word) {
            let end = self.follow(to);
            sum += end - self.follow(from);
        }
        sum
    }

    // How much the picked rows span below all levels.
    pub fn count_picked(&self, source: Source) -> usize
        requires descends { Descends self.now.bytes.now self.now.offsets self.now.depth }
        requires sifted { Sifted (picks_in source) (rows self.now.bytes.now 0) }
        ensures { result ≡ spans (followed self.now.bytes.now self.now.offsets self.now.depth) (picks_in source.entry) }
    {
        let mut sum: usize = 0;
        for (base, word) in PickedWords::new(source) {
            sum += self.word_chain(base, word);
        }
        sum
    }
}
