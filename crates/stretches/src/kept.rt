// The runs of kept rows of a node, one after another.
ghost use Rattle.std.specs.Prelude.{◌≡◌, ◌<◌, ◌≤◌};
ghost use Rattle.format.specs.Node.{node_count, rows};
ghost use Rattle.stretches.specs.Stretches.{bytes_in};

use crate::told::Stretches;
use nesting::Counted;

// The runs of a node's kept rows that start at row `at` or behind it, each as its start and its end, [start, end). A run may be several stretches.
#[derive(Drop)]
pub struct KeptRuns<'a> {
    stretches: Stretches<'a>,
    node: usize,
    len: usize,
    at: usize,
    ghost inside: { node < node_count (bytes_in stretches.counted) },
    ghost known: { node ≤ stretches.counted.known },
    ghost long: { len ≡ rows (bytes_in stretches.counted) node },
    ghost within: { at ≤ len },
}

impl<'a> KeptRuns<'a> {
    ghost use Rattle.stretches.specs.Kept.{Begun};

    pub fn new(counted: Counted<'a>, node: usize) -> KeptRuns<'a>
        requires inside { node < node_count (bytes_in counted) }
        requires known { node ≤ counted.known }
        ensures { Begun counted.entry node result }
    {
        KeptRuns {
            stretches: Stretches::new(counted),
            node,
            len: counted.journal.rows(node),
            at: 0,
        }
    }
}

impl<'a> Iterator for KeptRuns<'a> {
    type Item = (usize, usize);

    ghost use Rattle.std.specs.Iterator.{item_count, YieldsFirst};
    ghost use Rattle.stretches.specs.Kept.{runs_left};

    ghost next_gives = { YieldsFirst runs_left };

    ghost remaining = { item_count runs_left };

    // The next run; the iterator then stands behind the rows that end it.
    fn next(&mut self) -> Option<(usize, usize)> {
        let mut from = self.at;
        let mut to = from;
        // No `for`: all rows that were told at once are passed at once.
        while self.at < self.len {
            let stretch = self.stretches.told(self.node, self.at);
            self.at = stretch.end;
            if stretch.kept {
                to = stretch.end;
            } else if from < to {
                break;
            } else {
                from = stretch.end;
                to = from;
            }
        }
        (from < to).then_some((from, to))
    }
}
