// Rows asked in order are told stretch by stretch: what was told last of each node is kept in mind, so that on a walk over a node's rows no row above is
// looked at twice, however deep the node lies.
ghost use Rattle.std.specs.Prelude.{◌≡◌, suc, ◌<◌, ◌≤◌, replicate};
ghost use Rattle.format.specs.Node.{node_count, rows};
ghost use Rattle.nesting.specs.Rows.{picks_in};
ghost use Rattle.stretches.specs.Stretches.{bytes_in, AlikeRows, Recalled, unseen, noted};

use crate::parts::{list_place, picked, runs_past, valid_to};
use crate::{Place, Seen, Stretch};
use nesting::{Counted, Handing, List, Runs};

// Which rows each node keeps, and what was told last of each of the 64 nodes that a pack may have.
#[derive(Drop)]
pub struct Stretches<'a> {
    counted: Counted<'a>,
    seen: [Seen; 64],
    ghost recalled: { Recalled (bytes_in counted) (picks_in counted.source) seen },
}

impl<'a> Stretches<'a> {
    // Nothing was told yet.
    pub fn new(counted: Counted<'a>) -> Stretches<'a>
        ensures counted { result.counted ≡ counted.entry }
        ensures nothing { result.seen ≡ replicate 64 unseen }
    {
        let stretch = Stretch {
            kept: false,
            end: 0,
        };
        let none = Seen {
            from: 0,
            stretch,
            row: 0,
        };
        Stretches {
            counted,
            seen: [none; 64],
        }
    }

    // Keeps in mind what was told of a node, and a row of the list above it to look from; what is in mind of the other nodes stays.
    fn note(&mut self, node: usize, from: usize, stretch: Stretch, row: usize) -> Stretch
        requires inside { node < node_count (bytes_in self.old.counted) }
        requires alike { AlikeRows self.old.counted node from stretch.kept stretch.end }
        ensures same { self.new.counted ≡ self.old.counted }
        ensures told { result ≡ stretch }
        ensures noted { self.new.seen ≡ noted self.old.seen node from stretch row }
        ensures alike { AlikeRows self.old.counted node from result.kept result.end }
    {
        self.seen[node] = Seen { from, stretch, row };
        stretch
    }

    // Row r of the child of a runs node, a run: kept if one of its rows is. They are asked until one is; the runs after it whose rows were told with it are
    // like it.
    #[cycle(told)]
    fn told_run(&mut self, runs: Runs<'a>, r: usize) -> Stretch
        requires here { runs.journal.now.bytes.now ≡ bytes_in self.old.counted }
        requires known { runs.node < self.old.counted.known }
        requires row { r < rows (bytes_in self.old.counted) (suc runs.node) }
        ensures same { self.new.counted ≡ self.old.counted }
        ensures alike { AlikeRows self.old.counted (suc runs.entry.node) r result.kept result.end }
    {
        let hi = runs.end_edge(r, runs.journal.rows(runs.node));
        let mut x = runs.start(r).saturating_sub(runs.skip());
        // No `for`: all rows that were told at once are passed at once.
        while x < hi {
            let s = self.told(runs.node, x);
            if s.kept {
                let end = runs_past(runs, r, s.end);
                return self.note(runs.node + 1, r, Stretch { kept: true, end }, 0);
            }
            x = s.end;
        }
        let end = runs_past(runs, r, x);
        self.note(runs.node + 1, r, Stretch { kept: false, end }, 0)
    }

    // Row x of the child of a list: kept if the list row that has it is valid and kept. So are those of the valid rows after it that are told with it.
    #[cycle(told)]
    fn told_list(&mut self, list: List<'a>, x: usize) -> Stretch
        requires here { list.journal.now.bytes.now ≡ bytes_in self.old.counted }
        requires known { list.node < self.old.counted.known }
        requires row { x < rows (bytes_in self.old.counted) (suc list.node) }
        ensures same { self.new.counted ≡ self.old.counted }
        ensures alike { AlikeRows self.old.counted (suc list.entry.node) x result.kept result.end }
    {
        let node = list.node + 1;
        match list_place(list, x, self.seen[node].row) {
            Place::Gap(end, row) => self.note(node, x, Stretch { kept: false, end }, row),
            Place::Row(q) => {
                let s = self.told(list.node, q);
                let row = if s.kept {
                    valid_to(list, q, s.end)
                } else {
                    s.end
                };
                let end = list.start(row);
                self.note(node, x, Stretch { kept: s.kept, end }, row)
            }
        }
    }

    // Row r of the node and the rows after it that are like it: kept, or not.
    #[cycle(told)]
    pub fn told(&mut self, node: usize, r: usize) -> Stretch
        requires known { node ≤ self.old.counted.known }
        requires inside { node < node_count (bytes_in self.old.counted) }
        requires row { r < rows (bytes_in self.old.counted) node }
        ensures same { self.new.counted ≡ self.old.counted }
        ensures alike { AlikeRows self.old.counted node r result.kept result.end }
    {
        let seen = self.seen[node];
        if (seen.from <= r) & (r < seen.stretch.end) {
            return seen.stretch;
        }
        let counted = self.counted;
        let journal = counted.journal;
        let len = journal.rows(node);
        if node == 0 {
            let stretch = picked(counted.source, r, len);
            return self.note(node, r, stretch, 0);
        }
        let p = journal.parent(node);
        match Handing::of(journal, p) {
            Handing::Rows => self.told(p, r),
            Handing::Runs(runs) => self.told_run(runs, r),
            Handing::List(list) => self.told_list(list, r),
            Handing::All => Stretch {
                kept: 0 < counted.kept(p),
                end: len,
            },
        }
    }
}
