// A runs node: each run is a range of its rows, from the end of the run before it to its own.
ghost use Rattle.std.specs.Prelude.{◌≡◌, ◌+◌, ◌≤◌, ◌<◌, suc, length};
ghost use Rattle.format.specs.Node.{node_count, param, rows, skip, first_at, run_end, run_start};
ghost use Rattle.format.specs.Kept.{kept_rows};
ghost use Rattle.nesting.specs.Rows.{picks_in, edge, HasRuns, AtRuns, KeepsRoot};
ghost use Rattle.nesting.specs.Facts.{AtRuns-prop};

use journal::Journal;
use slots::Source;
use words::read_number;

// A runs node. Where its first run end stands, how many bytes each has, and how many rows are skipped, is read once.
#[derive(Clone, Copy)]
pub struct Runs<'a> {
    pub journal: &'a Journal<'a>,
    pub node: usize,
    first: usize,
    width: usize,
    skipped: usize,
    pub ghost at: { AtRuns journal.now.bytes.now node } by { AtRuns-prop journal.now.bytes.now node },
    ghost begins: { first ≡ first_at journal.now.bytes.now node },
    ghost wide: { width ≡ param journal.now.bytes.now node },
    ghost skips: { skipped ≡ skip journal.now.bytes.now node },
}

impl<'a> Runs<'a> {
    pub fn new(journal: &'a Journal<'a>, node: usize) -> Runs<'a>
        requires inside { node < node_count journal.now.bytes.now }
        requires is_runs { HasRuns journal.now.bytes.now node }
        ensures { (result.journal ≡ journal.entry) × (result.node ≡ node) }
    {
        let n = journal.node(node);
        Runs {
            journal,
            node,
            first: n.first_at as usize,
            width: n.param as usize,
            skipped: n.skip as usize,
        }
    }

    // How many runs there are: the rows of its child.
    pub fn count(self) -> usize
        ensures { result ≡ rows self.entry.journal.now.bytes.now (suc self.entry.node) }
    {
        self.journal.rows(self.node + 1)
    }

    // How many rows are skipped.
    pub fn skip(self) -> usize
        ensures { result ≡ skip self.entry.journal.now.bytes.now self.entry.node }
    {
        self.skipped
    }

    // Where run j ends.
    pub fn end(self, j: usize) -> usize
        requires { j < rows self.journal.now.bytes.now (suc self.node) }
        ensures { result ≡ run_end self.entry.journal.now.bytes.now self.entry.node j }
    {
        read_number(self.journal.bytes, self.first + self.width * j, self.width) as usize
    }

    // Where it starts: at the end before it.
    pub fn start(self, j: usize) -> usize
        requires { j < rows self.journal.now.bytes.now (suc self.node) }
        ensures { result ≡ run_start self.entry.journal.now.bytes.now self.entry.node j }
    {
        if j == 0 {
            return 0;
        }
        self.end(j - 1)
    }

    // Where run j ends among len rows, counted after skip.
    pub fn end_edge(self, j: usize, len: usize) -> usize
        requires { j < rows self.journal.now.bytes.now (suc self.node) }
        ensures { result ≡ edge self.entry.journal.now.bytes.now self.entry.node len (j + 1) }
    {
        self.end(j).saturating_sub(self.skipped).min(len)
    }

    // How many runs have a picked slot, where the node keeps the root's rows. Each run end is read once.
    pub fn picked(self, source: Source) -> usize
        requires { KeepsRoot self.journal.now.bytes.now self.node }
        ensures { result ≡ length (kept_rows self.entry.journal.now.bytes.now (picks_in source.entry) (suc self.entry.node)) }
    {
        let mut n: usize = 0;
        let mut lo: usize = 0;
        for j in 0..self.count() {
            let hi = self.end_edge(j, source.bits.len);
            n += usize::from(scan::any_within(source, lo, hi));
            lo = hi;
        }
        n
    }
}
