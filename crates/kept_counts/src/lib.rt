// How many rows each node keeps, without a buffer: by the mask's words where it can be, and else by runs of kept rows.
#![tactic(auto)]

ghost use Rattle.std.specs.Prelude.{◌≡◌, true, ◌≤◌, ◌<◌, suc, length};
ghost use Rattle.format.specs.Node.{node_count, has_no_bitmap};
ghost use Rattle.format.specs.Kept.{kept_rows};
ghost use Rattle.nesting.specs.Rows.{picks_in};

use list_counts::chain::{bare_list, levels_above};
use list_counts::count_spans;
use nesting::top::at_root;
use nesting::{Counted, Handing, List};
use stretches::KeptRuns;

// How many rows of the node are kept, run by run.
fn count_rows(counted: Counted, node: usize) -> usize
    requires inside { node < node_count counted.journal.now.bytes.now }
    requires known { node ≤ counted.known }
    ensures { result ≡ length (kept_rows counted.entry.journal.now.bytes.now (picks_in counted.entry.source) node) }
{
    let mut n: usize = 0;
    for (from, to) in KeptRuns::new(counted, node) {
        n += to - from;
    }
    n
}

// How many child rows the kept rows of a list without a bitmap have, run by run.
fn count_listed(counted: Counted, list: List) -> usize
    requires here { list.journal.now.bytes.now ≡ counted.journal.now.bytes.now }
    requires known { list.node ≤ counted.known }
    requires bare { has_no_bitmap counted.journal.now.bytes.now list.node ≡ true }
    ensures { result ≡ length (kept_rows counted.entry.journal.now.bytes.now (picks_in counted.entry.source) (suc list.entry.node)) }
{
    let mut n: usize = 0;
    for (from, to) in KeptRuns::new(counted, list.node) {
        n += list.start(to) - list.start(from);
    }
    n
}

// How many rows of a child of runs or of a list are kept, where its parent does not keep the root's rows.
fn count_below(counted: Counted, node: usize) -> usize
    requires inside { (0 < node) × (node < node_count counted.journal.now.bytes.now) }
    requires known { node ≤ counted.known }
    ensures { result ≡ length (kept_rows counted.entry.journal.now.bytes.now (picks_in counted.entry.source) node) }
{
    let journal = counted.journal;
    if let Some(levels) = levels_above(journal, node) {
        return levels.count_picked(counted.source);
    }
    // A list without a bitmap is asked for its own rows: one step upward less.
    match bare_list(journal, journal.parent(node)) {
        Some(list) => count_listed(counted, list),
        None => count_rows(counted, node),
    }
}

// How many rows of a node below the root are kept, where this is known of the nodes before it: only the children of runs and of lists are looked at.
pub fn count_kept(counted: Counted, node: usize) -> usize
    requires inside { (0 < node) × (node < node_count counted.journal.now.bytes.now) }
    requires known { node ≤ counted.known }
    ensures { result ≡ length (kept_rows counted.entry.journal.now.bytes.now (picks_in counted.entry.source) node) }
{
    let journal = counted.journal;
    let p = journal.parent(node);
    match Handing::of(journal, p) {
        Handing::Rows => counted.kept(p),
        Handing::Runs(runs) if at_root(journal, p) => runs.picked(counted.source),
        Handing::List(list) if at_root(journal, p) => count_spans(counted.source, list),
        Handing::Runs(_) | Handing::List(_) => count_below(counted, node),
        Handing::All => {
            if counted.kept(p) == 0 {
                return 0;
            }
            journal.rows(node)
        }
    }
}
