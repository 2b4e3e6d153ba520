// What is asked on the way, of the mask, of one list and of one node's runs.
ghost use Rattle.std.specs.Prelude.{◌≡◌, false, suc, ◌≤◌, ◌<◌};
ghost use Rattle.format.specs.Node.{rows, valid};
ghost use Rattle.format.specs.Slots.{Sought};
ghost use Rattle.slots.specs.Slot.{slot_in};
ghost use Rattle.stretches.specs.Stretches.{Alike, Before, Past, Ended, Found};

use crate::{Place, Stretch};
use nesting::{List, Runs};
use slots::Source;

// How far the slots from r on are picked, or are not, among len rows.
pub fn picked(source: Source, r: usize, len: usize) -> Stretch
    requires { r < len }
    ensures { Alike (slot_in source.entry) r len result.kept result.end }
{
    match scan::next_run(source, r) {
        Some((start, _)) if r < start => Stretch {
            kept: false,
            end: start.min(len),
        },
        Some((_, end)) => Stretch {
            kept: true,
            end: end.min(len),
        },
        None => Stretch {
            kept: false,
            end: len,
        },
    }
}

// A list's row to look from for child row x: the one that served last, where no row before it has x, and else the first.
fn list_from(list: List, x: usize, row: usize) -> usize
    ensures { Before list.entry.width list.entry.journal.now.bytes.now list.entry.node x result }
{
    if list.rows() < row {
        return 0;
    }
    if x < list.start(row) {
        return 0;
    }
    row
}

// A list's first row whose child rows end past x, looked for from such a row on.
fn list_past(list: List, x: usize, row: usize) -> usize
    ensures { Past list.entry.width list.entry.journal.now.bytes.now list.entry.node x result }
{
    let rows = list.rows();
    (list_from(list, x, row)..rows)
        .find(|r| x < list.start(*r + 1))
        .unwrap_or(rows)
}

// Where a list has child row x, looked for from a row on.
pub fn list_place(list: List, x: usize, row: usize) -> Place
    requires { x < rows list.journal.now.bytes.now (suc list.node) }
    ensures { Found list.entry.width list.entry.journal.now.bytes.now list.entry.node x result }
{
    let q = list_past(list, x, row);
    if q == list.rows() {
        return Place::Gap(list.child_rows(), q);
    }
    let start = list.start(q);
    if x < start {
        return Place::Gap(start, q);
    }
    if list.valid(q) {
        return Place::Row(q);
    }
    Place::Gap(list.start(q + 1), q)
}

// How far a list's rows from q on are valid, up to end.
pub fn valid_to(list: List, q: usize, end: usize) -> usize
    requires { (q ≤ end) × (end ≤ rows list.journal.now.bytes.now list.node) }
    ensures { Sought (valid list.entry.journal.now.bytes.now list.entry.node) q end false result }
{
    if list.bare() {
        return end;
    }
    (q..end).find(|r| !list.valid(*r)).unwrap_or(end)
}

// The first run after run r that ends, counted after skip, past row x; or, where there is none, how many runs there are.
pub fn runs_past(runs: Runs, r: usize, x: usize) -> usize
    requires { r < rows runs.journal.now.bytes.now (suc runs.node) }
    ensures { Ended runs.entry.journal.now.bytes.now runs.entry.node r x result }
{
    let count = runs.count();
    let skip = runs.skip();
    (r + 1..count)
        .find(|e| x < runs.end(*e).saturating_sub(skip))
        .unwrap_or(count)
}
