// The bitmap of the runs of a runs node that have a picked slot: eight runs a byte, each run's range of slots asked once.
#![tactic(auto)]

ghost use Rattle.std.specs.Prelude.{◌≡◌, ◌+◌, ◌-◌, ◌*◌, ◌<◌, ◌≤◌, min, suc, length};
ghost use Rattle.format.specs.Bytes.{bytes_for, packed};
ghost use Rattle.format.specs.Node.{rows};
ghost use Rattle.format.specs.Slots.{slots_from, word_from};
ghost use Rattle.nesting.specs.Rows.{hands_on, picks_in, edge};

use nesting::Runs;
use slots::Source;

// At most eight runs as a byte, the first run lowest, and where the run after them starts.
#[derive(Clone, Copy)]
struct Gathered {
    byte: u8,
    next: usize,
}

// Of the runs [from, to), at most eight, the first of which starts at `start`: which have a picked slot.
fn runs_byte(source: Source, runs: Runs, from: usize, to: usize, start: usize) -> Gathered
    requires from_le_to { (from ≤ to) × (to ≤ from + 8) × (to ≤ rows runs.journal.now.bytes.now (suc runs.node)) }
    requires start_value { start ≡ edge runs.journal.now.bytes.now runs.node source.bits.len from }
    ensures byte_value { result.byte ≡ word_from (hands_on runs.entry.journal.now.bytes.now runs.entry.node (picks_in source.entry)) (to - from) from }
    ensures next_value { result.next ≡ edge runs.entry.journal.now.bytes.now runs.entry.node source.entry.bits.len to }
{
    let mut byte: u8 = 0;
    let mut lo = start;
    for r in from..to {
        let hi = runs.end_edge(r, source.bits.len);
        byte += u8::from(scan::any_within(source, lo, hi)) << (r - from);
        lo = hi;
    }
    Gathered { byte, next: lo }
}

// The bitmap of the runs of a runs node that have a picked slot of the source: each byte is made, then stored. Each run end is read once.
pub fn fill_runs(source: Source, runs: Runs, region: &mut [u8])
    requires { length region.old ≡ bytes_for (rows runs.journal.now.bytes.now (suc runs.node)) }
    ensures { region.new ≡ packed (slots_from (hands_on runs.entry.journal.now.bytes.now runs.entry.node (picks_in source.entry)) (rows runs.entry.journal.now.bytes.now (suc runs.entry.node)) 0) }
{
    let count = runs.count();
    let mut lo: usize = 0;
    for place in 0..region.len() {
        let from = 8 * place;
        let g = runs_byte(source, runs, from, count.min(from + 8), lo);
        region[place] = g.byte;
        lo = g.next;
    }
}
