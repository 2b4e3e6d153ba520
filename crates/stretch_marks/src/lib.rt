// The bitmap of the rows that a node keeps, in scratch: zeros, then each run of kept rows marked at once.
#![tactic(auto)]

ghost use Rattle.std.specs.Prelude.{◌≡◌, ◌≤◌, ◌<◌, length};
ghost use Rattle.format.specs.Bytes.{bytes_for, packed};
ghost use Rattle.format.specs.Node.{node_count, rows};
ghost use Rattle.format.specs.Slots.{slots_from};
ghost use Rattle.nesting.specs.Rows.{keeps, picks_in};

use nesting::Counted;
use stretches::KeptRuns;

// The bitmap of the rows that a node keeps, in a slice of its own.
pub fn fill_kept(counted: Counted, node: usize, region: &mut [u8])
    requires inside { node < node_count counted.journal.now.bytes.now }
    requires known { node ≤ counted.known }
    requires size { length region.old ≡ bytes_for (rows counted.journal.now.bytes.now node) }
    ensures { region.new ≡ packed (slots_from (keeps counted.entry.journal.now.bytes.now (picks_in counted.entry.source) node) (rows counted.entry.journal.now.bytes.now node) 0) }
{
    region.fill(0);
    for (from, to) in KeptRuns::new(counted, node) {
        marks::set_ones(region, from, to);
    }
}
