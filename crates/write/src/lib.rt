// A whole extract: the nodes one after another, then the table and the trailer.
#![tactic(auto)]

ghost use Rattle.std.specs.Prelude.{◌≡◌, ◌∷◌, [], ◌+◌, ◌≤◌, length};
ghost use Rattle.format.specs.Node.{node_count, mark};
ghost use Rattle.format.specs.Put.{Wrote};
ghost use Rattle.format.specs.Verdict.{pack_limit};
ghost use Rattle.format.specs.Write.{extract, numbers};
ghost use Rattle.nesting.specs.Rows.{picks_in};
ghost use Rattle.write.specs.Nodes.{NodesTo};

use append::fields::{pad, put_fields};
use body::filter_node;
use regions::Regions;

// The last number of a trailer: the bytes 43 4F 4C 51, the mark of a pack whose nodes carry their null counts (docs/FORMAT.md, 3.1).
const MARK: u32 = 0x514C_4F43;

// The buffers of all nodes, from the front of the output, and their fields. Where the body ends.
fn filter_nodes(out: &mut [u8], fields: &mut [u32], regions: &Regions) -> usize
    requires { (length fields.old ≡ 640) × (length out.old ≤ pack_limit) × (length (extract regions.now.counted.journal.now.bytes.now (picks_in regions.now.counted.source)) ≤ length out.old) }
    ensures { NodesTo regions.now.counted.journal.now.bytes.now (picks_in regions.now.counted.source) (node_count regions.now.counted.journal.now.bytes.now) out.old out.new result fields.new }
{
    let mut at: usize = 0;
    for i in 0..regions.counted.journal.node_count() {
        at = filter_node(out, at, fields, regions, i);
    }
    at
}

// The trailer: where the table starts, how many nodes it has, how many rows the root has, and the mark.
fn put_trailer(out: &mut [u8], at: usize, start: u32, n: u32, kept: u32) -> usize
    requires { at + 16 ≤ length out.old }
    ensures { Wrote out.old at (numbers 4 (start ∷ n ∷ kept ∷ mark ∷ [])) out.new result }
{
    let fields = [start, n, kept, MARK];
    put_fields(out, at, &fields)
}

// The extract, into an output that is as long as it.
pub fn write_extract(out: &mut [u8], regions: &Regions)
    requires { (length out.old ≤ pack_limit) × (length (extract regions.now.counted.journal.now.bytes.now (picks_in regions.now.counted.source)) ≡ length out.old) }
    ensures { out.new ≡ extract regions.now.counted.journal.now.bytes.now (picks_in regions.now.counted.source) }
{
    let counted = regions.counted;
    // The fields as the table has them, ten to a node. No plainer as nodes: they are put behind the body all at once.
    let mut fields = [0u32; 640];
    let n = counted.journal.node_count();
    let end = filter_nodes(out, &mut fields, regions);
    let start = pad(out, end);
    let after = put_fields(out, start, &fields[..10 * n]);
    put_trailer(out, after, start as u32, n as u32, counted.kept(0) as u32);
}
