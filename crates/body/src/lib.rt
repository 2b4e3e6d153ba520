// One node of an extract: its buffers behind the body so far, and its ten fields.
#![tactic(auto)]

ghost use Rattle.std.specs.Prelude.{◌≡◌, true, suc, ◌+◌, ◌*◌, ◌≤◌, ◌<◌, length};
ghost use Rattle.format.specs.Accepted.{Nests};
ghost use Rattle.format.specs.Kept.{kept_node, kept_rows};
ghost use Rattle.format.specs.Node.{node_count, kind};
ghost use Rattle.format.specs.Put.{put};
ghost use Rattle.format.specs.Verdict.{pack_limit};
ghost use Rattle.nesting.specs.Rows.{by_offsets, picks_in};
ghost use Rattle.nodes.specs.Body.{node_body};
ghost use Rattle.node_body.specs.Added.{Added};
ghost use Rattle.body.specs.Written.{column_of, fields_of, put_at, Small, Written};

use format::Kind;
use journal::Journal;
use kept_data::data::any_null;
use nesting::copied_by_offsets;
use node_body::{Buffers, put_buffers, put_values};
use nodes::picked::Picked;
use pack::Node;
use regions::Regions;

// A node of an extract: the journal's own, but for the `kept` rows, their nulls, skip, and where its buffers stand.
fn node_put(own: Node, kept: usize, b: Buffers) -> Node
    requires { Small kept b }
    ensures { result ≡ put_at own kept b }
{
    Node {
        kind: own.kind,
        param: own.param,
        rows: kept as u32,
        skip: 0,
        kids: own.kids,
        validity_at: b.validity as u32,
        first_at: b.first as u32,
        second_at: b.second as u32,
        second_length: b.data as u32,
        last_field: b.nulls as u32,
    }
}

// Its ten fields, behind those of the i nodes before it.
fn put_node(fields: &mut [u32], i: usize, n: Node)
    requires { 10 * i + 10 ≤ length fields.old }
    ensures { fields.new ≡ put fields.old (10 * i) (fields_of n) }
{
    let at = 10 * i;
    fields[at..at + 10].copy_from_slice(&[
        n.kind,
        n.param,
        n.rows,
        n.skip,
        n.kids,
        n.validity_at,
        n.first_at,
        n.second_at,
        n.second_length,
        n.last_field,
    ]);
}

// How many bytes the offsets of list i have.
fn offset_width(journal: &Journal, i: usize) -> usize
    requires inside { i < node_count journal.now.bytes.now }
    requires listed { by_offsets journal.now.bytes.now (suc i) ≡ true }
    ensures { Nests result (kind journal.now.bytes.now i) }
{
    match journal.kind(i) {
        Kind::Nested32 => 4,
        _ => 8,
    }
}

// The buffers of node i + 1, entries under a list, node i: copied by the list's offsets.
fn put_listed(out: &mut [u8], at: usize, regions: &Regions, i: usize) -> Buffers
    requires i_bound { (suc i < node_count regions.now.counted.journal.now.bytes.now) × (by_offsets regions.now.counted.journal.now.bytes.now (suc i) ≡ true) }
    requires room { at + length (node_body at (kept_node regions.now.counted.journal.now.bytes.now (suc i) (kept_rows regions.now.counted.journal.now.bytes.now (picks_in regions.now.counted.source) (suc i)))) ≤ length out.old }
    ensures { Added (kept_node regions.now.counted.journal.now.bytes.now (suc i) (kept_rows regions.now.counted.journal.now.bytes.now (picks_in regions.now.counted.source) (suc i))) out.old at out.new result }
{
    let journal = regions.counted.journal;
    let list = Picked {
        journal,
        index: i,
        sel: regions.rows_of(i),
    };
    put_values(out, at, list, offset_width(journal, i))
}

// The buffers of node i behind the body.
fn put_kept(out: &mut [u8], at: usize, regions: &Regions, i: usize) -> Buffers
    requires i_bound { (i < node_count regions.now.counted.journal.now.bytes.now) × (length out.old ≤ pack_limit) }
    requires room { at + length (node_body at (kept_node regions.now.counted.journal.now.bytes.now i (kept_rows regions.now.counted.journal.now.bytes.now (picks_in regions.now.counted.source) i))) ≤ length out.old }
    ensures { Added (kept_node regions.now.counted.journal.now.bytes.now i (kept_rows regions.now.counted.journal.now.bytes.now (picks_in regions.now.counted.source) i)) out.old at out.new result }
{
    let counted = regions.counted;
    let journal = counted.journal;
    if copied_by_offsets(journal, i) {
        return put_listed(out, at, regions, i - 1);
    }
    let picked = Picked {
        journal,
        index: i,
        sel: regions.rows_of(i),
    };
    put_buffers(out, at, picked, any_null(counted, i), counted.kept(i))
}

// Node i with all that an extract has of it: its buffers behind the body, which ends at `at`, and its fields. Where the body ends then.
pub fn filter_node(
    out: &mut [u8],
    at: usize,
    fields: &mut [u32],
    regions: &Regions,
    i: usize,
) -> usize
    requires i_bound { (i < node_count regions.now.counted.journal.now.bytes.now) × (length fields.old ≡ 640) × (length out.old ≤ pack_limit) }
    requires room { at + length (node_body at (kept_node regions.now.counted.journal.now.bytes.now i (kept_rows regions.now.counted.journal.now.bytes.now (picks_in regions.now.counted.source) i))) ≤ length out.old }
    ensures { Written (column_of regions.now.counted.journal.now.bytes.now i) (kept_node regions.now.counted.journal.now.bytes.now i (kept_rows regions.now.counted.journal.now.bytes.now (picks_in regions.now.counted.source) i)) i
        out.old at out.new result fields.old fields.new }
{
    let counted = regions.counted;
    let b = put_kept(out, at, regions, i);
    let node = node_put(counted.journal.node(i), counted.kept(i), b);
    put_node(fields, i, node);
    b.next
}
