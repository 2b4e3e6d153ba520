// The measure of an extract: how many rows each node keeps, how long the extract is, and how much scratch it takes.
#![tactic(auto)]

mod size;

ghost use Rattle.std.specs.Prelude.{◌≡◌, ◌+◌, ◌*◌, ◌^◌, ◌≤◌, ◌<◌, suc, length};
ghost use Rattle.format.specs.declared.Kind.TheVariants.{Runs};
ghost use Rattle.format.specs.Node.{node_count, kind, rows};
ghost use Rattle.format.specs.Kept.{kept_rows};
ghost use Rattle.format.specs.Write.{extract};
ghost use Rattle.format.specs.Answer.{scratch_needed};
ghost use Rattle.nesting.specs.Rows.{picks_in, Sifted, Counts};
ghost use Rattle.measure.specs.Size.{body_end};

use format::Kind;
use journal::Journal;
use kept_counts::count_kept;
use kept_data::data::{any_null, data_length};
use nesting::{Counted, takes_scratch};
use size::{bytes_for, first_size, grow, has_first, has_second, raise, second_size};
use slots::Source;

// How many rows each node keeps. The root keeps the picked slots, which are counted before: `kept`.
pub fn count_all<'a>(source: Source<'a>, journal: &'a Journal<'a>, kept: usize) -> [usize; 64]
    requires rooted { Sifted (picks_in source) (rows journal.now.bytes.now 0) }
    requires kept_value { kept ≡ length (picks_in source) }
    ensures { Counts journal.now.bytes.now (picks_in source.entry) (node_count journal.now.bytes.now) result }
{
    let mut counts = [0usize; 64];
    counts[0] = kept;
    for i in 1..journal.node_count() {
        let counted = Counted {
            source,
            journal: &*journal,
            counts: &counts,
            known: i,
        };
        counts[i] = count_kept(counted, i);
    }
    counts
}

// How many runs node i keeps, the rows that its child keeps; 0 for a node of another kind.
fn runs_kept(counted: Counted, i: usize, of: Kind) -> usize
    requires known { (i < node_count counted.journal.now.bytes.now) × (counted.known ≡ node_count counted.journal.now.bytes.now) }
    requires of_value { of ≡ kind counted.journal.now.bytes.now i }
    ensures kept { kind counted.entry.journal.now.bytes.now i ≡ Runs → result ≡ length (kept_rows counted.entry.journal.now.bytes.now (picks_in counted.entry.source) (suc i)) }
    ensures none { (kind counted.entry.journal.now.bytes.now i ≡ Runs → ⊥) → result ≡ 0 }
    ensures few { result ≤ 1_048_576 }
{
    match of {
        Kind::Runs => counted.kept(i + 1),
        _ => 0,
    }
}

// The body's length after node i's buffers, from its length before them.
fn node_end(counted: Counted, i: usize, at: usize) -> usize
    requires known { (i < node_count counted.journal.now.bytes.now) × (counted.known ≡ node_count counted.journal.now.bytes.now) }
    requires long { counted.source.bits.len ≤ rows counted.journal.now.bytes.now 0 }
    requires at_value { (at ≤ 2 ^ 39) × (at ≡ body_end counted.journal.now.bytes.now (picks_in counted.source) i) }
    ensures { (result ≡ body_end counted.entry.journal.now.bytes.now (picks_in counted.entry.source) (suc i)) × (result ≤ at + 2 ^ 32) }
{
    let node = counted.journal.node(i);
    let kind = Kind::from(node.kind);
    let kept = counted.kept(i);
    let runs = runs_kept(counted, i, kind);
    let data = data_length(counted, i);
    let validity = grow(at, any_null(counted, i), bytes_for(kept));
    let first = first_size(kind, node.param as usize, kept, runs);
    let second = second_size(kind, kept, data);
    grow(
        grow(validity, has_first(kind), first),
        has_second(kind),
        second,
    )
}

// The body's length. Its table starts there, raised to a multiple of 8.
pub fn body_end(counted: Counted) -> usize
    requires known { counted.known ≡ node_count counted.journal.now.bytes.now }
    requires long { counted.source.bits.len ≤ rows counted.journal.now.bytes.now 0 }
    ensures { (result ≡ body_end counted.entry.journal.now.bytes.now (picks_in counted.entry.source) (node_count counted.entry.journal.now.bytes.now)) × (result ≤ 2 ^ 38) }
{
    let mut at: usize = 0;
    for i in 0..counted.journal.node_count() {
        at = node_end(counted, i, at);
    }
    at
}

// The extract's length: body, table and trailer.
pub fn measure(counted: Counted) -> usize
    requires known { counted.known ≡ node_count counted.journal.now.bytes.now }
    requires long { counted.source.bits.len ≤ rows counted.journal.now.bytes.now 0 }
    ensures { result ≡ length (extract counted.entry.journal.now.bytes.now (picks_in counted.entry.source)) }
{
    raise(body_end(counted)) + 40 * counted.journal.node_count() + 16
}

// The scratch needed: for each runs node and list a bit for each row of its child.
pub fn scratch_needed(journal: &Journal) -> usize
    ensures { result ≡ scratch_needed journal.now.bytes.now }
{
    let mut need: usize = 0;
    for i in 0..journal.node_count() {
        if !takes_scratch(journal.node(i).kind) {
            continue;
        }
        need += bytes_for(journal.rows(i + 1));
    }
    need
}
