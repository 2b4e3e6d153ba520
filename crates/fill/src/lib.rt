// The bitmaps of kept rows in scratch: for the child of each runs node and list a bit for each of its rows, whether it is kept.
#![tactic(auto)]

ghost use Rattle.std.specs.Prelude.{◌≡◌, true, false, ◌+◌, ◌≤◌, ◌<◌, length, replicate};
ghost use Rattle.format.specs.Bytes.{bytes_for, packed, over};
ghost use Rattle.format.specs.Node.{node_count, rows};
ghost use Rattle.format.specs.Slots.{slots_from};
ghost use Rattle.format.specs.Answer.{takes_scratch, scratch_needed};
ghost use Rattle.nesting.specs.Rows.{keeps, by_offsets, hands_on, picks_in, Sifted};
ghost use Rattle.fill.specs.Scratch.{plain_bits, takes_bitmap, Earlier, Filled};
ghost use Rattle.fill.specs.Tells.{Tells};

use journal::Journal;
use list_marks::mark_lists;
use nesting::top::top_of;
use nesting::{Counted, Handing, copied_by_offsets, takes_scratch};
use run_marks::fill_runs;
use slots::{Bits, Source};
use stretch_marks::fill_kept;

// What tells the rows that a node keeps: they are the root's; a bitmap in scratch has them; or all are kept or none, as of the child of a node that
// carries its children: its number.
#[derive(Clone, Copy)]
pub enum Teller<'a> {
    Root,
    Bitmap(Source<'a>),
    Carried(usize),
}

// So many rows from byte `at` of a bitmap.
fn plain_bits(at: usize, len: usize) -> Bits
    ensures { result ≡ plain_bits at len }
{
    Bits {
        values_at: at,
        validity: None,
        skip: 0,
        len,
    }
}

// What tells the rows that node i keeps, where it is not copied by the offsets of a list: struct and union hand on their own, and the child of a runs node
// or list has its bitmap in scratch, from its place on.
pub fn told_by<'a>(
    counted: Counted<'a>,
    places: &[usize; 64],
    scratch: &'a [u8],
    i: usize,
) -> Teller<'a>
    requires earlier { Earlier counted.journal.now.bytes.now (picks_in counted.source) i scratch.now places.now }
    requires i_bound { (i < node_count counted.journal.now.bytes.now) × (by_offsets counted.journal.now.bytes.now i ≡ false) }
    ensures { Tells counted.entry.journal.now.bytes.now (picks_in counted.entry.source) i result }
{
    let journal = counted.journal;
    let top = top_of(journal, i);
    if top == 0 {
        return Teller::Root;
    }
    if takes_scratch(journal.node(journal.parent(top)).kind) {
        let bits = plain_bits(places[top], journal.rows(top));
        return Teller::Bitmap(Source {
            bytes: scratch,
            bits,
        });
    }
    Teller::Carried(top)
}

// The bitmap of what runs node or list i hands on where it keeps the source's picked slots.
fn fill_picked(source: Source, journal: &Journal, i: usize, region: &mut [u8])
    requires takes { (takes_scratch journal.now.bytes.now i ≡ true) × (i < node_count journal.now.bytes.now) }
    requires sifted { Sifted (picks_in source) (rows journal.now.bytes.now i) }
    requires size { length region.old ≡ bytes_for (rows journal.now.bytes.now (i + 1)) }
    ensures { region.new ≡ packed (slots_from (hands_on journal.now.bytes.now i (picks_in source.entry)) (rows journal.now.bytes.now (i + 1)) 0) }
{
    match Handing::of(journal, i) {
        Handing::Runs(runs) => fill_runs(source, runs, region),
        Handing::List(list) => mark_lists(source, list, region),
        // No other node takes scratch.
        Handing::Rows | Handing::All => {}
    }
}

// The bitmap of the rows that the child of runs node or list i keeps. Under a carried child they are asked stretch by stretch.
fn fill_next(counted: Counted, places: &[usize; 64], front: &[u8], i: usize, region: &mut [u8])
    requires known { i < counted.known }
    requires takes { (takes_scratch counted.journal.now.bytes.now i ≡ true) × (i < node_count counted.journal.now.bytes.now) }
    requires earlier { Earlier counted.journal.now.bytes.now (picks_in counted.source) i front.now places.now }
    requires size { length region.old ≡ bytes_for (rows counted.journal.now.bytes.now (i + 1)) }
    ensures { region.new ≡ packed (slots_from (keeps counted.entry.journal.now.bytes.now (picks_in counted.entry.source) (i + 1)) (rows counted.entry.journal.now.bytes.now (i + 1)) 0) }
{
    match told_by(counted, places, front, i) {
        Teller::Root => fill_picked(counted.source, counted.journal, i, region),
        Teller::Bitmap(above) => fill_picked(above, counted.journal, i, region),
        Teller::Carried(_) => fill_kept(counted, i + 1, region),
    }
}

// Whether the child of node i has a bitmap in scratch: that of a runs node or list, unless it is copied by the list's own offsets.
fn takes_bitmap(journal: &Journal, i: usize) -> bool
    requires { i < node_count journal.now.bytes.now }
    ensures { result ≡ takes_bitmap journal.now.bytes.now i }
{
    takes_scratch(journal.node(i).kind) && !copied_by_offsets(journal, i + 1)
}

// The bitmaps of all children of runs nodes and lists that take one, one after another from the front; where each child's starts, and 0 for
// the other nodes.
pub fn fill_all(counted: Counted, scratch: &mut [u8]) -> [usize; 64]
    requires known { counted.known ≡ node_count counted.journal.now.bytes.now }
    requires room { scratch_needed counted.journal.now.bytes.now ≤ length scratch.old }
    ensures { Filled counted.entry.journal.now.bytes.now (picks_in counted.entry.source) scratch.old scratch.new result }
{
    let journal = counted.journal;
    let mut places = [0usize; 64];
    let mut at: usize = 0;
    for i in 0..journal.node_count() {
        if !takes_bitmap(journal, i) {
            continue;
        }
        let size = journal.rows(i + 1).div_ceil(8);
        let (front, back) = scratch.split_at_mut(at);
        fill_next(counted, &places, front, i, &mut back[..size]);
        places[i + 1] = at;
        at += size;
    }
    places
}

// The first n bytes of scratch zero.
pub fn clear(scratch: &mut [u8], n: usize)
    requires { n ≤ length scratch.old }
    ensures { scratch.new ≡ over (replicate n 0) scratch.old }
{
    scratch[..n].fill(0);
}
