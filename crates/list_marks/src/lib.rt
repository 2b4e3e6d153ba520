// The child rows of a list's picked rows, as a bitmap: by the words of the source that picks, and by the runs within a word.
#![tactic(auto)]

ghost use Rattle.std.specs.Prelude.{◌≡◌, ◌&&◌, ◌*◌, ◌≤◌, suc, length};
ghost use Rattle.format.specs.Bytes.{bytes_for, packed};
ghost use Rattle.format.specs.Node.{rows, valid, first_number};
ghost use Rattle.format.specs.Rows.{set_rows, Below};
ghost use Rattle.format.specs.Slots.{slots_from, picks_from};
ghost use Rattle.slots.specs.Source.{slot_of};
ghost use Rattle.nesting.specs.Rows.{hands_on, picks_in, Sifted};
ghost use Rattle.marks.specs.Marks.{Marked};
ghost use Rattle.list_marks.specs.Spans.{in_spans};

use nesting::List;
use slots::Source;
use words::RowRuns;

// The child rows of the rows base + k for the set bits k of a word, set in their bitmap: run by run.
fn mark_rows(list: List, base: usize, word: u64, region: &mut [u8])
    requires below { Below (rows list.journal.now.bytes.now list.node) (set_rows base word) }
    requires room { rows list.journal.now.bytes.now (suc list.node) ≤ 8 * length region.old }
    ensures { Marked (in_spans (first_number list.entry.width list.entry.journal.now.bytes.now list.entry.node) (set_rows base word)) region.old region.new }
{
    for (from, to) in RowRuns::new(base, word) {
        marks::set_ones(region, list.start(from), list.start(to));
    }
}

// The child rows of the picked valid rows of a list, set in their bitmap: word by word of the source.
fn mark_words(source: Source, list: List, region: &mut [u8])
    requires sifted { Sifted (picks_in source) (rows list.journal.now.bytes.now list.node) }
    requires room { rows list.journal.now.bytes.now (suc list.node) ≤ 8 * length region.old }
    ensures { Marked (in_spans (first_number list.entry.width list.entry.journal.now.bytes.now list.entry.node) (picks_from (λ r. slot_of source.entry.bytes.now source.entry.bits r && valid list.entry.journal.now.bytes.now list.entry.node r) source.entry.bits.len 0)) region.old region.new }
{
    for m in 0..source.bits.len.div_ceil(64) {
        let word = source.word(m);
        let base = 64 * m;
        // An empty word costs this test alone.
        if word == 0 {
            continue;
        }
        mark_rows(list, base, list.valid_rows(base, word), region);
    }
}

// The bitmap of the child rows that a list hands on where it keeps the source's picked slots: zeros, then marks.
pub fn mark_lists(source: Source, list: List, region: &mut [u8])
    requires sifted { Sifted (picks_in source) (rows list.journal.now.bytes.now list.node) }
    requires size { length region.old ≡ bytes_for (rows list.journal.now.bytes.now (suc list.node)) }
    ensures { region.new ≡ packed (slots_from (hands_on list.entry.journal.now.bytes.now list.entry.node (picks_in source.entry)) (rows list.entry.journal.now.bytes.now (suc list.entry.node)) 0) }
{
    region.fill(0);
    mark_words(source, list, region);
}
