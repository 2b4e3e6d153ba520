// The maximal runs of picked slots, one after another: an iterator over a mask's bytes.
#![tactic(auto)]

ghost use Rattle.std.specs.Prelude.{◌≡◌, length};
ghost use Rattle.std.specs.Iterator.{item_count};
ghost use Rattle.format.specs.Slots.{runs_from};
ghost use Rattle.slots.specs.Slot.{slot_in};
ghost use Rattle.slices.specs.Reader.{begun, runs_left, Stands, GivesRun};

use slots::{Bits, Source};

// The runs of a mask's bits that start at slot `at` or behind it, each as its start and its end, [start, end).
#[derive(Drop)]
pub struct SlicesIterator<'a> {
    pub mask: &'a [u8],
    pub bits: Bits,
    pub at: usize,
}

impl<'a> SlicesIterator<'a> {
    // Nothing is asked of the bits until a run is.
    pub fn new(mask: &'a [u8], bits: Bits) -> SlicesIterator<'a>
        ensures { result ≡ begun mask.entry bits }
    {
        SlicesIterator { mask, bits, at: 0 }
    }
}

impl<'a> Iterator for SlicesIterator<'a> {
    type Item = (usize, usize);

    ghost can_next = { Stands };

    ghost next_gives = { GivesRun };

    ghost remaining = { item_count runs_left };

    // The next run; the iterator then stands behind it, or at the last slot's end where there is none.
    fn next(&mut self) -> Option<(usize, usize)> {
        let source = Source {
            bytes: self.mask,
            bits: self.bits,
        };
        let run = scan::next_run(source, self.at);
        self.at = run.map_or(self.bits.len, |(_, end)| end);
        run
    }
}

// How many maximal runs of picked slots there are.
pub fn count_runs(source: Source) -> usize
    ensures { result ≡ length (runs_from (slot_in source.entry) source.entry.bits.len 0) }
{
    SlicesIterator::new(source.bytes, source.bits).count()
}
