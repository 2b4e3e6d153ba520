// Nodes that keep the root's own rows: the mask answers for them, by words and by runs.
ghost use Rattle.std.specs.Prelude.{◌≡◌, true, not, ◌&&◌, map, ◌∷◌, [], ◌+◌, ◌*◌, ◌^◌, ◌≤◌, ◌<◌, length};
ghost use Rattle.format.specs.Bytes.{any_below, bit_in, join};
ghost use Rattle.format.specs.Node.{node_count, rows, skip, first_at, second_length};
ghost use Rattle.format.specs.Verdict.{one_of};
ghost use Rattle.format.specs.Kept.{own_bytes};
ghost use Rattle.format.specs.Accepted.{Offsets as HasOffsets};
ghost use Rattle.slots.specs.Slot.{slot_in};
ghost use Rattle.nesting.specs.Rows.{picks_in};

use nesting::Counted;
use scan::PickedWords;
use slots::Source;
use spans::Offsets;

// Some picked slot has no validity bit among those from bit `first` on: a word at a time.
pub fn null_at_root(source: Source, bytes: &[u8], first: usize) -> bool
    requires first_bound { first ≤ 2 ^ 40 }
    ensures { result ≡ any_below (λ r. slot_in source.entry r && not (bit_in bytes.now (first + r))) source.entry.bits.len }
{
    (0..source.bits.len.div_ceil(64)).any(|w| {
        let word = source.word(w);
        word & slots::load64(bytes, first + 64 * w) != word
    })
}

// How many data bytes the picked rows of a node have: word by word of the mask, and by the runs within a word, so that no run is searched for bit by bit.
pub fn bytes_at_root(counted: Counted, node: usize, offsets: Offsets) -> usize
    requires inside { node < node_count counted.journal.now.bytes.now }
    requires wide { one_of (2 ∷ 4 ∷ 8 ∷ []) offsets.width ≡ true }
    requires first { offsets.first ≡ first_at counted.journal.now.bytes.now node + offsets.width * skip counted.journal.now.bytes.now node }
    requires offsets { HasOffsets offsets.width counted.journal.now.bytes.now node }
    requires long { counted.source.bits.len ≤ rows counted.journal.now.bytes.now node }
    ensures { (result ≡ length (join (map (own_bytes offsets.width counted.entry.journal.now.bytes.now node) (picks_in counted.entry.source))))
        × (result ≤ second_length counted.entry.journal.now.bytes.now node) }
{
    let mut n: usize = 0;
    for (base, word) in PickedWords::new(counted.source) {
        n += offsets.word_spans(counted.journal.bytes, base, word);
    }
    n
}
