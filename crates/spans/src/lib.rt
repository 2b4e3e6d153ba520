// What lies between the offsets of rows, summed over the rows of a word: the bytes of texts, the child rows of lists.
#![tactic(auto)]

ghost use Rattle.std.specs.Prelude.{◌≡◌, true, ◌∷◌, [], ◌+◌, ◌*◌, ◌^◌, ◌≤◌, ◌<◌, length};
ghost use Rattle.format.specs.Rows.{set_rows};
ghost use Rattle.format.specs.Verdict.{one_of};
ghost use Rattle.spans.specs.Spans.{offset_from, spans, Rising};

use nesting::List;
use words::{RowRuns, read_number};

// Where a node's offsets stand: that of row 0, behind those of skipped rows, and how many bytes each has.
#[derive(Clone, Copy)]
pub struct Offsets {
    pub first: usize,
    pub width: usize,
}

impl Offsets {
    // A list's.
    pub fn of(list: List) -> Offsets
        ensures { (result.first ≡ list.entry.first) × (result.width ≡ list.entry.width) }
    {
        Offsets {
            first: list.first,
            width: list.width,
        }
    }

    // Row r's offset.
    #[tactic(auto, using(words::proofs::Widths::wider), unfolding(crate::specs::Spans::offset_from))]
    pub fn get(self, bytes: &[u8], r: usize) -> usize
        requires wide { one_of (2 ∷ 4 ∷ 8 ∷ []) self.width ≡ true }
        requires inside { self.first + self.width * r + self.width ≤ length bytes.now }
        ensures { result ≡ offset_from self.width bytes.now self.first r }
    {
        read_number(bytes, self.first + self.width * r, self.width) as usize
    }

    // How much the rows base + k for the set bits k of a word span: run by run.
    pub fn word_spans(self, bytes: &[u8], base: usize, word: u64) -> usize
        requires wide { one_of (2 ∷ 4 ∷ 8 ∷ []) self.width ≡ true }
        requires rising { Rising self.width bytes.now self.first (set_rows base word) }
        requires word_bound { spans (offset_from self.width bytes.now self.first) (set_rows base word) < 2 ^ 64 }
        ensures { result ≡ spans (offset_from self.width bytes.now self.first) (set_rows base word) }
    {
        let mut n: usize = 0;
        for (from, to) in RowRuns::new(base, word) {
            let end = self.get(bytes, to);
            n += end - self.get(bytes, from);
        }
        n
    }
}
