// Rows with own bytes (filter_bytes): offsets rebuilt from 0, and the own bytes of the kept rows. Those of kinds 4 and 5; and of a list, whose rows have the entries of
// its child.
#![tactic(auto)]

ghost use Rattle.std.specs.Prelude.{◌≡◌, ◌+◌, ◌≤◌, length};
ghost use Rattle.format.specs.Put.{Wrote};
ghost use Rattle.format.specs.Write.{numbers, offsets};
ghost use Rattle.predicate.specs.Selection.{reach, selected};
ghost use Rattle.texts.specs.Texts.{offset, sizes_of, total_of, Offsets as Rising};
ghost use Rattle.texts.specs.Own.{Have, own_of};

use append::rows::ListRows;
use predicate::{Block, Blocks, Selection};
use texts::{Ended, Offsets, OwnBytes};
use words::{Number, SetRows};

// The offsets of the kept rows: 0, and where each row ends. The sum is the length of their own bytes.
pub fn filter_offsets<N: Number>(
    out: &mut [u8],
    at: usize,
    journal: &[u8],
    first: usize,
    sel: Selection,
) -> Ended
    requires offsets { Rising N.WIDTH journal.now first (reach sel) }
    requires room { at + length (numbers N.WIDTH (offsets (sizes_of (offset N.WIDTH journal.now first) (selected sel)))) ≤ length out.old }
    ensures wrote { Wrote out.old at (numbers N.WIDTH (offsets (sizes_of (offset N.WIDTH journal.now first) (selected sel.entry)))) out.new result.next }
    ensures sum_value { result.sum ≡ total_of (sizes_of (offset N.WIDTH journal.now first) (selected sel.entry)) }
{
    let column = Offsets {
        src: journal,
        first,
    };
    let from = N::low(0).put(out, at);
    let mut to = Ended { next: from, sum: 0 };
    for block in Blocks::new(sel) {
        to = match block {
            Block::Run(a, e) => column.put_run::<N>(out, to, a, e),
            Block::Word(base, word) => {
                column.put_each::<N, SetRows>(out, to, SetRows::new(base, word))
            }
            Block::Listed(list) => column.put_each::<N, ListRows>(out, to, ListRows::new(list)),
        };
    }
    to
}

// The own bytes of the kept rows.
pub fn filter_texts(out: &mut [u8], at: usize, own: OwnBytes, sel: Selection) -> usize
    requires texts { Have own (reach sel) }
    requires room { at + length (own_of own (selected sel)) ≤ length out.old }
    ensures { Wrote out.old at (own_of own.entry (selected sel.entry)) out.new result }
{
    let mut here = at;
    for block in Blocks::new(sel) {
        here = match block {
            Block::Run(a, e) => own.put_run(out, here, a, e),
            Block::Word(base, word) => own.put_word(out, here, base, word),
            Block::Listed(rows) => own.put_list(out, here, rows),
        };
    }
    here
}
