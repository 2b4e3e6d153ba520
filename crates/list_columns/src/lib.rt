// Lists of way points, kinds 13 and 14, where a kept row is null: the offsets of the kept rows rebuilt from 0, a null row with no child row. Where none is null the
// offsets are rebuilt as those of byte columns are (`text_columns::filter_offsets`).
#![tactic(auto)]

ghost use Rattle.std.specs.Prelude.{◌≡◌, suc, ◌+◌, ◌^◌, ◌<◌, ◌≤◌, length};
ghost use Rattle.format.specs.Put.{Wrote};
ghost use Rattle.format.specs.Write.{numbers, offsets};
ghost use Rattle.append.specs.Cells.{Among};
ghost use Rattle.texts.specs.Texts.{size, sizes_of, ends_from, total_of};
ghost use Rattle.predicate.specs.Selection.{reach, selected};
ghost use Rattle.list_columns.specs.Lists.{Have, starts};

use append::rows::{ListRows, Rows};
use predicate::{Block, Blocks, Selection};
use std::ops::Range;
use texts::Ended;
use words::{Number, SetRows};

// Rows of lists in a slice: row 0's offset stands at `first`, its validity bit at bit `from`.
#[derive(Clone, Copy)]
pub struct Lists<'a> {
    pub src: &'a [u8],
    pub first: usize,
    pub from: usize,
}

impl Lists<'_> {
    // How many child rows a row has, by offsets of N's width: none where its bit is 0.
    fn size<N: Number>(&self, row: usize) -> usize
        requires { Have N.WIDTH self.now (suc row) }
        ensures { result ≡ size (starts N.WIDTH self.now) row }
    {
        if slots::bit(self.src, self.from + row) {
            let low = N::get(self.src, self.first + N::WIDTH * row).wide();
            let high = N::get(self.src, self.first + N::WIDTH * row + N::WIDTH).wide();
            return (high - low) as usize;
        }
        0
    }

    // Where each of the rows ends, if the first starts at `to.sum`.
    fn put_ends<N: Number, R: Rows>(&self, out: &mut [u8], to: Ended, rows: R) -> Ended
        requires among { Among (Have N.WIDTH self.now) (R.rows rows) }
        requires rows_bound { (to.sum + total_of (sizes_of (starts N.WIDTH self.now) (R.rows rows)) < 2 ^ 64) × (to.next + length (numbers N.WIDTH (ends_from to.sum (sizes_of (starts N.WIDTH self.now) (R.rows rows)))) ≤ length out.old) }
        ensures wrote { Wrote out.old to.next (numbers N.WIDTH (ends_from to.sum (sizes_of (starts N.WIDTH self.now) (R.rows rows)))) out.new result.next }
        ensures sum_value { result.sum ≡ to.sum + total_of (sizes_of (starts N.WIDTH self.now) (R.rows rows)) }
    {
        let Ended { next, sum } = to;
        let mut here = next;
        let mut end = sum;
        for row in rows {
            end += self.size::<N>(row);
            here = N::low(end as u64).put(out, here);
        }
        Ended {
            next: here,
            sum: end,
        }
    }
}

// The offsets of the kept rows: 0, and where each row ends.
pub fn filter_spans<N: Number>(out: &mut [u8], at: usize, lists: Lists, sel: Selection) -> usize
    requires spans { Have N.WIDTH lists (reach sel) }
    requires room { at + length (numbers N.WIDTH (offsets (sizes_of (starts N.WIDTH lists) (selected sel)))) ≤ length out.old }
    ensures { Wrote out.old at (numbers N.WIDTH (offsets (sizes_of (starts N.WIDTH lists.entry) (selected sel.entry)))) out.new result }
{
    let start = N::low(0).put(out, at);
    let mut to = Ended {
        next: start,
        sum: 0,
    };
    for block in Blocks::new(sel) {
        to = match block {
            Block::Run(a, e) => lists.put_ends::<N, Range<usize>>(out, to, a..e),
            Block::Word(base, word) => {
                lists.put_ends::<N, SetRows>(out, to, SetRows::new(base, word))
            }
            Block::Listed(list) => { lists.put_ends::<N, ListRows>(out, to, ListRows::new(list)) }
        };
    }
    to.next
}
