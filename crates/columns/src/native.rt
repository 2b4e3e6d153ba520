// Entries of a width: native and fixed columns, views, keys, type ids, and the offsets and sizes of list views. Words, runs and lists of rows are
// copied by loops of their own for each width, which `gather` chooses: here stands one walk for all of them.
ghost use Rattle.std.specs.Prelude.{◌+◌, ◌≤◌, length};
ghost use Rattle.format.specs.Put.{Wrote};
ghost use Rattle.predicate.specs.Selection.{selected, reach};
ghost use Rattle.append.specs.Cells.{Entries};
ghost use Rattle.gather.specs.Column.{entries_in};

use crate::from_mask;
use gather::Column;
use predicate::{Block, Blocks, Selection};

// The entries of the kept rows, one after another (a node's skip is in the column's first place).
pub fn filter_native(out: &mut [u8], at: usize, column: Column, sel: Selection) -> usize
    requires entries { Entries column.width column.src.now column.first (reach sel) }
    requires len_in_bounds { at + length (entries_in column (selected sel)) ≤ length out.old }
    ensures { Wrote out.old at (entries_in column.entry (selected sel.entry)) out.new result }
{
    let mut here = at;
    let mut blocks = Blocks::new(sel);
    while let Some(block) = blocks.next() {
        match block {
            Block::Run(start, end) => {
                here = column.copy_rows(out, here, start, end);
                here = from_mask::pass_runs(out, here, column, &mut blocks);
            }
            Block::Word(base, word) => {
                let words = [word; 1];
                here = column.gather_words(out, here, base, &words);
                here = from_mask::pass_words(out, here, column, &mut blocks);
            }
            Block::Listed(rows) => {
                here = column.gather_list(out, here, rows);
            }
        }
    }
    here
}
