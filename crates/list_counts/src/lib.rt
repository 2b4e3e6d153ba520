// How many child rows a list hands on where it keeps the mask's own rows: by the words of the mask and of its validity, and by the runs within a word; and below
// lists without a bitmap, by the mask's words too.
#![tactic(auto)]

ghost use Rattle.std.specs.Prelude.{◌≡◌, length};
ghost use Rattle.format.specs.Node.{rows};
ghost use Rattle.format.specs.Kept.{kept_spans};
ghost use Rattle.nesting.specs.Rows.{picks_in, Sifted};

use nesting::List;
use scan::PickedWords;
use slots::Source;
use spans::Offsets;

pub mod chain;

// How many child rows the picked valid rows of a list have.
pub fn count_spans(source: Source, list: List) -> usize
    requires { Sifted (picks_in source) (rows list.journal.now.bytes.now list.node) }
    ensures { result ≡ length (kept_spans list.entry.width list.entry.journal.now.bytes.now list.entry.node (picks_in source.entry)) }
{
    let offsets = Offsets::of(list);
    let mut n: usize = 0;
    for (base, word) in PickedWords::new(source) {
        let kept = list.valid_rows(base, word);
        n += offsets.word_spans(list.journal.bytes, base, kept);
    }
    n
}
