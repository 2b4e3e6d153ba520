// Entries of a width, of the rows that a block gives, behind what the output holds: of a run, of the set bits of words, of a part of a list. Each
// width of a native column has a loop of its own, so that an entry is one load and one store.
#![tactic(auto)]

ghost use Rattle.std.specs.Prelude.{◌≡◌, ℕ, ◌+◌, ◌-◌, ◌*◌, ◌^◌, ◌<◌, ◌≤◌, length};
ghost use Rattle.format.specs.Bytes.{bytes_at};
ghost use Rattle.format.specs.Put.{Wrote};
ghost use Rattle.format.specs.Slots.{count_up};
ghost use Rattle.append.specs.Cells.{entries_of, word_rows, Among, Entries};
ghost use Rattle.gather.specs.Column.{entries_in};

use append::rows::{ListRows, Rows};
use words::SetRows;

// How many bytes an entry has: N, so that it is one load and one store, or any number.
trait Width: Copy {
    ghost bytes: { Self → ℕ };

    fn bytes(self) -> usize
        ensures { result ≡ bytes self };

    // An entry of src to a place.
    fn copy(self, out: &mut [u8], at: usize, src: &[u8], from: usize) -> usize
        requires { (at + bytes self ≤ length out.old) × (from + bytes self ≤ length src.now) }
        ensures { Wrote out.old at (bytes_at src.now from (bytes self)) out.new result };
}

#[derive(Clone, Copy)]
struct Fixed<const N: usize>;

impl<const N: usize> Width for Fixed<N> {
    ghost bytes = { λ _. N };

    fn bytes(self) -> usize {
        N
    }

    fn copy(self, out: &mut [u8], at: usize, src: &[u8], from: usize) -> usize {
        words::move_bytes::<N>(out, at, src, from)
    }
}

#[derive(Clone, Copy)]
struct Any(usize);

impl Width for Any {
    ghost bytes = { λ w. w.0 };

    fn bytes(self) -> usize {
        self.0
    }

    fn copy(self, out: &mut [u8], at: usize, src: &[u8], from: usize) -> usize {
        copies::copy(out, at, src, from, self.0)
    }
}

// The entries of rows.
fn entries<W: Width, R: Rows>(
    out: &mut [u8],
    at: usize,
    src: &[u8],
    first: usize,
    width: W,
    rows: R,
) -> usize
    requires among { Among (Entries (W.bytes width) src.now first) (R.rows rows) }
    requires rows_in_bounds { at + length (entries_of (W.bytes width) src.now first (R.rows rows)) ≤ length out.old }
    ensures { Wrote out.old at (entries_of (W.bytes width) src.now first (R.rows rows)) out.new result }
{
    let mut here = at;
    for row in rows {
        here = width.copy(out, here, src, first + width.bytes() * row);
    }
    here
}

// The entries at the set bits of words. A loop of its own over words that were read before: where a word has few set bits, what is done between two
// words is most of the time.
fn words_entries<W: Width>(
    out: &mut [u8],
    at: usize,
    src: &[u8],
    first: usize,
    width: W,
    base: usize,
    words: &[u64],
) -> usize
    requires words_bound { base + 64 * (length words.now - 1) < 2 ^ 64 }
    requires among { Among (Entries (W.bytes width) src.now first) (word_rows base words.now) }
    requires words_in_bounds { at + length (entries_of (W.bytes width) src.now first (word_rows base words.now)) ≤ length out.old }
    ensures { Wrote out.old at (entries_of (W.bytes width) src.now first (word_rows base words.now)) out.new result }
{
    let mut here = at;
    for (k, word) in words.iter().enumerate() {
        let rows = SetRows::new(base + 64 * k, *word);
        here = entries(out, here, src, first, width, rows);
    }
    here
}

// Entries of a width in a slice of bytes: row 0's stands at `first`.
#[derive(Clone, Copy)]
pub struct Column<'a> {
    pub src: &'a [u8],
    pub first: usize,
    pub width: usize,
}

impl Column<'_> {
    // The entries of rows a to e: one part of the slice.
    pub fn copy_rows(self, out: &mut [u8], at: usize, a: usize, e: usize) -> usize
        requires { (a ≤ e) × (self.first + self.width * e ≤ length self.src.now) × (at + length (entries_in self (count_up (e - a) a)) ≤ length out.old) }
        ensures { Wrote out.old at (entries_in self.entry (count_up (e - a) a)) out.new result }
    {
        let Column { src, first, width } = self;
        copies::copy(out, at, src, first + width * a, width * (e - a))
    }

    // The entries at the set bits of words one after another, 64 rows each, by the width's own loop where it has one. What is chosen is a type, so that an
    // entry is one load and one store: a closure or a `dyn` would be called for each.
    pub fn gather_words(self, out: &mut [u8], at: usize, base: usize, words: &[u64]) -> usize
        requires words_bound { base + 64 * (length words.now - 1) < 2 ^ 64 }
        requires among { Among (Entries self.width self.src.now self.first) (word_rows base words.now) }
        requires words_in_bounds { at + length (entries_in self (word_rows base words.now)) ≤ length out.old }
        ensures { Wrote out.old at (entries_in self.entry (word_rows base words.now)) out.new result }
    {
        let Column { src, first, width } = self;
        match width {
            1 => words_entries(out, at, src, first, Fixed::<1>, base, words),
            2 => words_entries(out, at, src, first, Fixed::<2>, base, words),
            4 => words_entries(out, at, src, first, Fixed::<4>, base, words),
            8 => words_entries(out, at, src, first, Fixed::<8>, base, words),
            16 => words_entries(out, at, src, first, Fixed::<16>, base, words),
            32 => words_entries(out, at, src, first, Fixed::<32>, base, words),
            _ => words_entries(out, at, src, first, Any(width), base, words),
        }
    }

    // The entries of the rows that a list names, by the width's own loop where it has one.
    pub fn gather_list(self, out: &mut [u8], at: usize, list: &[u32]) -> usize
        requires among { Among (Entries self.width self.src.now self.first) list.now }
        requires rows_in_bounds { at + length (entries_in self list.now) ≤ length out.old }
        ensures { Wrote out.old at (entries_in self.entry list.now) out.new result }
    {
        let Column { src, first, width } = self;
        let rows = ListRows::new(list);
        // A type is chosen here too.
        match width {
            1 => entries(out, at, src, first, Fixed::<1>, rows),
            2 => entries(out, at, src, first, Fixed::<2>, rows),
            4 => entries(out, at, src, first, Fixed::<4>, rows),
            8 => entries(out, at, src, first, Fixed::<8>, rows),
            16 => entries(out, at, src, first, Fixed::<16>, rows),
            32 => entries(out, at, src, first, Fixed::<32>, rows),
            _ => entries(out, at, src, first, Any(width), rows),
        }
    }
}
