// Bitmaps of picked rows: filter_bits, by compress or by blocks.
#![tactic(auto)]

ghost use Rattle.std.specs.Prelude.{◌≡◌, ◌+◌, ◌-◌, ◌*◌, ◌^◌, ◌≤◌, ◌<◌, length, map, []};
ghost use Rattle.format.specs.Bytes.{bit_in, bytes_for, to_le, packed};
ghost use Rattle.format.specs.Slots.{count_up, word_from};
ghost use Rattle.format.specs.Rows.{set_rows};
ghost use Rattle.format.specs.Words.{low_bits, word_of};
ghost use Rattle.format.specs.Put.{Wrote};
ghost use Rattle.format.specs.Mask.{by_route};
ghost use Rattle.predicate.specs.Entries.{picked};
ghost use Rattle.predicate.specs.Selection.{selected, reach, Sourced};
ghost use Rattle.bitmaps.specs.Push.{Room, Packs, Adds, bit_from, bits_of, Compressed};

use bits::Packer;
use predicate::{Block, Blocks, Selection};
use slots::Source;
use words::{Number, RowRuns};

// Where the bits of the rows stand: row 0 at bit `from` of the values.
#[derive(Clone, Copy)]
struct Column<'a> {
    values: &'a [u8],
    from: usize,
}

impl Column<'_> {
    // The bits of 64 rows from one on, low bit first.
    fn word(&self, row: usize) -> u64
        requires { self.now.from + row < 2 ^ 64 }
        ensures { result ≡ word_from (bit_in self.now.values.now) 64 (self.now.from + row) }
    {
        slots::load64(self.values, self.from + row)
    }
}

// A bitmap that is being written: the output with the next place in it, and the bits that wait for a full word.
struct Bitmap<'a> {
    out: &'a mut [u8],
    here: usize,
    packer: Packer,
}

impl<'a> Bitmap<'a> {
    // A bitmap that begins at a place of the output.
    fn new(out: &'a mut [u8], at: usize) -> Bitmap<'a>
        ensures same_reference { result.out.ghost_name ≡ out.entry.ghost_name }
        ensures begun { Packs [] out.old at result }
    {
        Bitmap {
            out,
            here: at,
            packer: Packer::new(),
        }
    }

    // Adds the n bits of a number, which is zero above them; a full word is written.
    fn push(&mut self, bits: u64, n: u32)
        requires bits { (n ≤ 64) × (bits < 2 ^ n) }
        requires room { Room self.old n }
        ensures { Adds (low_bits n bits) self.old self.new }
    {
        if let Some(word) = self.packer.push(bits, n) {
            let next = word.put(self.out, self.here);
            self.here = next;
        }
    }

    // Adds the n lowest bits of value: bits that stand together need no compress, and their number no count.
    fn push_low(&mut self, value: u64, n: u32)
        requires bits { n ≤ 64 }
        requires room { Room self.old n }
        ensures { Adds (low_bits n value) self.old self.new }
    {
        self.push(value & bits::low_ones(n), n);
    }

    // The bits of rows start to end: whole words, and what is left.
    fn push_run(&mut self, column: Column, start: usize, end: usize)
        requires rows { (start ≤ end) × (column.from + end < 2 ^ 62) }
        requires room { Room self.old (end - start) }
        ensures { Adds (bits_of column.entry (count_up (end - start) start)) self.old self.new }
    {
        let words = (end - start) / 64;
        for word in 0..words {
            self.push(column.word(start + 64 * word), 64);
        }
        let left = start + 64 * words;
        self.push_low(column.word(left), (end - left) as u32);
    }

    // The bits of the rows base + k for the set bits k of a word: run by run.
    fn push_word(&mut self, column: Column, base: usize, word: u64)
        requires rows { column.from + base < 2 ^ 62 }
        requires room { Room self.old (length (set_rows base word)) }
        ensures { Adds (bits_of column.entry (set_rows base word)) self.old self.new }
    {
        for (from, to) in RowRuns::new(base, word) {
            self.push_low(column.word(from), (to - from) as u32);
        }
    }

    // The bits of the rows that a list names.
    fn push_rows(&mut self, column: Column, rows: &[u32])
        requires rows { column.from < 2 ^ 61 }
        requires room { Room self.old (length rows.now) }
        ensures { Adds (bits_of column.entry rows.now) self.old self.new }
    {
        for row in rows {
            self.push_low(column.word(*row as usize), 1);
        }
    }

    // The same as `push_word` of a word that is not empty, by compress; but where its set bits stand together, as they mostly do where rows are picked
    // in runs, there is nothing to compress. It has one caller, so it is compiled into that loop: under random masks of 10 to 81 % the test costs a
    // column of bits 1 to 3 % so, and 5 to 9 % as a call for each word.
    fn push_picked(&mut self, column: Column, base: usize, word: u64)
        requires rows { (0 < word) × (column.from + base < 2 ^ 62) }
        requires room { Room self.old (length (set_rows base word)) }
        ensures { Adds (bits_of column.entry (set_rows base word)) self.old self.new }
    {
        let run = words::lowest_run(base, word);
        if run.rest == 0 {
            let near = column.word(run.from);
            self.push_low(near, (run.to - run.from) as u32);
            return;
        }
        let value = column.word(base);
        self.push(bits::compress(value, word), u64::count_ones(word));
    }

    // The bits that wait at the end, as bytes, spare bits 0; the next place. No bitmap can be let go without it, since it is not `Drop`.
    fn flush(self) -> usize
        requires { self.here + bytes_for (length self.packer) ≤ length self.out.now }
        ensures { Wrote self.entry.out.now self.entry.here (to_le (bytes_for (length self.entry.packer)) (word_of self.entry.packer)) self.exit.0.now result }
    {
        let Bitmap { out, here, packer } = self;
        append::fields::put_number(out, here, packer.current, (packer.filled as usize + 7) / 8)
    }
}

// The bits of the picked rows, row 0 at bit `from` of the values: word by word, the mask's word compresses the values'.
// Neither way is compiled into its caller: with both loops in one function, which share its registers, rows of a list took 24 to 41 % longer.
#[inline(never)]
pub fn filter_bits_compress(
    out: &mut [u8],
    at: usize,
    values: &[u8],
    from: usize,
    source: Source,
) -> usize
    requires len_bound { from + source.bits.len < 2 ^ 62 }
    requires len_in_bounds { at + length (packed (map (bit_from values.now from) (picked source))) ≤ length out.old }
    ensures { Wrote out.old at (packed (map (bit_from values.now from) (picked source.entry))) out.new result }
{
    let column = Column { values, from };
    let mut to = Bitmap::new(out, at);
    let mut w: usize = 0;
    let len = source.bits.len;
    // No `for`: behind an empty word w moves on past all that follow. Tried: over `scan::PickedWords` random masks take 3 to 8 % longer.
    while 64 * w < len {
        let x = source.word(w);
        let base = 64 * w;
        w += 1;
        if x != 0 {
            to.push_picked(column, base, x);
        } else if w % scan::SPACING == 0 {
            w = scan::blank_end(source, w);
        }
    }
    to.flush()
}

// The same by the selection's blocks: runs and row numbers, where the mask picks nearly all or nearly no rows.
#[inline(never)]
fn filter_bits_blocks(
    out: &mut [u8],
    at: usize,
    values: &[u8],
    from: usize,
    sel: Selection,
) -> usize
    requires len_bound { from + reach sel < 2 ^ 61 }
    requires len_in_bounds { at + length (packed (map (bit_from values.now from) (selected sel))) ≤ length out.old }
    ensures { Wrote out.old at (packed (map (bit_from values.now from) (selected sel.entry))) out.new result }
{
    let column = Column { values, from };
    let mut to = Bitmap::new(out, at);
    for block in Blocks::new(sel) {
        match block {
            Block::Run(start, end) => to.push_run(column, start, end),
            Block::Word(base, word) => to.push_word(column, base, word),
            Block::Listed(rows) => to.push_rows(column, rows),
        }
    }
    to.flush()
}

// Whether a bitmap column goes by the selection's runs or row numbers, and not by compress: nearly all rows are picked, or nearly none and the row
// numbers are stored. No plainer than by a flag, because docs/FORMAT.md (6) asks whether they are stored, whatever they are.
pub fn by_route(length: usize, count: usize, stored: bool) -> bool
    ensures { result ≡ by_route length count stored }
{
    let few = length / 64;
    (length - few <= count) | ((count <= few) & stored)
}

// The source whose words compress takes, where `count` rows are kept and the column goes by it.
fn compressed<'a>(sel: Selection<'a>, count: usize) -> Option<Source<'a>>
    requires sourced { Sourced sel }
    ensures { Compressed sel.entry count result }
{
    let (bytes, bits, stored) = match sel {
        Selection::Nothing | Selection::Everything(_) => return None,
        Selection::Words(source) => (source.bytes, source.bits, false),
        Selection::Runs(list) => (list.bytes, list.bits, false),
        Selection::Rows(list) => (list.bytes, list.bits, true),
    };
    (!by_route(bits.len, count, stored)).then_some(Source { bytes, bits })
}

// The bits of the kept rows, row 0 at bit `from` of the values, where `count` rows are kept: by compress, or by the selection's blocks.
pub fn filter_bits(
    out: &mut [u8],
    at: usize,
    values: &[u8],
    from: usize,
    sel: Selection,
    count: usize,
) -> usize
    requires sourced { Sourced sel }
    requires len_bound { from + reach sel < 2 ^ 61 }
    requires len_in_bounds { at + length (packed (map (bit_from values.now from) (selected sel))) ≤ length out.old }
    ensures { Wrote out.old at (packed (map (bit_from values.now from) (selected sel.entry))) out.new result }
{
    match compressed(sel, count) {
        Some(source) => filter_bits_compress(out, at, values, from, source),
        None => filter_bits_blocks(out, at, values, from, sel),
    }
}
