// Ranges of bits set in a slice of bytes, bit 0 of a byte first.
#![tactic(auto)]

ghost use Rattle.std.specs.Prelude.{◌+◌, ◌*◌, ◌≤◌, ◌<◌, length};
ghost use Rattle.format.specs.Bytes.{within};
ghost use Rattle.marks.specs.Marks.{Marked};

use words::Number;

// Bits [from, to) of byte j set.
fn mark_byte(s: &mut [u8], j: usize, from: usize, to: usize)
    requires { (j < length s.old) × (from ≤ to) × (to ≤ 8) }
    ensures { Marked (within 0 (8 * j + from) (8 * j + to)) s.old s.new }
{
    let ones = (1u64 << to) - (1u64 << from);
    s[j] |= ones as u8;
}

// Bits [from, to) of the eight bytes from byte j on set: one load and one store. The top bit is left out, for a shift goes by less than 64.
fn mark_word(s: &mut [u8], j: usize, from: usize, to: usize)
    requires { (j + 8 ≤ length s.old) × (from ≤ to) × (to < 64) }
    ensures { Marked (within 0 (8 * j + from) (8 * j + to)) s.old s.new }
{
    let ones = (1u64 << to) - (1u64 << from);
    let x = u64::get(s, j) | ones;
    x.put(s, j);
}

// Bits [lo, hi) set, of which there is one: the first byte and the last by themselves, all between at once.
fn mark_bytes(s: &mut [u8], lo: usize, hi: usize)
    requires { (lo < hi) × (hi ≤ 8 * length s.old) }
    ensures { Marked (within 0 lo hi) s.old s.new }
{
    let a = lo / 8;
    let e = hi / 8;
    if a == e {
        mark_byte(s, a, lo % 8, hi % 8);
        return;
    }
    mark_byte(s, a, lo % 8, 8);
    s[a + 1..e].fill(255);
    if hi % 8 != 0 {
        mark_byte(s, e, 0, hi % 8);
    }
}

// Bits [lo, hi) set. A range within one word of the slice goes by that word, the commonest case of short lists; words are counted from the
// slice's first byte, so that the next range loads the very word that was stored.
pub fn set_ones(s: &mut [u8], lo: usize, hi: usize)
    requires { (lo ≤ hi) × (hi ≤ 8 * length s.old) }
    ensures { Marked (within 0 lo hi) s.old s.new }
{
    if lo == hi {
        return;
    }
    let j = lo / 64 * 8;
    let to = hi - 8 * j;
    if (to < 64) & (j + 8 <= s.len()) {
        mark_word(s, j, lo % 64, to);
        return;
    }
    mark_bytes(s, lo, hi);
}
