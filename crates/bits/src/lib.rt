// Bits of 64-bit words: compress, and the packer that puts the bits picked of one word after another into full words.
#![tactic(auto)]

ghost use Rattle.std.specs.Prelude.{◌≡◌, ◌+◌, ◌*◌, ◌^◌, ◌≤◌, ◌<◌, List, [], ◌++◌, length};
ghost use Rattle.format.specs.Words.{compress};
ghost use Rattle.bits.specs.Fours.{four_of, count_of};

use std::marker::Model;

// A number for each mask and value of four bits, at mask * 16 + value, so a row for each mask: the value compressed by the mask. It and the next table
// are statics: a constant is laid out anew at each call of the function that names it, some thirty stores for these two.
static FOURS: [u8; 256] = *b"\
    \x00\x00\x00\x00\x00\x00\x00\x00\x00\x00\x00\x00\x00\x00\x00\x00\
    \x00\x01\x00\x01\x00\x01\x00\x01\x00\x01\x00\x01\x00\x01\x00\x01\
    \x00\x00\x01\x01\x00\x00\x01\x01\x00\x00\x01\x01\x00\x00\x01\x01\
    \x00\x01\x02\x03\x00\x01\x02\x03\x00\x01\x02\x03\x00\x01\x02\x03\
    \x00\x00\x00\x00\x01\x01\x01\x01\x00\x00\x00\x00\x01\x01\x01\x01\
    \x00\x01\x00\x01\x02\x03\x02\x03\x00\x01\x00\x01\x02\x03\x02\x03\
    \x00\x00\x01\x01\x02\x02\x03\x03\x00\x00\x01\x01\x02\x02\x03\x03\
    \x00\x01\x02\x03\x04\x05\x06\x07\x00\x01\x02\x03\x04\x05\x06\x07\
    \x00\x00\x00\x00\x00\x00\x00\x00\x01\x01\x01\x01\x01\x01\x01\x01\
    \x00\x01\x00\x01\x00\x01\x00\x01\x02\x03\x02\x03\x02\x03\x02\x03\
    \x00\x00\x01\x01\x00\x00\x01\x01\x02\x02\x03\x03\x02\x02\x03\x03\
    \x00\x01\x02\x03\x00\x01\x02\x03\x04\x05\x06\x07\x04\x05\x06\x07\
    \x00\x00\x00\x00\x01\x01\x01\x01\x02\x02\x02\x02\x03\x03\x03\x03\
    \x00\x01\x00\x01\x02\x03\x02\x03\x04\x05\x04\x05\x06\x07\x06\x07\
    \x00\x00\x01\x01\x02\x02\x03\x03\x04\x04\x05\x05\x06\x06\x07\x07\
    \x00\x01\x02\x03\x04\x05\x06\x07\x08\x09\x0a\x0b\x0c\x0d\x0e\x0f\
";

// At the same places: how many bits that is, as many as the mask has. A count for each mask would do, but then each place is divided by 16: .20 ns a
// row for .18, in a model of the bitmap's loop.
static COUNTS: [u8; 256] = *b"\
    \x00\x00\x00\x00\x00\x00\x00\x00\x00\x00\x00\x00\x00\x00\x00\x00\
    \x01\x01\x01\x01\x01\x01\x01\x01\x01\x01\x01\x01\x01\x01\x01\x01\
    \x01\x01\x01\x01\x01\x01\x01\x01\x01\x01\x01\x01\x01\x01\x01\x01\
    \x02\x02\x02\x02\x02\x02\x02\x02\x02\x02\x02\x02\x02\x02\x02\x02\
    \x01\x01\x01\x01\x01\x01\x01\x01\x01\x01\x01\x01\x01\x01\x01\x01\
    \x02\x02\x02\x02\x02\x02\x02\x02\x02\x02\x02\x02\x02\x02\x02\x02\
    \x02\x02\x02\x02\x02\x02\x02\x02\x02\x02\x02\x02\x02\x02\x02\x02\
    \x03\x03\x03\x03\x03\x03\x03\x03\x03\x03\x03\x03\x03\x03\x03\x03\
    \x01\x01\x01\x01\x01\x01\x01\x01\x01\x01\x01\x01\x01\x01\x01\x01\
    \x02\x02\x02\x02\x02\x02\x02\x02\x02\x02\x02\x02\x02\x02\x02\x02\
    \x02\x02\x02\x02\x02\x02\x02\x02\x02\x02\x02\x02\x02\x02\x02\x02\
    \x03\x03\x03\x03\x03\x03\x03\x03\x03\x03\x03\x03\x03\x03\x03\x03\
    \x02\x02\x02\x02\x02\x02\x02\x02\x02\x02\x02\x02\x02\x02\x02\x02\
    \x03\x03\x03\x03\x03\x03\x03\x03\x03\x03\x03\x03\x03\x03\x03\x03\
    \x03\x03\x03\x03\x03\x03\x03\x03\x03\x03\x03\x03\x03\x03\x03\x03\
    \x04\x04\x04\x04\x04\x04\x04\x04\x04\x04\x04\x04\x04\x04\x04\x04\
";

// The high four bits of each byte, and the low ones.
const HIGH_FOURS: u64 = 0xF0F0_F0F0_F0F0_F0F0;

const LOW_FOURS: u64 = 0x0F0F_0F0F_0F0F_0F0F;

// Four bits more, which mask and value have at `place` of the tables: what was gathered moves up by the count, and the entry comes below it.
fn add_four(out: u64, place: usize) -> u64
    requires { (out < 2 ^ 60) × (place < 256) }
    ensures { result ≡ out * 2 ^ count_of place + four_of place }
{
    (out << COUNTS[place]) + FOURS[place] as u64
}

// The bits of value at the set bits of mask, gathered to the low end, order kept.
// By fours from the highest; their places are made for all bytes at once: `highs` and `lows` have in each byte the mask's four above the value's.
pub fn compress(value: u64, mask: u64) -> u64
    ensures { result ≡ compress 64 value mask }
{
    let highs = (mask & HIGH_FOURS) | ((value >> 4) & LOW_FOURS);
    let lows = ((mask << 4) & HIGH_FOURS) | (value & LOW_FOURS);
    let mut out: u64 = 0;
    for byte in (0..8u32).rev() {
        let at = 8 * byte;
        out = add_four(out, ((highs >> at) % 256) as usize);
        out = add_four(out, ((lows >> at) % 256) as usize);
    }
    out
}

// The mask of the n lowest bits of a word.
pub fn low_ones(n: u32) -> u64
    requires { n ≤ 64 }
    ensures { result + 1 ≡ 2 ^ n }
{
    if n == 64 {
        return u64::MAX;
    }
    (1 << n) - 1
}

// The bits that wait for a full word: the low `filled` of `current`, which is zero above them. Contracts see them as a list.
#[derive(Clone, Copy)]
pub struct Packer {
    pub current: u64,
    pub filled: u32,
}

impl Model for Packer {
    ghost use Rattle.std.specs.Prelude.{◌^◌, ◌<◌, Bool, List, length};
    ghost use Rattle.format.specs.Words.{low_bits, word_of};

    ghost Value = { List Bool };

    ghost use Rattle.bits.specs.Waiting.{restored};

    ghost view = { λ p. low_bits p.filled p.current };

    ghost invariant = { λ p. (p.filled < 64) × (p.current < 2 ^ p.filled) };

    ghost inverse = { λ ts. record { current = word_of ts; filled = length ts } };

    ghost inverse_ok = { restored };
}

impl Packer {
    ghost use Rattle.format.specs.Words.{low_bits, word_of};
    ghost use Rattle.bits.specs.Pack.{packing};

    // No bit waits.
    pub fn new() -> Self
        ensures { result ≡ [] }
    {
        Packer {
            current: 0,
            filled: 0,
        }
    }

    // Adds the n bits of a number, which is zero above them, behind those that wait, and hands back the word that they fill: what compress gathered,
    // or bits that stand together.
    pub fn push(&mut self, bits: u64, n: u32) -> Option<u64>
        requires width { n ≤ 64 }
        requires small { bits < 2 ^ n }
        ensures { (self.new, result) ≡ packing (self.old ++ low_bits n bits) }
    {
        let Packer { current, filled } = *self;
        let word = current | (bits << filled);
        let total = filled + n;
        if total < 64 {
            *self = Packer {
                current: word,
                filled: total,
            };
            return None;
        }
        // bits >> (64 - filled), written so that filled == 0 shifts everything out.
        *self = Packer {
            current: (bits >> 1) >> (63 - filled),
            filled: total - 64,
        };
        Some(word)
    }
}
