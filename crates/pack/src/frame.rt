// Refusals 1 to 3: the size, the mark, the place of the table.
ghost use Rattle.std.specs.Prelude.{◌≡◌};
ghost use Rattle.format.specs.Node.{carries_counts};
ghost use Rattle.format.specs.Verdict.{wrong_size, wrong_mark, wrong_table};

use crate::read::trailer_of;

// A pack has at most this many bytes.
const PACK_LIMIT: usize = 16_777_216;

// 43 4F 4C 51, read as a number: the mark of a pack whose nodes carry their null counts. The old mark is 43 4F 4C 50.
const MARK: u32 = 0x514C_4F43;

const OLD_MARK: u32 = 0x504C_4F43;

// 1: under 16 or over 16,777,216 bytes.
pub fn wrong_size(pack: &[u8]) -> bool
    ensures { result ≡ wrong_size pack.now }
{
    let n = pack.len();
    (n < 16) | (PACK_LIMIT < n)
}

// 2: the mark.
pub fn wrong_mark(pack: &[u8]) -> bool
    ensures { result ≡ wrong_mark pack.now }
{
    let mark = trailer_of(pack).mark;
    !((mark == MARK) | (mark == OLD_MARK))
}

// Whether the nodes carry their null counts, by the mark.
pub fn carries_counts(pack: &[u8]) -> bool
    ensures { result ≡ carries_counts pack.now }
{
    trailer_of(pack).mark == MARK
}

// 3: 1 to 64 nodes, and the table ends where the trailer starts.
pub fn wrong_table(pack: &[u8]) -> bool
    ensures { result ≡ wrong_table pack.now }
{
    let t = trailer_of(pack);
    let end = t.table_start as usize + 40 * (t.node_count as usize) + 16;
    (t.node_count < 1) | (64 < t.node_count) | (end != pack.len())
}
