// Refusal 7: where each buffer has to lie.
ghost use Rattle.std.specs.Prelude.{false, ◌≡◌, ◌+◌, ◌^◌, ◌≤◌, ◌<◌};
ghost use Rattle.format.specs.Node.{node_count};
ghost use Rattle.format.specs.Verdict.{first_size, second_size, bad_buffers, wrong_rows, wrong_buffers};

use format::Kind;
use pack::read::{child_rows, node_at, node_count, table_start};

// The bytes of a first buffer, by kind, param, places and the child's rows. A place and they still fit a number together.
#[tactic(auto, unfolding(format::specs::Bytes::bytes_for))]
pub fn first_size(kind: Kind, param: u32, n: u64, c: u32) -> u64
    requires { n ≤ 1_048_576 }
    ensures { (result ≡ first_size kind param n c) × (result + 2 ^ 32 ≤ 2 ^ 64) }
{
    let p = param as u64;
    match kind {
        Kind::Bits => (n + 7) / 8,
        Kind::Native | Kind::Fixed | Kind::Dictionary => p * n,
        Kind::Bytes32 | Kind::Nested32 => 4 * (n + 1),
        Kind::Bytes64 | Kind::Nested64 => 8 * (n + 1),
        Kind::Views => 16 * n,
        Kind::Lists32 => 4 * n,
        Kind::Lists64 => 8 * n,
        Kind::Runs => p * c as u64,
        Kind::Union => n,
        Kind::Struct | Kind::Unknown => 0,
    }
}

// The bytes of a second buffer, by kind, places and second length.
pub fn second_size(kind: Kind, n: u64, length: u32) -> u64
    requires { n ≤ 1_048_576 }
    ensures { (result ≡ second_size kind n length) × (result ≤ 2 ^ 32) }
{
    match kind {
        Kind::Bytes32 | Kind::Bytes64 => length as u64,
        Kind::Lists32 => 4 * n,
        Kind::Lists64 => 8 * n,
        _ => 0,
    }
}

// Whether a buffer of node i leaves the body.
fn bad_buffers(pack: &[u8], i: u32) -> bool
    requires { (i < node_count pack.now) × (node_count pack.now ≤ 64) × (wrong_rows pack.now ≡ false) }
    ensures { result ≡ bad_buffers pack.now i }
{
    let n = node_at(pack, i);
    let kind = Kind::from(n.kind);
    let end = table_start(pack) as u64;
    let places = n.skip as u64 + n.rows as u64;
    let first = first_size(kind, n.param, places, child_rows(pack, i));
    let second = second_size(kind, places, n.second_length);
    let marks = (places + 7) / 8;
    n.bitmap().is_some_and(|at| end < at as u64 + marks)
        | (end < n.first_at as u64 + first)
        | (end < n.second_at as u64 + second)
}

// 7, of all nodes.
pub fn wrong_buffers(pack: &[u8]) -> bool
    requires { (node_count pack.now ≤ 64) × (wrong_rows pack.now ≡ false) }
    ensures { result ≡ wrong_buffers pack.now }
{
    (0..node_count(pack)).any(|i| bad_buffers(pack, i))
}
