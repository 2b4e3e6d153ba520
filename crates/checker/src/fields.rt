// Refusal 4: kind, param, kids number, bitmap where none may be, unused field.
ghost use Rattle.std.specs.Prelude.{◌≡◌, not, ◌||◌, eqb, ◌<◌};
ghost use Rattle.format.specs.Node.{kind, no_bitmap};
ghost use Rattle.format.specs.Verdict.{layout, misused, bad_fields, wrong_fields};

use format::Kind;
use pack::Node;
use pack::frame::carries_counts;
use pack::read::{node_at, node_count};

// Whether a node's fields are not those of its kind's row in the table of kinds. The row: whether it allows the param and the
// kids; whether a bitmap may stand; whether first at, second at and second length are used. The last field is used where the pack carries counts.
fn misfits(
    n: Node,
    param: bool,
    kids: bool,
    bitmap: bool,
    first: bool,
    second: bool,
    length: bool,
    counts: bool,
) -> bool
    ensures { result ≡ (not param || not kids || not (bitmap || eqb n.validity_at no_bitmap) || misused first n.first_at
        || misused second n.second_at || misused length n.second_length || misused counts n.last_field) }
{
    !param
        | !kids
        | !(bitmap | n.bitmap().is_none())
        | !(first | (n.first_at == 0))
        | !(second | (n.second_at == 0))
        | !(length | (n.second_length == 0))
        | !(counts | (n.last_field == 0))
}

// Whether node i's fields are wrong: its kind's row of the table of kinds.
fn bad_fields(pack: &[u8], i: u32) -> bool
    ensures { result ≡ bad_fields (layout (kind pack.now i)) pack.now i }
{
    let counts = carries_counts(pack);
    let n = node_at(pack, i);
    let p = n.param;
    let k = n.kids;
    match Kind::from(n.kind) {
        Kind::Bits => misfits(n, p == 0, k == 0, true, true, false, false, counts),
        Kind::Native => {
            let width = (p == 1) | (p == 2) | (p == 4) | (p == 8) | (p == 16) | (p == 32);
            misfits(n, width, k == 0, true, true, false, false, counts)
        }
        Kind::Fixed => misfits(n, p <= 1024, k == 0, true, true, false, false, counts),
        Kind::Bytes32 | Kind::Bytes64 => {
            misfits(n, p == 0, k == 0, true, true, true, true, counts)
        }
        Kind::Views => misfits(n, p == 0, true, true, true, false, false, counts),
        Kind::Lists32 | Kind::Lists64 => {
            misfits(n, p == 0, k == 1, true, true, true, false, counts)
        }
        Kind::Runs => {
            let width = (p == 2) | (p == 4) | (p == 8);
            misfits(n, width, k == 1, false, true, false, false, counts)
        }
        Kind::Struct => misfits(n, p == 0, true, true, false, false, false, counts),
        Kind::Union => misfits(n, p == 0, true, false, true, false, false, counts),
        Kind::Dictionary => {
            let width = (p == 1) | (p == 2) | (p == 4) | (p == 8);
            misfits(n, width, k == 1, true, true, false, false, counts)
        }
        Kind::Nested32 | Kind::Nested64 => {
            misfits(n, p == 0, k == 1, true, true, false, false, counts)
        }
        Kind::Unknown => true,
    }
}

// 4, of all nodes.
pub fn wrong_fields(pack: &[u8]) -> bool
    ensures { result ≡ wrong_fields pack.now }
{
    (0..node_count(pack)).any(|i| bad_fields(pack, i))
}
