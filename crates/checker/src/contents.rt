// Refusal 8: the content of a node's buffers, which lie in the body by refusal 7.
ghost use Rattle.std.specs.Prelude.{◌≡◌, ◌<◌};
ghost use Rattle.format.specs.declared.Kind.TheVariants.{Dictionary};
ghost use Rattle.format.specs.Node.{node_count, kind};
ghost use Rattle.format.specs.Verdict.{bad_content, wrong_content};
ghost use Rattle.checker.specs.Laid.{Laid};

use content::keys::{bad_keys, bad_keys_of, bad_valid_keys};
use content::lists::bad_lists;
use content::offsets::bad_offsets;
use content::runs::bad_runs;
use content::views::bad_views;
use format::Kind;
use pack::read::{child_rows, node_at, node_count, table_start};

// Whether a key of a valid row of dictionary i is not below its child's rows.
fn bad_dictionary(pack: &[u8], i: u32) -> bool
    requires laid { Laid pack.now }
    requires i_bound { (i < node_count pack.now) × (kind pack.now i ≡ Dictionary) }
    ensures { result ≡ bad_content Dictionary pack.now i }
{
    let n = node_at(pack, i);
    let w = n.param;
    let skip = n.skip as usize;
    let rows = n.rows as usize;
    let limit = child_rows(pack, i);
    let at = n.first_at as usize + w as usize * skip;
    match n.bitmap() {
        Some(bitmap) => bad_valid_keys(pack, at, w, rows, limit, bitmap, skip),
        None => bad_keys(pack, at, w, rows, limit),
    }
}

// Whether node i's content is wrong, by its kind.
fn bad_content(pack: &[u8], i: u32) -> bool
    requires laid { Laid pack.now }
    requires i_bound { i < node_count pack.now }
    ensures { result ≡ bad_content (kind pack.now i) pack.now i }
{
    let n = node_at(pack, i);
    let at = n.first_at as usize;
    let second = n.second_at as usize;
    let skip = n.skip as usize;
    let rows = n.rows as usize;
    let below = child_rows(pack, i);
    match Kind::from(n.kind) {
        Kind::Bytes32 => bad_offsets::<u32>(pack, at + 4 * skip, rows, n.second_length),
        Kind::Bytes64 => bad_offsets::<u64>(pack, at + 8 * skip, rows, n.second_length),
        Kind::Views => {
            // the rows of the first data buffer: field 2 of the node behind this one
            let buffers = table_start(pack) as usize + 40 * (i as usize) + 48;
            bad_views(pack, at + 16 * skip, rows, n.kids, buffers)
        }
        Kind::Lists32 => bad_lists::<u32>(pack, at + 4 * skip, second + 4 * skip, rows, below),
        Kind::Lists64 => bad_lists::<u64>(pack, at + 8 * skip, second + 8 * skip, rows, below),
        Kind::Runs => bad_runs(pack, at, n.param, below as usize, n.skip + n.rows),
        Kind::Union => bad_keys_of::<u8>(pack, at + skip, rows, n.kids),
        Kind::Dictionary => bad_dictionary(pack, i),
        Kind::Nested32 => bad_offsets::<u32>(pack, at + 4 * skip, rows, below),
        Kind::Nested64 => bad_offsets::<u64>(pack, at + 8 * skip, rows, below),
        Kind::Bits | Kind::Native | Kind::Fixed | Kind::Struct | Kind::Unknown => false,
    }
}

// 8, of all nodes.
pub fn wrong_content(pack: &[u8]) -> bool
    requires { Laid pack.now }
    ensures { result ≡ wrong_content pack.now }
{
    (0..node_count(pack)).any(|i| bad_content(pack, i))
}
