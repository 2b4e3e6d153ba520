// Refusal 20: the null counts that the nodes carry.
ghost use Rattle.std.specs.Prelude.{not, ◌≡◌, ◌<◌, eqb};
ghost use Rattle.format.specs.Node.{node_count, last_field, null_count};
ghost use Rattle.format.specs.Verdict.{wrong_nulls};
ghost use Rattle.checker.specs.Laid.{Laid};

use pack::frame::carries_counts;
use pack::read::{node_at, node_count};

// How many rows of node i from skip on are null, by its bitmap; without one, none.
fn null_count(pack: &[u8], i: u32) -> usize
    requires laid { Laid pack.now }
    requires i_bound { i < node_count pack.now }
    ensures { result ≡ null_count pack.now i }
{
    let n = node_at(pack, i);
    match n.bitmap() {
        Some(at) => slots::null_count(pack, at, n.skip as usize, n.rows as usize),
        None => 0,
    }
}

// Whether node i's last field is not its null count.
fn wrong_count(pack: &[u8], i: u32) -> bool
    requires laid { Laid pack.now }
    requires i_bound { i < node_count pack.now }
    ensures { result ≡ not (eqb (last_field pack.now i) (null_count pack.now i)) }
{
    let carried = node_at(pack, i).last_field as usize;
    carried != null_count(pack, i)
}

// 20, of all nodes; never under the old mark.
pub fn wrong_nulls(pack: &[u8]) -> bool
    requires { Laid pack.now }
    ensures { result ≡ wrong_nulls pack.now }
{
    carries_counts(pack) && (0..node_count(pack)).any(|i| wrong_count(pack, i))
}
