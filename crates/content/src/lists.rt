// List views: offsets and sizes.
ghost use Rattle.std.specs.Prelude.{◌≡◌, ◌+◌, ◌*◌, ◌≤◌, length};
ghost use Rattle.format.specs.Bytes.{any_below};
ghost use Rattle.content.specs.Numbers.{bad_range_at};

use crate::numbers::{nth, sign};
use words::Number;

// Whether some of n list views, with offsets at a place and sizes at another, ends past `limit` rows. Signs are joined by bits and looked at once, at the end;
// what fits of the sum of two numbers that are not negative is all of it.
pub fn bad_lists<N: Number>(s: &[u8], at: usize, sizes: usize, n: usize, limit: u32) -> bool
    requires { (at + N.WIDTH * n ≤ length s.now) × (sizes + N.WIDTH * n ≤ length s.now) }
    ensures { result ≡ any_below (bad_range_at N.WIDTH s.now at sizes limit) n }
{
    let mut signs = N::low(0);
    let mut bad = false;
    for i in 0..n {
        let offset = nth::<N>(s, at, i);
        let size = nth::<N>(s, sizes, i);
        let end = N::low(offset.wrapping_add(size)).wide();
        signs = N::low(signs.wide() | offset | size);
        bad |= u64::from(limit) < end;
    }
    (sign::<N>() <= signs.wide()) | bad
}
