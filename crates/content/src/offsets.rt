// Offsets.
ghost use Rattle.std.specs.Prelude.{◌≡◌, ◌+◌, ◌*◌, ◌≤◌, length};
ghost use Rattle.content.specs.Numbers.{bad_offsets_at};

use crate::numbers::{nth, sign, turned};
use words::Number;

// Whether n + 1 numbers are no offsets into `limit` bytes. Those that do not fall from one that is not negative are not negative, so only the first is tested
// for its sign. As signed numbers they take .091 ns each at 4 bytes, by two unsigned tests .173, by the signs of differences .106; at 8 bytes .25, by differences .31.
pub fn bad_offsets<N: Number>(s: &[u8], at: usize, n: usize, limit: u32) -> bool
    requires { at + N.WIDTH * n + N.WIDTH ≤ length s.now }
    ensures { result ≡ bad_offsets_at N.WIDTH s.now at n limit }
{
    let mut bad = sign::<N>() <= nth::<N>(s, at, 0);
    for i in 0..n {
        let low = nth::<N>(s, at, i);
        let high = nth::<N>(s, at, i + 1);
        bad |= turned::<N>(high) < turned::<N>(low);
    }
    let last = nth::<N>(s, at, n);
    bad | (u64::from(limit) < last)
}
