// Numbers from a place on, and numbers as signed ones. Slice, place and count are parameters: a struct of them would be made for one call, its fact stated there as
// it is here.
ghost use Rattle.std.specs.Prelude.{◌≡◌, ◌+◌, ◌*◌, ◌-◌, ◌%◌, ◌^◌, ◌<◌, ◌≤◌, length};
ghost use Rattle.content.specs.Numbers.{number};

use words::Number;

// Number i.
pub fn nth<N: Number>(s: &[u8], at: usize, i: usize) -> u64
    requires { at + N.WIDTH * i + N.WIDTH ≤ length s.now }
    ensures value { result ≡ number N.WIDTH s.now at i }
    ensures fits { result < 256 ^ N.WIDTH }
{
    N::get(s, at + N::WIDTH * i).wide()
}

// The sign bit, which is the least number that is negative.
pub fn sign<N: Number>() -> u64
    ensures { result ≡ 2 ^ (8 * N.WIDTH - 1) }
{
    1 << (8 * N::WIDTH - 1)
}

// A number with its sign bit turned: two such numbers compare as the signed ones do, which vectors do in one step.
pub fn turned<N: Number>(x: u64) -> u64
    ensures { result ≡ (x + 2 ^ (8 * N.WIDTH - 1)) % 256 ^ N.WIDTH }
{
    N::low(x.wrapping_add(sign::<N>())).wide()
}
