// Keys. Ids are keys of 1 byte.
ghost use Rattle.std.specs.Prelude.{◌≡◌, ◌+◌, ◌*◌, ◌/◌, ◌^◌, ◌<◌, ◌≤◌, length};
ghost use Rattle.format.specs.Bytes.{bit_at, any_below};
ghost use Rattle.words.specs.Width.{IsWidth};
ghost use Rattle.content.specs.Numbers.{bad_key, bad_valid_key};

use crate::numbers::nth;
use words::Number;

// Whether some of n keys is not below the limit. A limit that does not fit is above them all. Others are taken from the key, which wraps where the key is less:
// so the compiler compares at the key's own width, bytes 16 at a time.
pub fn bad_keys_of<N: Number>(s: &[u8], at: usize, n: usize, limit: u32) -> bool
    requires { at + N.WIDTH * n ≤ length s.now }
    ensures { result ≡ any_below (bad_key N.WIDTH s.now at limit) n }
{
    let least = N::low(u64::from(limit)).wide();
    if least < u64::from(limit) {
        return false;
    }
    let mut bad = false;
    for i in 0..n {
        let key = nth::<N>(s, at, i);
        bad |= N::low(key.wrapping_sub(least)).wide() <= key;
    }
    bad
}

// The same, of keys of w bytes.
pub fn bad_keys(s: &[u8], at: usize, w: u32, n: usize, limit: u32) -> bool
    requires { IsWidth w × (at + w * n ≤ length s.now) }
    ensures { result ≡ any_below (bad_key w s.now at limit) n }
{
    // What is chosen is a type, once a column: no closure can stand for it.
    match w {
        1 => bad_keys_of::<u8>(s, at, n, limit),
        2 => bad_keys_of::<u16>(s, at, n, limit),
        4 => bad_keys_of::<u32>(s, at, n, limit),
        _ => bad_keys_of::<u64>(s, at, n, limit),
    }
}

// Bit k, counted from bit 0 of the byte at a place.
fn bit(s: &[u8], at: usize, k: usize) -> bool
    requires { at + k / 8 < length s.now }
    ensures { result ≡ bit_at s.now at k }
{
    let byte = s[at + k / 8];
    (byte >> (k % 8) as u8) % 2 == 1
}

// Whether some key of a valid row is not below the limit: row r is valid where bit k + r of a bitmap is set. Where no key at all is
// bad, as is usual, the bits need no look.
fn bad_valid_keys_of<N: Number>(
    s: &[u8],
    at: usize,
    n: usize,
    limit: u32,
    bits: usize,
    k: usize,
) -> bool
    requires keys { at + N.WIDTH * n ≤ length s.now }
    requires n_bound { (8 * bits + k + n ≤ 8 * length s.now) × (k + n < 2 ^ 63) }
    ensures { result ≡ any_below (bad_valid_key N.WIDTH s.now at limit bits k) n }
{
    if !bad_keys_of::<N>(s, at, n, limit) {
        return false;
    }
    let mut bad = false;
    for i in 0..n {
        let valid = bit(s, bits, k + i);
        let key = nth::<N>(s, at, i);
        bad |= valid & (u64::from(limit) <= key);
    }
    bad
}

// The same, of keys of w bytes.
pub fn bad_valid_keys(
    s: &[u8],
    at: usize,
    w: u32,
    n: usize,
    limit: u32,
    bits: usize,
    k: usize,
) -> bool
    requires w_value { IsWidth w × (at + w * n ≤ length s.now) }
    requires n_bound { (8 * bits + k + n ≤ 8 * length s.now) × (k + n < 2 ^ 63) }
    ensures { result ≡ any_below (bad_valid_key w s.now at limit bits k) n }
{
    // What is chosen is a type, once a column: no closure can stand for it.
    match w {
        1 => bad_valid_keys_of::<u8>(s, at, n, limit, bits, k),
        2 => bad_valid_keys_of::<u16>(s, at, n, limit, bits, k),
        4 => bad_valid_keys_of::<u32>(s, at, n, limit, bits, k),
        _ => bad_valid_keys_of::<u64>(s, at, n, limit, bits, k),
    }
}
