// Copies of any length by whole words: two moves that may overlap, or moves of 32 bytes of which the last may. No byte goes by itself.
#![tactic(auto)]

ghost use Rattle.std.specs.Prelude.{◌+◌, ◌≤◌, ◌<◌, length};
ghost use Rattle.format.specs.Put.{Wrote};
ghost use Rattle.format.specs.Bytes.{bytes_at};

// Between N and 2 N bytes, by two moves that may overlap: no loop, and no byte by itself.
fn pair<const N: usize>(out: &mut [u8], at: usize, src: &[u8], from: usize, n: usize) -> usize
    requires { (N ≤ n) × (n ≤ N + N) × (at + n ≤ length out.old) × (from + n ≤ length src.now) }
    ensures { Wrote out.old at (bytes_at src.now from n) out.new result }
{
    let k = n - N;
    words::move_bytes::<N>(out, at, src, from);
    words::move_bytes::<N>(out, at + k, src, from + k)
}

// Fewer than 8 bytes.
fn copy_few(out: &mut [u8], at: usize, src: &[u8], from: usize, n: usize) -> usize
    requires { (n < 8) × (at + n ≤ length out.old) × (from + n ≤ length src.now) }
    ensures { Wrote out.old at (bytes_at src.now from n) out.new result }
{
    match n {
        0 => at,
        1 => words::move_bytes::<1>(out, at, src, from),
        2..=3 => pair::<2>(out, at, src, from, n),
        _ => pair::<4>(out, at, src, from, n),
    }
}

// 32 bytes or more, by 32 at a time: the last 32 may overlap those before them, so that no byte goes by itself. The library's copy is a call, and slower
// up to 1,024 bytes: 19 ns against 7 at 32 bytes, 23 against 13 at 512; at 4,096 it takes 70 against 84.
fn copy_long(out: &mut [u8], at: usize, src: &[u8], from: usize, n: usize) -> usize
    requires { (32 ≤ n) × (at + n ≤ length out.old) × (from + n ≤ length src.now) }
    ensures { Wrote out.old at (bytes_at src.now from n) out.new result }
{
    let k = n - 32;
    for i in 0..k.div_ceil(32) {
        words::move_bytes::<32>(out, at + 32 * i, src, from + 32 * i);
    }
    words::move_bytes::<32>(out, at + k, src, from + k)
}

// n bytes of src to a place, as `copy` does, where n is mostly small: texts.
pub fn copy_short(out: &mut [u8], at: usize, src: &[u8], from: usize, n: usize) -> usize
    requires { (at + n ≤ length out.old) × (from + n ≤ length src.now) }
    ensures { Wrote out.old at (bytes_at src.now from n) out.new result }
{
    match n {
        ..8 => copy_few(out, at, src, from, n),
        ..=16 => pair::<8>(out, at, src, from, n),
        ..=32 => pair::<16>(out, at, src, from, n),
        ..=64 => pair::<32>(out, at, src, from, n),
        _ => copy_long(out, at, src, from, n),
    }
}

// n bytes of src to a place: long parts, and entries of no word's width.
pub fn copy(out: &mut [u8], at: usize, src: &[u8], from: usize, n: usize) -> usize
    requires { (at + n ≤ length out.old) × (from + n ≤ length src.now) }
    ensures { Wrote out.old at (bytes_at src.now from n) out.new result }
{
    if 32 <= n {
        return copy_long(out, at, src, from, n);
    }
    copy_short(out, at, src, from, n)
}
