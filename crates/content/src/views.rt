// Views, 16 bytes each: length, prefix, buffer number, offset; or length and up to 12 bytes. The slice, and how many data buffers it has and where, are parameters: a
// struct of them would be made for one call, its fact stated there as it is here.
ghost use Rattle.std.specs.Prelude.{◌≡◌, ◌+◌, ◌*◌, ◌<◌, ◌≤◌, ◌||◌, length};
ghost use Rattle.format.specs.Bytes.{le, negative, any_below};
ghost use Rattle.content.specs.Numbers.{unused_at, bad_long_at, bad_view_at, DataBuffers};

use words::Number;

// Whether a short view has a byte that is not zero past its length: the bytes that it uses are shifted out, and nothing may be left. The last eight go
// by half of the bits twice, since a shift by all 64 bits is none.
fn bad_unused(s: &[u8], here: usize, len: u32) -> bool
    requires { (here + 16 ≤ length s.now) × (len ≤ 12) }
    ensures { result ≡ unused_at s.now here len }
{
    let front = u32::get(s, here + 4) as u64;
    let back = u64::get(s, here + 8);
    let few = u64::from(len.min(4));
    let half = 4 * (len as u64 - few);
    ((front >> (8 * few)) | ((back >> half) >> half)) != 0
}

// Whether a long view is wrong. Its data bytes are read only once its range is known to lie in the buffer. A negative length is read as 2³¹ or more, and
// so is past the end of any.
fn bad_long(s: &[u8], here: usize, kids: u32, buffers: usize) -> bool
    requires { (here + 16 ≤ length s.now) × (12 < le 4 s.now here) × DataBuffers s.now kids buffers }
    ensures { result ≡ (negative 4 (le 4 s.now here) || bad_long_at s.now kids buffers here) }
{
    let buffer = u32::get(s, here + 8);
    if kids <= buffer {
        return true;
    }
    let node = buffers + 40 * (buffer as usize);
    let offset = u32::get(s, here + 12);
    let rows = u32::get(s, node) as u64;
    if rows < offset as u64 + u32::get(s, here) as u64 {
        return true;
    }
    let data = u32::get(s, node + 16) as usize + u32::get(s, node + 4) as usize + offset as usize;
    u32::get(s, here + 4) != u32::get(s, data)
}

// Whether the view at a place is wrong. Long or short is a branch, as it is in Rust: only one of the two tests is made. Without a branch both are, which in
// a model was quicker for lengths mixed at random and took twice as long for lengths of one sort (docs/DECISIONS.md, 77).
fn bad_view(s: &[u8], here: usize, kids: u32, buffers: usize) -> bool
    requires { (here + 16 ≤ length s.now) × DataBuffers s.now kids buffers }
    ensures { result ≡ bad_view_at s.now kids buffers here }
{
    let len = u32::get(s, here);
    if 12 < len {
        bad_long(s, here, kids, buffers)
    } else {
        bad_unused(s, here, len)
    }
}

// Whether some of n views is wrong: the first that is ends the walk.
pub fn bad_views(s: &[u8], at: usize, n: usize, kids: u32, buffers: usize) -> bool
    requires { (at + 16 * n ≤ length s.now) × DataBuffers s.now kids buffers }
    ensures { result ≡ any_below (λ r. bad_view_at s.now kids buffers (at + 16 * r)) n }
{
    (0..n).any(|i| bad_view(s, at + 16 * i, kids, buffers))
}
