// Numbers, lists of fields, and zeros up to a multiple of 8.
ghost use Rattle.std.specs.Prelude.{◌+◌, ◌≤◌, length};
ghost use Rattle.format.specs.Bytes.{to_le};
ghost use Rattle.format.specs.Put.{Wrote};
ghost use Rattle.format.specs.Write.{numbers};
ghost use Rattle.append.specs.Cells.{zeros, padding};

use words::Number;

// x in width bytes, low byte first. Only the bytes that fit are written. It ends a bitmap, so that a width may be any.
pub fn put_number(out: &mut [u8], at: usize, x: u64, width: usize) -> usize
    requires { at + width ≤ length out.old }
    ensures { Wrote out.old at (to_le width x) out.new result }
{
    let mut left = x;
    for i in 0..width {
        out[at + i] = (left % 256) as u8;
        left /= 256;
    }
    at + width
}

// Each number in 4 bytes: the fields of a node, the trailer.
pub fn put_fields(out: &mut [u8], at: usize, fs: &[u32]) -> usize
    requires { at + length (numbers 4 fs.now) ≤ length out.old }
    ensures { Wrote out.old at (numbers 4 fs.now) out.new result }
{
    let mut here = at;
    for field in fs {
        here = field.put(out, here);
    }
    here
}

// n zeros.
pub fn put_zeros(out: &mut [u8], at: usize, n: usize) -> usize
    requires { at + n ≤ length out.old }
    ensures { Wrote out.old at (zeros n) out.new result }
{
    out[at..at + n].fill(0);
    at + n
}

// Zeros up to the next multiple of 8, where every buffer starts.
pub fn pad(out: &mut [u8], at: usize) -> usize
    requires { at + length (padding at) ≤ length out.old }
    ensures { Wrote out.old at (padding at) out.new result }
{
    put_zeros(out, at, (8 - at % 8) % 8)
}
