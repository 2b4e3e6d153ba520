// Run ends, as a runs node has them.
ghost use Rattle.std.specs.Prelude.{◌≡◌, ◌-◌, ◌<◌, min};
ghost use Rattle.runs.specs.Groups.{EndsLie, end_at};

use words::read_number;

// The run ends of a runs node: `count` numbers of `width` bytes, from `first` on. Its rows are those behind the first `skip` that the runs have.
#[derive(Clone, Copy)]
pub struct RunEnds<'a> {
    pub bytes: &'a [u8],
    pub first: usize,
    pub width: usize,
    pub count: usize,
    pub skip: usize,
    pub ghost lie: { EndsLie width bytes.now first count },
}

impl RunEnds<'_> {
    // Where run j ends among the first `len` rows: a run may go on past the last of them.
    #[inline(always)]
    pub fn end(self, j: usize, len: usize) -> usize
        requires { j < self.count }
        ensures { result ≡ min (end_at self.entry.width self.entry.bytes.now self.entry.first j - self.entry.skip) len }
    {
        let end = read_number(self.bytes, self.first + self.width * j, self.width) as usize;
        end.saturating_sub(self.skip).min(len)
    }
}
