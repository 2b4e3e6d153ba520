// The rows that bits in a slice pick as a list that is stored: the route's entries, all of them and no more. The list alone gives the rows: whether the bits
// lie in the slice is asked where they are read (`Sourced`).
ghost use Rattle.std.specs.Prelude.{◌≡◌};
ghost use Rattle.predicate.specs.Entries.{picks_by, bounds_by};

use slots::Bits;

// By start and end of each run.
#[derive(Clone, Copy)]
pub struct StoredRuns<'a> {
    pub bytes: &'a [u8],
    pub bits: Bits,
    pub ends: &'a [u32],
    pub ghost holds: { ends.now ≡ bounds_by bytes.now bits },
}

// By the rows' numbers.
#[derive(Clone, Copy)]
pub struct StoredRows<'a> {
    pub bytes: &'a [u8],
    pub bits: Bits,
    pub rows: &'a [u32],
    pub ghost holds: { rows.now ≡ picks_by bytes.now bits },
}
