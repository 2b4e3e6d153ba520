// Rows one after another, as a block gives them: those of a word, of a part of a list, of a run.
ghost use Rattle.std.specs.Prelude.{◌≡◌, ℕ, ◌-◌, ◌^◌, List, Option};
ghost use Rattle.std.specs.Iterator.{YieldsFirst, IsFinite, item_count};
ghost use Rattle.format.specs.Rows.{Below, set_rows};
ghost use Rattle.append.specs.Ranges.{range-gives};
ghost use Rattle.format.specs.Slots.{count_up};

use std::ops::Range;
use words::SetRows;

// An iterator over rows that shows which are left. It may be asked for them where each, and the one behind it, is a number.
pub trait Rows: Iterator<Item = usize> {
    ghost rows: { Self → List ℕ };

    ghost can: { (s : Self) → Below (2 ^ 64 - 1) (rows s) → Self.can_next s };

    ghost ends: { (s : Self) → IsFinite (Self.remaining s) };

    ghost gives: { (s : Self) (r : Option ℕ) (t : Self) → Self.next_gives s r t → YieldsFirst rows s r t };
}

impl Rows for SetRows {
    ghost rows = { λ s. set_rows s.base s.rest };

    ghost can = { λ s h. h };

    ghost ends = { λ s. tt };

    ghost gives = { λ s r t h. h };
}

// The rows that a list names.
#[derive(Drop)]
pub struct ListRows<'a> {
    rest: &'a [u32],
}

impl<'a> ListRows<'a> {
    pub fn new(list: &'a [u32]) -> ListRows<'a>
        ensures { result.rest.now ≡ list.now }
    {
        ListRows { rest: list }
    }
}

impl Iterator for ListRows<'_> {
    type Item = usize;

    ghost next_gives = { YieldsFirst (λ s. s.rest.now) };

    ghost remaining = { item_count (λ s. s.rest.now) };

    fn next(&mut self) -> Option<usize> {
        let (row, rest) = self.rest.split_first()?;
        self.rest = rest;
        Some(*row as usize)
    }
}

impl Rows for ListRows<'_> {
    ghost rows = { λ s. s.rest.now };

    ghost can = { λ s h. tt };

    ghost ends = { λ s. tt };

    ghost gives = { λ s r t h. h };
}

impl Rows for Range<usize> {
    ghost rows = { λ s. count_up (s.end - s.start) s.start };

    ghost can = { λ s h. tt };

    ghost ends = { λ s. tt };

    ghost gives = { range-gives };
}
