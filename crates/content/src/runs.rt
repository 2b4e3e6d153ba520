// Run ends.
ghost use Rattle.std.specs.Prelude.{◌≡◌, ◌+◌, ◌*◌, ◌≤◌, true, [], ◌∷◌, length};
ghost use Rattle.format.specs.Verdict.{one_of};
ghost use Rattle.content.specs.Numbers.{bad_runs_at};

use crate::numbers::{nth, turned};
use words::Number;

// Whether n numbers are no run ends: as signed ones, not rising from above 0 to at least `places`.
fn bad_runs_of<N: Number>(s: &[u8], at: usize, n: usize, places: u32) -> bool
    requires { at + N.WIDTH * n ≤ length s.now }
    ensures { result ≡ bad_runs_at N.WIDTH s.now at n places }
{
    if n == 0 {
        return 0 < places;
    }
    let mut bad = turned::<N>(nth::<N>(s, at, 0)) <= turned::<N>(0);
    for i in 0..n - 1 {
        let low = nth::<N>(s, at, i);
        let high = nth::<N>(s, at, i + 1);
        bad |= turned::<N>(high) <= turned::<N>(low);
    }
    let last = nth::<N>(s, at, n - 1);
    bad | (last < u64::from(places))
}

// The same, of run ends of w bytes.
pub fn bad_runs(s: &[u8], at: usize, w: u32, n: usize, places: u32) -> bool
    requires { (one_of (2 ∷ 4 ∷ 8 ∷ []) w ≡ true) × (at + w * n ≤ length s.now) }
    ensures { result ≡ bad_runs_at w s.now at n places }
{
    // What is chosen is a type, once a column: no closure can stand for it.
    match w {
        2 => bad_runs_of::<u16>(s, at, n, places),
        4 => bad_runs_of::<u32>(s, at, n, places),
        _ => bad_runs_of::<u64>(s, at, n, places),
    }
}
