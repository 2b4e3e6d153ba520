// How long buffers are, from counts alone.
ghost use Rattle.std.specs.Prelude.{◌≡◌, ◌+◌, ◌^◌, ◌≤◌};
ghost use Rattle.format.specs.Bytes.{bytes_for, raised};
ghost use Rattle.format.specs.Verdict.{layout, first_size, second_size};
ghost use Rattle.format.specs.Size.{grown_if};

use format::Kind;

// How many bytes hold n bits.
#[tactic(auto, unfolding(format::specs::Bytes::bytes_for))]
pub fn bytes_for(n: usize) -> usize
    requires { n ≤ 2 ^ 40 }
    ensures { (result ≡ bytes_for n) × (result ≤ n) }
{
    (n + 7) / 8
}

// A place raised to a multiple of 8.
#[tactic(auto, unfolding(format::specs::Bytes::raised))]
pub fn raise(n: usize) -> usize
    requires { n ≤ 2 ^ 40 }
    ensures { result ≡ raised n }
{
    (n + 7) / 8 * 8
}

// The body's length after a buffer, if it is there.
#[tactic(auto, unfolding(format::specs::Bytes::raised, format::specs::Size::grown_if))]
pub fn grow(at: usize, here: bool, len: usize) -> usize
    requires { (at ≤ 2 ^ 40) × (len ≤ 2 ^ 32) }
    ensures { (result ≡ grown_if at here len) × (result ≤ at + 7 + len) }
{
    if here {
        return raise(at) + len;
    }
    at
}

// Whether a node of a kind has a first buffer; a second.
pub fn has_first(kind: Kind) -> bool
    ensures { result ≡ (layout kind).first }
{
    match kind {
        Kind::Struct => false,
        _ => true,
    }
}

pub fn has_second(kind: Kind) -> bool
    ensures { result ≡ (layout kind).second }
{
    match kind {
        Kind::Bytes32 | Kind::Bytes64 | Kind::Lists32 | Kind::Lists64 | Kind::Unknown => true,
        _ => false,
    }
}

// The bytes of a first buffer, by kind, param, rows and runs.
#[tactic(auto, unfolding(format::specs::Bytes::bytes_for))]
pub fn first_size(kind: Kind, p: usize, n: usize, c: usize) -> usize
    requires { (p ≤ 1024) × (n ≤ 1_048_576) × (c ≤ 1_048_576) }
    ensures { (result ≡ first_size kind p n c) × (result ≤ 2 ^ 30) }
{
    match kind {
        Kind::Bits => bytes_for(n),
        Kind::Native | Kind::Fixed | Kind::Dictionary => p * n,
        Kind::Bytes32 | Kind::Nested32 => 4 * (n + 1),
        Kind::Bytes64 | Kind::Nested64 => 8 * (n + 1),
        Kind::Views => 16 * n,
        Kind::Lists32 => 4 * n,
        Kind::Lists64 => 8 * n,
        Kind::Runs => p * c,
        Kind::Union => n,
        Kind::Struct | Kind::Unknown => 0,
    }
}

// The bytes of a second buffer, by kind, rows and data bytes.
pub fn second_size(kind: Kind, n: usize, l: usize) -> usize
    requires { (n ≤ 1_048_576) × (l ≤ 2 ^ 30) }
    ensures { (result ≡ second_size kind n l) × (result ≤ 2 ^ 30) }
{
    match kind {
        Kind::Bytes32 | Kind::Bytes64 => l,
        Kind::Lists32 => 4 * n,
        Kind::Lists64 => 8 * n,
        _ => 0,
    }
}
