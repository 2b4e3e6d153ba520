// The types that the code and the definitions of the format (docs/FORMAT.md) share. Their meaning is in specs/.
#![tactic(auto)]

ghost use Rattle.std.specs.Prelude.{◌≡◌, ◌≤◌, Some};
ghost use Rattle.format.specs.Node.{kind_of};
ghost use Rattle.format.specs.Mask.{route_of, route_number};
ghost use Rattle.format.specs.Verdict.{row_limit};
ghost use Rattle.format.specs.Reason.{reason_number};
ghost use Rattle.format.specs.Names.{pack_number, route_name, pack_name, done_text, refused_text};

use std::error::Error;
use std::fmt;

// A node's kind, with the width in bits of offsets where there are two. Lists32 and Lists64 are list views, Nested32 and Nested64 lists whose
// child rows follow one another. Unknown is every number that is no kind.
#[derive(Clone, Copy, Debug, PartialEq, Eq)]
pub enum Kind {
    Bits,
    Native,
    Fixed,
    Bytes32,
    Bytes64,
    Views,
    Lists32,
    Lists64,
    Runs,
    Struct,
    Union,
    Dictionary,
    Nested32,
    Nested64,
    Unknown,
}

// The kind of a number.
impl From<u32> for Kind {
    ghost from_gives = { λ n kind. kind ≡ kind_of n };

    #[tactic(auto, unfolding(crate::specs::Node::kind_of))]
    fn from(n: u32) -> Kind {
        match n {
            1 => Kind::Bits,
            2 => Kind::Native,
            3 => Kind::Fixed,
            4 => Kind::Bytes32,
            5 => Kind::Bytes64,
            6 => Kind::Views,
            7 => Kind::Lists32,
            8 => Kind::Lists64,
            9 => Kind::Runs,
            10 => Kind::Struct,
            11 => Kind::Union,
            12 => Kind::Dictionary,
            13 => Kind::Nested32,
            14 => Kind::Nested64,
            _ => Kind::Unknown,
        }
    }
}

// How a selection is walked.
#[derive(Clone, Copy, Debug, PartialEq, Eq)]
pub enum Route {
    None,
    All,
    Slices,
    Indices,
}

impl Route {
    // A share of picked slots above this one goes by runs: they are then so long that a copy of each costs less than one row number a row.
    // docs/FORMAT.md (6) and filter.rs have the same number.
    pub const FILTER_SLICES_SELECTIVITY_THRESHOLD: f64 = 0.8;

    // The route of a mask of `filter_length` slots of which `filter_count` are picked.
    pub fn default_strategy(filter_length: usize, filter_count: usize) -> Route
        requires { (filter_length ≤ row_limit) × (filter_count ≤ row_limit) }
        ensures { result ≡ route_of filter_length filter_count }
    {
        if filter_length == 0 || filter_count == 0 {
            return Route::None;
        }
        if filter_count == filter_length {
            return Route::All;
        }
        let selectivity_frac = filter_count as f64 / filter_length as f64;
        if selectivity_frac > Route::FILTER_SLICES_SELECTIVITY_THRESHOLD {
            return Route::Slices;
        }
        Route::Indices
    }
}

// The route's number, where an answer is given by numbers alone.
impl From<Route> for u64 {
    ghost from_gives = { λ route n. n ≡ route_number route };

    fn from(route: Route) -> u64 {
        route as u64
    }
}

impl fmt::Display for Route {
    ghost output = { λ route. Some (route_name route) };

    fn fmt<W: fmt::Write>(&self, f: &mut fmt::Formatter<W>) -> fmt::Result {
        match self {
            Route::None => write!(f, "none"),
            Route::All => write!(f, "all"),
            Route::Slices => write!(f, "slices"),
            Route::Indices => write!(f, "indices"),
        }
    }
}

// The pack that a refusal names.
#[derive(Clone, Copy, Debug, PartialEq, Eq)]
pub enum Pack {
    Mask,
    Journal,
}

// The pack's number, where an answer is given by numbers alone.
impl From<Pack> for u64 {
    ghost from_gives = { λ pack n. n ≡ pack_number pack };

    fn from(pack: Pack) -> u64 {
        pack as u64
    }
}

impl fmt::Display for Pack {
    ghost output = { λ pack. Some (pack_name pack) };

    fn fmt<W: fmt::Write>(&self, f: &mut fmt::Formatter<W>) -> fmt::Result {
        match self {
            Pack::Mask => write!(f, "mask"),
            Pack::Journal => write!(f, "journal"),
        }
    }
}

// Why a pack or a call is refused, by the numbers of docs/FORMAT.md (11), which are the only ones.
#[derive(Clone, Copy, Debug, PartialEq, Eq)]
pub enum Reason {
    Size = 1,
    Mark = 2,
    Table = 3,
    Fields = 4,
    Tree = 5,
    Rows = 6,
    Buffers = 7,
    Content = 8,
    MaskKind = 9,
    TooLong = 10,
    Count = 11,
    List = 12,
    Scratch = 13,
    Output = 14,
    Nulls = 20,
}

impl From<Reason> for u64 {
    ghost from_gives = { λ reason n. n ≡ reason_number reason };

    fn from(reason: Reason) -> u64 {
        reason as u64
    }
}

// A refusal: its reason, and the pack that it names.
#[derive(Clone, Copy, Debug, PartialEq, Eq)]
pub struct Refused {
    pub reason: Reason,
    pub pack: Pack,
}

impl Refused {
    pub fn new(reason: Reason, pack: Pack) -> Refused
        ensures { result ≡ record { reason = reason; pack = pack } }
    {
        Refused { reason, pack }
    }
}

impl fmt::Display for Refused {
    ghost output = { λ refused. Some (refused_text refused) };

    fn fmt<W: fmt::Write>(&self, f: &mut fmt::Formatter<W>) -> fmt::Result {
        write!(f, "refused {} {}", u64::from(self.reason), self.pack)
    }
}

impl Error for Refused {}

// What a call gives that is not refused: kept rows, mask length, route and extract length.
#[derive(Clone, Copy, Debug, PartialEq, Eq)]
pub struct Done {
    pub kept: u64,
    pub slots: u64,
    pub route: Route,
    pub bytes: u64,
}

impl fmt::Display for Done {
    ghost output = { λ done. Some (done_text done) };

    fn fmt<W: fmt::Write>(&self, f: &mut fmt::Formatter<W>) -> fmt::Result {
        write!(
            f,
            "rows {} of {} route {} bytes {}",
            self.kept, self.slots, self.route, self.bytes
        )
    }
}

// What preparing a mask alone gives that is not refused: kept rows, mask length and route.
#[derive(Clone, Copy, Debug, PartialEq, Eq)]
pub struct Ready {
    pub kept: u64,
    pub slots: u64,
    pub route: Route,
}

// The answer of a call, and that of a mask prepared alone.
pub type Answer = Result<Done, Refused>;

pub type Prepared = Result<Ready, Refused>;
