// A mask prepared alone: where its bits stand, whether a stated count is right, and the answer, with the list stored where it is asked for.
#![tactic(auto)]

ghost use Rattle.std.specs.Prelude.{◌≡◌, length};
ghost use Rattle.std.proofs.Props.{props};
ghost use Rattle.format.specs.Mask.{route_of, entries};
ghost use Rattle.format.specs.Verdict.{mask_verdict};
ghost use Rattle.format.specs.Answer.{wrong_count, preparing, Prepares};
ghost use Rattle.slots.specs.Node.{bits_of};
ghost use Rattle.prepare.specs.Prepare.{Counted, Answered};

use checker::accept_mask;
use format::{Pack, Prepared, Ready, Reason, Refused, Route};
use pack::read::node_at;
use slots::{Bits, Source};
use stored_list::{list_entries, store_list};

// Where a mask's bits stand.
pub fn mask_bits(mask: &[u8]) -> Bits
    ensures { result ≡ bits_of mask.now 0 }
{
    let n = node_at(mask, 0);
    Bits {
        values_at: n.first_at as usize,
        validity: n.bitmap(),
        skip: n.skip as usize,
        len: n.rows as usize,
    }
}

// Whether a count is stated and wrong.
#[tactic(auto, unfolding(format::specs::Answer::wrong_count))]
pub fn wrong_count(stated: Option<u64>, kept: usize) -> bool
    ensures { result ≡ wrong_count stated kept }
{
    stated.is_some_and(|n| n != kept as u64)
}

// An accepted mask: its bits, how many slots they pick, and the route by that count.
#[derive(Clone, Copy)]
pub struct Mask<'a> {
    pub source: Source<'a>,
    pub kept: usize,
    pub route: Route,
    pub ghost counted: { Counted source.bytes.now source.bits kept } by { Prim.hlevel props },
    pub ghost goes: { route ≡ route_of source.bits.len kept },
}

impl<'a> Mask<'a> {
    pub fn new(bytes: &'a [u8]) -> Mask<'a>
        requires { mask_verdict bytes.now ≡ 0 }
        ensures { result.source.bytes ≡ bytes.entry }
    {
        let bits = mask_bits(bytes);
        let source = Source { bytes, bits };
        let kept = source.count();
        let route = Route::default_strategy(bits.len, kept);
        Mask {
            source,
            kept,
            route,
        }
    }

    // How many entries the route's list has.
    pub fn list_entries(self) -> usize
        ensures { result ≡ length (entries self.entry.source.bytes.now) }
    {
        list_entries(self.source, self.route, self.kept)
    }
}

// The answer once the mask is accepted and the count is right: the list is stored where it is asked for, and refused where it is short. In each function
// here `asked` stands beside the list as it does in `filter::filter`.
fn prepare_list(mask: Mask, asked: bool, list: &mut [u32]) -> Prepared
    ensures { Answered (preparing mask.entry.source.bytes.now None asked list.old) result list.new }
{
    let ready = Ready {
        kept: mask.kept as u64,
        slots: mask.source.bits.len as u64,
        route: mask.route,
    };
    if !asked {
        return Ok(ready);
    }
    if list.len() < mask.list_entries() {
        return Err(Refused::new(Reason::List, Pack::Journal));
    }
    store_list(mask.source, mask.route, list);
    Ok(ready)
}

// The answer once the mask is accepted.
fn prepare_accepted(mask: &[u8], stated: Option<u64>, asked: bool, list: &mut [u32]) -> Prepared
    requires { mask_verdict mask.now ≡ 0 }
    ensures { Prepares (preparing mask.now stated asked list.old) result list.new }
{
    let accepted = Mask::new(mask);
    if wrong_count(stated, accepted.kept) {
        return Err(Refused::new(Reason::Count, Pack::Mask));
    }
    prepare_list(accepted, asked, list)
}

// A mask prepared alone, whatever bytes it is: how many slots it keeps, how many it has and its route, with the list stored where it is asked
// for; or the slip by which a call with it would be refused.
pub fn prepare(mask: &[u8], stated: Option<u64>, asked: bool, list: &mut [u32]) -> Prepared
    ensures { Prepares (preparing mask.now stated asked list.old) result list.new }
{
    accept_mask(mask)?;
    prepare_accepted(mask, stated, asked, list)
}
