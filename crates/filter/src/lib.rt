// The public call: a mask and a journal in, the extract or one numbered refusal out.
#![tactic(auto)]

ghost use Rattle.std.specs.Prelude.{◌≡◌, ◌&&◌, ltb, length};
ghost use Rattle.format.specs.Mask.{entries};
ghost use Rattle.format.specs.Verdict.{mask_verdict};
ghost use Rattle.format.specs.Answer.{call_of, output_short, Returned};
ghost use Rattle.filter.specs.Call.{Accepted, Listed};

use checker::{accept_journal, accept_mask};
use format::{Answer, Done, Pack, Reason, Refused};
use journal::Journal;
use measure::{count_all, measure, scratch_needed};
use nesting::Counted;
use prepare::{Mask, wrong_count};
use select::select_and_write;

// An extract of more bytes than a pack may have is refused (docs/FORMAT.md, 3.1: at most 16,777,216 bytes).
const PACK_LIMIT: usize = 16_777_216;

// Whether a list is asked for that the lent one is too short for. In each function here `asked` stands beside the list; why, `filter` says.
fn list_short(mask: Mask, asked: bool, room: usize) -> bool
    ensures { result ≡ asked && ltb room (length (entries mask.entry.source.bytes.now)) }
{
    asked && room < mask.list_entries()
}

// Whether an extract of `size` bytes is longer than its room, or than a pack may be.
#[tactic(auto, unfolding(format::specs::Answer::output_short))]
fn too_long(room: usize, size: usize) -> bool
    ensures { result ≡ output_short room size }
{
    (room < size) | (PACK_LIMIT < size)
}

// The answer once mask and journal are accepted, the count is right, and the list is not short: 13, 14, or the extract.
fn filter_listed<'a>(
    mask: Mask<'a>,
    journal: &'a Journal<'a>,
    asked: bool,
    list: &mut [u32],
    scratch: &mut [u8],
    output: &mut [u8],
) -> Answer
    requires { Listed (call_of mask.source.bytes.now journal.now.bytes.now None asked list.old scratch.old output.old) }
    ensures { Returned (call_of mask.entry.source.bytes.now journal.now.bytes.now None asked list.old scratch.old output.old) result output.new list.new scratch.new }
{
    let need = scratch_needed(journal);
    if scratch.len() < need {
        return Err(Refused::new(Reason::Scratch, Pack::Journal));
    }
    let counts = count_all(mask.source, journal, mask.kept);
    let counted = Counted {
        source: mask.source,
        journal: &*journal,
        counts: &counts,
        known: journal.node_count(),
    };
    let size = measure(counted);
    if too_long(output.len(), size) {
        return Err(Refused::new(Reason::Output, Pack::Journal));
    }
    select_and_write(
        counted,
        mask.route,
        asked,
        list,
        &mut scratch[..need],
        &mut output[..size],
    );
    Ok(Done {
        kept: mask.kept as u64,
        slots: mask.source.bits.len as u64,
        route: mask.route,
        bytes: size as u64,
    })
}

// The answer once mask and journal are accepted and the count is right: 10, 12, or what is left.
fn filter_accepted<'a>(
    mask: Mask<'a>,
    journal: &'a Journal<'a>,
    asked: bool,
    list: &mut [u32],
    scratch: &mut [u8],
    output: &mut [u8],
) -> Answer
    requires { Accepted (call_of mask.source.bytes.now journal.now.bytes.now None asked list.old scratch.old output.old) }
    ensures { Returned (call_of mask.entry.source.bytes.now journal.now.bytes.now None asked list.old scratch.old output.old) result output.new list.new scratch.new }
{
    if journal.rows(0) < mask.source.bits.len {
        return Err(Refused::new(Reason::TooLong, Pack::Journal));
    }
    if list_short(mask, asked, list.len()) {
        return Err(Refused::new(Reason::List, Pack::Journal));
    }
    filter_listed(mask, journal, asked, list, scratch, output)
}

// The answer once the mask is accepted: 11, the journal's own refusals, or what is left.
fn filter_masked(
    mask: &[u8],
    journal: &[u8],
    stated: Option<u64>,
    asked: bool,
    list: &mut [u32],
    scratch: &mut [u8],
    output: &mut [u8],
) -> Answer
    requires { mask_verdict mask.now ≡ 0 }
    ensures { Returned (call_of mask.now journal.now stated asked list.old scratch.old output.old) result output.new list.new scratch.new }
{
    let accepted = Mask::new(&*mask);
    if wrong_count(stated, accepted.kept) {
        return Err(Refused::new(Reason::Count, Pack::Mask));
    }
    accept_journal(journal)?;
    let sound = Journal::new(&*journal);
    filter_accepted(accepted, &sound, asked, list, scratch, output)
}

// The rows of a journal that a mask picks, whatever bytes the two are: written as a pack at the front of `output`, with the route's
// list stored where it is asked for; or the one slip by which the call is refused, and then nothing is written anywhere.
// `asked` stands beside the list: what an `Option<&mut [u32]>` holds at return a contract says only by sums, and the C entry would call twice.
pub fn filter(
    mask: &[u8],
    journal: &[u8],
    stated: Option<u64>,
    asked: bool,
    list: &mut [u32],
    scratch: &mut [u8],
    output: &mut [u8],
) -> Answer
    ensures { Returned (call_of mask.now journal.now stated asked list.old scratch.old output.old) result output.new list.new scratch.new }
{
    accept_mask(mask)?;
    filter_masked(mask, journal, stated, asked, list, scratch, output)
}
