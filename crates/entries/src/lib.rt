// The work of the C entry points: each call, with its answer in numbers. None requires anything of its caller.
#![tactic(auto)]

ghost use Rattle.std.specs.Prelude.{◌≡◌};
ghost use Rattle.std.specs.Bool.{then_some};
ghost use Rattle.format.specs.Answer.{call_of, preparing};
ghost use Rattle.format.specs.Reason.{verdict_number};
ghost use Rattle.format.specs.Verdict.{journal_verdict, mask_verdict};
ghost use Rattle.entries.specs.Numbers.{in_numbers, Entered, answer_numbers, refusal_numbers, refusal_number, Called};

use format::{Answer, Done, Prepared, Ready, Reason, Refused};

// A verdict's number: 0 where the pack is accepted.
fn verdict_number(verdict: Result<(), Reason>) -> u64
    ensures { result ≡ verdict_number verdict }
{
    match verdict {
        Ok(()) => 0,
        Err(reason) => u64::from(reason),
    }
}

// The verdict on a journal: 0 if it is accepted, else 1 to 8 or 20.
pub fn check(bytes: &[u8]) -> u64
    ensures { result ≡ journal_verdict bytes.now }
{
    verdict_number(checker::check(bytes))
}

// The verdict on a mask: 0 if it is accepted, else 1 to 9 or 20.
pub fn check_mask(bytes: &[u8]) -> u64
    ensures { result ≡ mask_verdict bytes.now }
{
    verdict_number(checker::check_mask(bytes))
}

// A refusal as four numbers: its own, the pack's, and zeros.
fn refusal_numbers(refused: Refused) -> [u64; 4]
    ensures { result ≡ refusal_numbers refused }
{
    [u64::from(refused.reason), u64::from(refused.pack), 0, 0]
}

// The number of the refusal, 0 if there is none.
fn refusal_number<T: Drop>(answer: Result<T, Refused>) -> u64
    ensures { result ≡ refusal_number answer }
{
    match answer {
        Ok(_) => 0,
        Err(refused) => u64::from(refused.reason),
    }
}

// An answer as four numbers.
fn in_numbers(answer: Prepared) -> [u64; 4]
    ensures { result ≡ in_numbers answer }
{
    match answer {
        Ok(Ready { kept, slots, route }) => [kept, slots, u64::from(route), 0],
        Err(refused) => refusal_numbers(refused),
    }
}

// A mask prepared alone: 0 and its counts and route, with the list stored where it is asked for; or the slip's number.
pub fn prepare(
    mask: &[u8],
    stated: bool,
    count: u64,
    asked: bool,
    list: &mut [u32],
    answer: &mut [u64; 4],
) -> u64
    ensures { Entered (preparing mask.now (then_some stated count) asked list.old) result answer.new list.new }
{
    let prepared = prepare::prepare(mask, stated.then_some(count), asked, list);
    *answer = in_numbers(prepared);
    refusal_number(prepared)
}

// The answer of a whole call as four numbers.
fn answer_numbers(told: Answer) -> [u64; 4]
    ensures { result ≡ answer_numbers told }
{
    match told {
        Ok(
            Done {
                kept,
                slots,
                route,
                bytes,
            },
        ) => [kept, slots, u64::from(route), bytes],
        Err(refused) => refusal_numbers(refused),
    }
}

// The whole call: 0 with the extract in the output, its counts and its route; or the refusal's number, and output, list and scratch as they were.
pub fn filter(
    mask: &[u8],
    journal: &[u8],
    stated: bool,
    count: u64,
    asked: bool,
    list: &mut [u32],
    scratch: &mut [u8],
    output: &mut [u8],
    answer: &mut [u64; 4],
) -> u64
    ensures { Called (call_of mask.now journal.now (then_some stated count) asked list.old scratch.old output.old)
        result answer.new output.new list.new scratch.new }
{
    let told = filter::filter(
        mask,
        journal,
        stated.then_some(count),
        asked,
        list,
        scratch,
        output,
    );
    *answer = answer_numbers(told);
    refusal_number(told)
}
