// The C entry points: include/wurtziteloom.h says what each argument and answer is. None requires anything of its caller.
#![tactic(auto)]

ghost use Rattle.std.specs.Prelude.{◌≡◌};
ghost use Rattle.std.specs.Bool.{then_some};
ghost use Rattle.format.specs.Answer.{call_of, preparing};
ghost use Rattle.format.specs.Verdict.{journal_verdict, mask_verdict};
ghost use Rattle.entries.specs.Numbers.{Entered, Called};

// The verdict on a journal: 0 if it is accepted, else 1 to 8 or 20.
#[unsafe(no_mangle)]
pub extern "C" fn check(bytes: &[u8]) -> u64
    ensures { result ≡ journal_verdict bytes.now }
{
    entries::check(bytes)
}

// The verdict on a mask: 0 if it is accepted, else 1 to 9 or 20.
#[unsafe(no_mangle)]
pub extern "C" fn check_mask(bytes: &[u8]) -> u64
    ensures { result ≡ mask_verdict bytes.now }
{
    entries::check_mask(bytes)
}

// A mask prepared alone: 0 and its counts and route, with the list stored where it is asked for; or the slip's number.
#[unsafe(no_mangle)]
pub extern "C" fn prepare(
    mask: &[u8],
    stated: bool,
    count: u64,
    asked: bool,
    list: &mut [u32],
    answer: &mut [u64; 4],
) -> u64
    ensures { Entered (preparing mask.now (then_some stated count) asked list.old) result answer.new list.new }
{
    entries::prepare(mask, stated, count, asked, list, answer)
}

// The whole call: 0 with the extract in the output, its counts and its route; or the refusal's number, and output, list and scratch as they were.
#[unsafe(no_mangle)]
pub extern "C" fn filter(
    mask: &[u8],
    journal: &[u8],
    stated: bool,
    count: u64,
    asked: bool,
    list: &mut [u32],
    scratch: &mut [u8],
    output: &mut [u8],
    answer: &mut [u64; 4],
) -> u64
    ensures { Called (call_of mask.now journal.now (then_some stated count) asked list.old scratch.old output.old)
        result answer.new output.new list.new scratch.new }
{
    entries::filter(
        mask, journal, stated, count, asked, list, scratch, output, answer,
    )
}
