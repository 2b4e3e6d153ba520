// The checker: a pack is accepted, or refused for one reason.
#![tactic(auto)]

mod buffers;
mod contents;
mod fields;
mod nulls;
mod rows;

ghost use Rattle.std.specs.Prelude.{false, [], ◌∷◌, ◌≡◌, ◌+◌, ◌*◌, ◌≤◌, length};
ghost use Rattle.format.specs.Node.{table_start, node_count};
ghost use Rattle.format.specs.Reason.{verdict_number};
ghost use Rattle.format.specs.Answer.{own_answer};
ghost use Rattle.format.specs.Verdict.{wrong_fields, wrong_tree, wrong_rows, wrong_buffers, wrong_content, wrong_nulls, wrong_root, condition, first_of, journal_verdict, mask_verdict};

use buffers::wrong_buffers;
use contents::wrong_content;
use fields::wrong_fields;
use format::{Kind, Pack, Reason, Refused};
use nulls::wrong_nulls;
use pack::frame::{wrong_mark, wrong_size, wrong_table};
use pack::read::node_at;
use pack::tree::wrong_tree;
use rows::wrong_rows;

// Refusals 7, 8 and 20.
#[tactic(auto, unfolding(format::specs::Verdict::first_of))]
fn check_buffers(pack: &[u8]) -> Result<(), Reason>
    requires pack_bound { (node_count pack.now ≤ 64) × (table_start pack.now + 40 * node_count pack.now + 16 ≡ length pack.now) }
    requires pack_value { (wrong_fields pack.now ≡ false) × (wrong_tree pack.now ≡ false) × (wrong_rows pack.now ≡ false) }
    ensures { verdict_number result ≡ first_of (condition 7 (wrong_buffers pack.now) ∷ condition 8 (wrong_content pack.now)
        ∷ condition 20 (wrong_nulls pack.now) ∷ []) }
{
    if wrong_buffers(pack) {
        return Err(Reason::Buffers);
    }
    if wrong_content(pack) {
        return Err(Reason::Content);
    }
    if wrong_nulls(pack) {
        return Err(Reason::Nulls);
    }
    Ok(())
}

// Refusals 4 to 8 and 20, each tried on all nodes before the next.
#[tactic(auto, unfolding(format::specs::Verdict::first_of))]
fn check_nodes(pack: &[u8]) -> Result<(), Reason>
    requires { (node_count pack.now ≤ 64) × (table_start pack.now + 40 * node_count pack.now + 16 ≡ length pack.now) }
    ensures { verdict_number result ≡ first_of (condition 4 (wrong_fields pack.now) ∷ condition 5 (wrong_tree pack.now) ∷ condition 6 (wrong_rows pack.now)
        ∷ condition 7 (wrong_buffers pack.now) ∷ condition 8 (wrong_content pack.now) ∷ condition 20 (wrong_nulls pack.now) ∷ []) }
{
    if wrong_fields(pack) {
        return Err(Reason::Fields);
    }
    if wrong_tree(pack) {
        return Err(Reason::Tree);
    }
    if wrong_rows(pack) {
        return Err(Reason::Rows);
    }
    check_buffers(pack)
}

// Whether a journal is accepted, and if not, why: for one of the reasons 1 to 8 or 20.
#[tactic(auto, unfolding(format::specs::Verdict::journal_verdict, format::specs::Verdict::mask_verdict, format::specs::Verdict::conditions, format::specs::Verdict::first_of))]
pub fn check(pack: &[u8]) -> Result<(), Reason>
    ensures { verdict_number result ≡ journal_verdict pack.now }
{
    if wrong_size(pack) {
        return Err(Reason::Size);
    }
    if wrong_mark(pack) {
        return Err(Reason::Mark);
    }
    if wrong_table(pack) {
        return Err(Reason::Table);
    }
    check_nodes(pack)
}

// 9: the root of a mask is of kind bits.
fn wrong_root(pack: &[u8]) -> bool
    ensures { result ≡ wrong_root pack.now }
{
    Kind::from(node_at(pack, 0).kind) != Kind::Bits
}

// Whether a mask is accepted, and if not, why: for one of the reasons 1 to 9 or 20.
#[tactic(auto, unfolding(format::specs::Verdict::journal_verdict, format::specs::Verdict::mask_verdict, format::specs::Verdict::conditions, format::specs::Verdict::first_of))]
pub fn check_mask(pack: &[u8]) -> Result<(), Reason>
    ensures { verdict_number result ≡ mask_verdict pack.now }
{
    check(pack)?;
    if wrong_root(pack) {
        return Err(Reason::MaskKind);
    }
    Ok(())
}

// A verdict on a pack, as the answer of a call that goes on only if it is accepted.
fn named(verdict: Result<(), Reason>, pack: Pack) -> Result<(), Refused>
    ensures { result ≡ own_answer pack (verdict_number verdict) }
{
    verdict.map_err(|reason| Refused::new(reason, pack))
}

// A journal's verdict, as a refusal that names the journal.
pub fn accept_journal(journal: &[u8]) -> Result<(), Refused>
    ensures { result ≡ own_answer Pack.Journal (journal_verdict journal.now) }
{
    named(check(journal), Pack::Journal)
}

// A mask's verdict, as a refusal that names the mask.
pub fn accept_mask(mask: &[u8]) -> Result<(), Refused>
    ensures { result ≡ own_answer Pack.Mask (mask_verdict mask.now) }
{
    named(check_mask(mask), Pack::Mask)
}
