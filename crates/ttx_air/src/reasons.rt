//! The lines of reasons.

ghost use Rattle.std.specs.Prelude.{◌≡◌, ◌++◌, ◌∷◌, [], codes, IfOk, string_bytes};
ghost use Rattle.std.specs.Fmt.{decimal};
ghost use Rattle.ttx_certify.specs.VerdictLines.{page_words, slot_words};
ghost use Rattle.ttx_proof.specs.SpliceLines as splice;
ghost use Rattle.ttx_air.specs.LogLines as rule;

use std::alloc::{AllocError, Global};
use ttx_digits::{push_decimal, push_id};
use ttx_header::PageId;
use ttx_playout::LateChange;
use ttx_proof::{SpliceVerdict, splice_line};

fn never_shown_line(alloc: Global, page: PageId, slot: usize) -> Result<String, AllocError>
    ensures { IfOk result (λ line. string_bytes line ≡ slot_words (codes "no 7 never-shown") page slot ++ 10 ∷ []) }
{
    let mut line = String::new(alloc);
    line.push_str("no 7 never-shown ")?;
    push_id(&mut line, page)?;
    write!(line, " {slot}")?;
    line.push('\n')?;
    Ok(line)
}

fn too_far_line(alloc: Global, gap: usize) -> Result<String, AllocError>
    ensures { IfOk result (λ line. string_bytes line ≡ codes "no 8 too-far " ++ decimal gap ++ 10 ∷ []) }
{
    let mut line = String::new(alloc);
    line.push_str("no 8 too-far ")?;
    push_decimal(&mut line, gap)?;
    line.push('\n')?;
    Ok(line)
}

fn unfollowed_line(alloc: Global, page: PageId) -> Result<String, AllocError>
    ensures { IfOk result (λ line. string_bytes line ≡ page_words (codes "no 9 unfollowed") page ++ 10 ∷ []) }
{
    let mut line = String::new(alloc);
    line.push_str("no 9 unfollowed ")?;
    push_id(&mut line, page)?;
    line.push('\n')?;
    Ok(line)
}

// The line of the splice's verdict.
fn verdict_line(alloc: Global, verdict: SpliceVerdict) -> Result<String, AllocError>
    ensures { IfOk result (λ line. string_bytes line ≡ splice.splice_line verdict) }
{
    match splice_line(alloc, verdict) {
        Ok(line) => Ok(line),
        Err(_) => Err(AllocError),
    }
}

// The line that says why a next edition does not take over.
pub(crate) fn reason_line(alloc: Global, verdict: LateChange) -> Result<String, AllocError>
    ensures { IfOk result (λ line. string_bytes line ≡ rule.reason_line verdict) }
{
    match verdict {
        LateChange::Yes => verdict_line(alloc, SpliceVerdict::Yes),
        LateChange::No(reason) => verdict_line(alloc, SpliceVerdict::No(reason)),
        LateChange::NeverShown { page, slot } => never_shown_line(alloc, page, slot),
        LateChange::TooFar { gap } => too_far_line(alloc, gap),
        LateChange::Unfollowed { page } => unfollowed_line(alloc, page),
    }
}
