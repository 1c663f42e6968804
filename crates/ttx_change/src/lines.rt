//! The lines of verdicts on splices for receivers that show a page only where it ends.

ghost use Rattle.std.specs.Prelude.{◌≡◌, ◌++◌, ◌∷◌, [], IfOk, OnOk, codes, string_bytes};
ghost use Rattle.ttx_certify.specs.VerdictLines.{page_words, slot_words};
ghost use Rattle.ttx_change.specs.LateSpliceLines as rule;
ghost use Rattle.ttx_change.specs.LateSpliceLines.{IsOpenLine};

use crate::verdict::LateSplice;
use std::alloc::{AllocError, Global};
use ttx_header::PageId;
use ttx_proof::{SentVerdict, sent_line};
use ttx_witness::{NoMemory, push_id};

fn push_slot(text: &mut String, name: &str, page: PageId, slot: usize) -> Result<(), AllocError>
    ensures { OnOk result (string_bytes text.new ≡ string_bytes text.old ++ slot_words name.now page slot) }
{
    text.push_str(name)?;
    text.push(' ')?;
    push_id(text, page)?;
    write!(text, " {slot}")
}

fn push_ended(text: &mut String, name: &str, page: PageId, slot: usize) -> Result<(), AllocError>
    ensures { OnOk result (string_bytes text.new ≡ string_bytes text.old ++ slot_words name.now page slot ++ 10 ∷ []) }
{
    push_slot(text, name, page, slot)?;
    text.push('\n')
}

fn push_unfollowed(text: &mut String, page: PageId) -> Result<(), AllocError>
    ensures { OnOk result (string_bytes text.new ≡ string_bytes text.old ++ page_words (codes "no 9 unfollowed") page ++ 10 ∷ []) }
{
    text.push_str("no 9 unfollowed ")?;
    push_id(text, page)?;
    text.push('\n')
}

// The line of what the old cycle leaves open, or of a yes.
fn open_line(alloc: Global, verdict: LateSplice) -> Result<String, AllocError>
    ensures { IfOk result (λ line. IsOpenLine verdict (string_bytes line)) }
{
    let mut line = String::new(alloc);
    match verdict {
        LateSplice::Yes | LateSplice::No(_) => line.push_str("yes\n")?,
        LateSplice::Amid { page, slot } => push_ended(&mut line, "no 7 amid", page, slot)?,
        LateSplice::Stored { page, slot } => {
            push_ended(&mut line, "no 8 stored", page, slot as usize)?
        },
        LateSplice::Unfollowed { page } => push_unfollowed(&mut line, page)?,
    }
    Ok(line)
}

/// The line of a verdict. It ends with the byte 0A. `Err` if memory runs out.
pub fn late_splice_line(alloc: Global, verdict: LateSplice) -> Result<String, NoMemory>
    ensures { IfOk result (λ line. string_bytes line ≡ rule.late_splice_line verdict) }
{
    if let LateSplice::No(verdict) = verdict {
        return sent_line(alloc, verdict);
    }
    match open_line(alloc, verdict) {
        Ok(line) => Ok(line),
        Err(_) => Err(NoMemory),
    }
}
