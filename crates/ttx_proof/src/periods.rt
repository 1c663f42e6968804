//! The verdict on a splice when the old cycle has been sent for some periods. It has to be sent for at least a deadline.

ghost use Rattle.std.specs.Prelude.{◌≡◌, ◌*◌, ◌-◌, ◌++◌, OnOk, IfOk, length, string_bytes};
ghost use Rattle.ttx_cycle.specs.Cycles.{slots_of};
ghost use Rattle.ttx_certificate.specs.Certificates.{certificate_of};
ghost use Rattle.ttx_witness.specs.Coverage.{limit};
ghost use Rattle.ttx_proof.specs.Splices.{Splice};
ghost use Rattle.ttx_proof.specs.Verdicts.{IsSpliceVerdict, SpliceMeans};
ghost use Rattle.ttx_proof.specs.SentVerdicts.{IsSentVerdict, SentMeans};
ghost use Rattle.ttx_proof.specs.SpliceLines.{sent_text, sent_line};

use crate::lines::push_splice_reason;
use crate::sent::SentVerdict;
use crate::verdict::SpliceVerdict;
use std::alloc::{AllocError, Global};
use ttx_cycle::Cycle;
use ttx_witness::{Certificate, NoMemory, limit};

// How many slots are missing to the deadline, after `periods` periods of the old cycle.
fn slots_left(old: &Cycle, certificate: &Certificate, periods: u32) -> u32
    ensures { result ≡ limit (certificate_of certificate.now) - periods * length (slots_of old.now) }
{
    let limit = limit(certificate);
    let sent = u64::from(periods) * old.slots().len() as u64;
    if sent < u64::from(limit) {
        limit - sent as u32
    } else {
        0
    }
}

/// The verdict on a change after `periods` periods of the old cycle, from the verdict on its splice.
pub fn sent_verdict(
    old: &Cycle,
    certificate: &Certificate,
    periods: u32,
    verdict: SpliceVerdict,
) -> SentVerdict
    ensures exact { (c : Splice) → c.old ≡ slots_of old.now → c.old_certificate ≡ certificate_of certificate.now → IsSpliceVerdict c verdict →
        IsSentVerdict c periods result }
    ensures means { (c : Splice) → SpliceMeans c verdict → SentMeans c result }
{
    if let SpliceVerdict::No(reason) = verdict {
        return SentVerdict::No(reason);
    }
    let left = slots_left(old, certificate, periods);
    if left > 0 {
        SentVerdict::TooSoon { left }
    } else {
        SentVerdict::Yes
    }
}

// Adds a verdict.
fn push_sent(text: &mut String, verdict: SentVerdict) -> Result<(), AllocError>
    ensures { OnOk result (string_bytes text.new ≡ string_bytes text.old ++ sent_text verdict) }
{
    match verdict {
        SentVerdict::Yes => text.push_str("yes"),
        SentVerdict::No(reason) => {
            text.push_str("no ")?;
            push_splice_reason(text, reason)
        }
        SentVerdict::TooSoon { left } => write!(text, "no 6 too-soon {left}"),
    }
}

/// The line of a verdict on a change after some periods. It ends with the byte 0A.
pub fn sent_line(alloc: Global, verdict: SentVerdict) -> Result<String, NoMemory>
    ensures { IfOk result (λ line. string_bytes line ≡ sent_line verdict) }
{
    let mut line = String::new(alloc);
    if let Err(_) = push_sent(&mut line, verdict) {
        return Err(NoMemory);
    }
    match line.push('\n') {
        Ok(()) => Ok(line),
        Err(_) => Err(NoMemory),
    }
}
