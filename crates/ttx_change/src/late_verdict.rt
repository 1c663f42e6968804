//! Judges a splice for receivers that show a page only where it ends.

ghost use Rattle.std.specs.Prelude.{IfOk, None};
ghost use Rattle.ttx_proof.specs.Laws.{IsSplice};
ghost use Rattle.ttx_proof.specs.SentVerdicts.{SentMeans};
ghost use Rattle.ttx_proof.specs.SplicingFiles.{splice_in};
ghost use Rattle.ttx_proof.specs.Splices.{Splice};
ghost use Rattle.ttx_proof.specs.Verdicts.{IsSpliceVerdict, SpliceMeans};
ghost use Rattle.ttx_change.specs.LateSplices.{IsJudged, IsLateSplice, MeansLate, TellsOpen};

use crate::editions::open_at;
use crate::verdict::LateSplice;
use std::alloc::Global;
use ttx_proof::{SentVerdict, Six, SpliceVerdict, sent_verdict, splice_six};
use ttx_witness::NoMemory;

// The values of the files are in their ranges.
fn has_ranges(six: &Six)
    ensures { IsSplice (splice_in six.now) }
{
    ttx_page::laws::pages_keep_their_rules();
    ttx_witness::certificate_laws::certificates_keep_their_rules();
    let _ = six.services.old.pages();
    let _ = six.services.new.pages();
}

// The verdict on a splice at any time.
fn at_any_time(verdict: SpliceVerdict) -> SentVerdict
    ensures exact { (c : Splice) → IsSpliceVerdict c verdict → IsJudged c None result }
    ensures means { (c : Splice) → SpliceMeans c verdict → SentMeans c result }
{
    match verdict {
        SpliceVerdict::Yes => SentVerdict::Yes,
        SpliceVerdict::No(reason) => SentVerdict::No(reason),
    }
}

// The verdict on a splice, after `sent` periods of the old cycle if that is known.
fn judged(alloc: Global, six: &Six, sent: Option<u32>) -> Result<SentVerdict, NoMemory>
    ensures exact { IfOk result (IsJudged (splice_in six.now) sent) }
    ensures means { IfOk result (SentMeans (splice_in six.now)) }
{
    let verdict = splice_six(alloc, six)?;
    match sent {
        Some(periods) => Ok(sent_verdict(&six.cycles.old, &six.witnesses.old, periods, verdict)),
        None => Ok(at_any_time(verdict)),
    }
}

// What the old cycle leaves open at the change; Yes if nothing.
fn left_open(six: &Six) -> LateSplice
    ensures { TellsOpen (splice_in six.now) result }
{
    let pages = six.services.old.pages();
    open_at(&six.cycles.old, &six.cycles.new, pages)
}

/// The verdict on the splice of six files, after `sent` periods of the old cycle if that is known, and if it is yes, whether the old cycle
/// leaves something open: an item of a page that is still to come, a page in which the new cycle would be stored, or one that no other
/// page number follows.
///
/// If this verdict is yes, the joined stream is seen, as `splice` says; and for each page number of which both cycles send each page whole
/// under each of its headers, followed by another page number, a receiver that shows a page only where it ends shows one of the old or of
/// the new pages of the number, whole, once a block of it that began after tuning has ended, under each reception in which the text of
/// these pages comes right.
pub fn late_splice(alloc: Global, six: &Six, sent: Option<u32>) -> Result<LateSplice, NoMemory>
    ensures exact { IfOk result (IsLateSplice (splice_in six.now) sent) }
    ensures seen { IfOk result (MeansLate (splice_in six.now)) }
{
    crate::laws::changes_are_whole();
    has_ranges(six);
    let verdict = judged(alloc, six, sent)?;
    match verdict {
        SentVerdict::Yes => Ok(left_open(six)),
        SentVerdict::No(_) | SentVerdict::TooSoon { left: _ } => Ok(LateSplice::No(verdict)),
    }
}
