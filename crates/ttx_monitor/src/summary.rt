//! What is written at the end of a feed that is followed.

ghost use Rattle.std.specs.Prelude.{◌≡◌, ◌++◌, [], IfOk, OnOk, string_bytes};
ghost use Rattle.ttx_monitor.specs.Wordings.{sum_text, said_text, last_text};
ghost use Rattle.ttx_monitor.specs.Followed.{telling_of};

use crate::event_texts::How;
use crate::sums::sums_of;
use crate::tally::Tally;
use crate::verdict::FeedVerdict;
use crate::wording::Wording;
use std::alloc::{AllocError, Global};
use ttx_recognition::Unlike;
use ttx_witness::NoMemory;

/// The end of a feed that was followed: what has been counted, how many bytes follow the last slot, and the verdict, unless breaches were passed over.
#[derive(Clone, Copy)]
pub struct Closing {
    pub tally: Tally,
    pub rest: usize,
    pub verdict: Option<FeedVerdict>,
}

// Appends what was lost and wrong, where each breach is reported.
fn push_sum<V: Wording>(
    alloc: Global,
    text: &mut String,
    how: &How<'_>,
    tally: Tally,
) -> Result<(), AllocError>
    ensures { OnOk result (string_bytes text.new ≡ string_bytes text.old ++ sum_text (telling_of V.words how.now) tally) }
{
    if how.all {
        return V::push_sums(alloc, text, sums_of(tally, how.lines));
    }
    Ok(())
}

// Appends the verdict, or, where breaches were passed over, how many there were.
fn push_said<V: Wording>(
    alloc: Global,
    text: &mut String,
    how: &How<'_>,
    closing: Closing,
) -> Result<(), AllocError>
    ensures { OnOk result (string_bytes text.new ≡ string_bytes text.old
        ++ said_text (telling_of V.words how.now) closing.tally closing.rest closing.verdict) }
{
    match closing.verdict {
        Some(verdict) => V::push_verdict(alloc, text, how.pages, verdict),
        None => V::push_broken(alloc, text, how.start, closing.tally, closing.rest),
    }
}

// Appends both.
fn push_last<V: Wording>(
    alloc: Global,
    text: &mut String,
    how: &How<'_>,
    closing: Closing,
) -> Result<(), AllocError>
    ensures { OnOk result (string_bytes text.new ≡ string_bytes text.old
        ++ last_text (telling_of V.words how.now) closing.tally closing.rest closing.verdict) }
{
    push_said::<V>(alloc, text, how, closing)?;
    push_sum::<V>(alloc, text, how, closing.tally)
}

/// What is written at the end of a feed: the verdict, or, where breaches were passed over, how many there were; and, where each breach is
/// reported, the packets lost and the wrong bits, in all and a minute. `Err` if memory runs out.
pub fn last_text<V: Wording>(
    alloc: Global,
    how: &How<'_>,
    closing: Closing,
) -> Result<String, NoMemory>
    ensures { IfOk result (λ text. string_bytes text ≡ last_text (telling_of V.words how.now) closing.tally closing.rest closing.verdict) }
{
    let mut text = String::new(alloc);
    match push_last::<V>(alloc, &mut text, how, closing) {
        Ok(()) => Ok(text),
        Err(_) => Err(NoMemory),
    }
}

/// What is written of a feed that is no feed of packets. `Err` if memory runs out.
pub fn unlike_text<V: Wording>(alloc: Global, unlike: Unlike) -> Result<String, NoMemory>
    ensures { IfOk result (λ text. string_bytes text ≡ V.words.verdict [] (FeedVerdict.Unlike unlike)) }
{
    let mut text = String::new(alloc);
    match V::push_verdict(alloc, &mut text, &[], FeedVerdict::Unlike(unlike)) {
        Ok(()) => Ok(text),
        Err(_) => Err(NoMemory),
    }
}
