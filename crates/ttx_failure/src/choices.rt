//! The choices that the receiver takes.

ghost use Rattle.std.specs.Prelude.{◌≡◌, ◌++◌, OnOk, length, string_bytes};
ghost use Rattle.ttx_failure.specs.Choices as rule;

use crate::forms::{FailureForm, push_item_end, push_item_start};
use crate::packets::{NamedPacket, named, push_header_name, push_links_name, push_row_name};
use crate::places::{Tuned, push_moment, slot_of_run};
use std::alloc::AllocError;
use ttx_counter::Taken;
use ttx_document::push_words;

// Appends how far a packet is behind its header.
#[tactic(auto, unfolding(crate::specs::Choices::behind_text))]
fn push_behind(text: &mut String, age: u8) -> Result<(), AllocError>
    ensures { OnOk result (string_bytes text.new ≡ string_bytes text.old ++ rule.behind_text age) }
{
    write!(text, ", missed; slots behind its header: {age}")
}

// Appends what the receiver does at a header of magazine `mag`.
#[tactic(auto, unfolding(crate::specs::Choices::header_words))]
fn push_header_words(text: &mut String, own: u8, mag: u8) -> Result<(), AllocError>
    ensures { OnOk result (string_bytes text.new ≡ string_bytes text.old ++ rule.header_words own mag) }
{
    if mag == own {
        text.push_str(", cleared what it held")
    } else {
        text.push_str(", taken for the end of the page")
    }
}

// Appends what the receiver does at a packet.
#[tactic(auto, unfolding(crate::specs::Choices::choice_words))]
fn push_act(text: &mut String, own: u8, packet: NamedPacket, age: u8) -> Result<(), AllocError>
    ensures { OnOk result (string_bytes text.new ≡ string_bytes text.old ++ rule.choice_words own packet age) }
{
    match packet {
        NamedPacket::Header(mag) => {
            push_header_name(text, mag)?;
            push_header_words(text, own, mag)
        }
        NamedPacket::Row(mag, number) => {
            push_row_name(text, number, mag)?;
            push_behind(text, age)
        }
        NamedPacket::Links(mag) => {
            push_links_name(text, mag)?;
            push_behind(text, age)
        }
        NamedPacket::Another => text.push_str("another packet"),
    }
}

// Appends a choice of a receiver of a page of magazine `own`.
#[tactic(auto, unfolding(crate::specs::Choices::choice_text))]
fn push_choice(
    text: &mut String,
    own: u8,
    tuned: &Tuned<'_>,
    taken: Taken,
) -> Result<(), AllocError>
    ensures { OnOk result (string_bytes text.new ≡ string_bytes text.old
        ++ rule.choice_text own tuned.now.slots.now (length tuned.now.slots.now) tuned.now.lines tuned.now.start taken) }
{
    push_moment(text, tuned, taken.index)?;
    push_words(text, ": ")?;
    let slot = &tuned.slots[slot_of_run(tuned, taken.index)];
    push_act(text, own, named(slot), taken.age)
}

// Appends the item of a choice.
#[tactic(auto, unfolding(crate::specs::Choices::choice_item))]
fn push_choice_item(
    text: &mut String,
    form: FailureForm,
    own: u8,
    tuned: &Tuned<'_>,
    taken: Taken,
) -> Result<(), AllocError>
    ensures { OnOk result (string_bytes text.new ≡ string_bytes text.old
        ++ rule.choice_item form own tuned.now.slots.now (length tuned.now.slots.now) tuned.now.lines tuned.now.start taken) }
{
    push_item_start(text, form)?;
    push_choice(text, own, tuned, taken)?;
    push_item_end(text, form)
}

/// Appends the items of choices of a receiver of a page of magazine `own`.
pub(crate) fn push_choice_items(
    text: &mut String,
    form: FailureForm,
    own: u8,
    tuned: &Tuned<'_>,
    all: &[Taken],
) -> Result<(), AllocError>
    ensures { OnOk result (string_bytes text.new ≡ string_bytes text.old
        ++ rule.choice_items form own tuned.now.slots.now (length tuned.now.slots.now) tuned.now.lines tuned.now.start all.now) }
{
    for taken in all {
        push_choice_item(text, form, own, tuned, *taken)?;
    }
    Ok(())
}
