//! What was received wrong.

ghost use Rattle.std.specs.Prelude.{◌≡◌, ◌≤◌, ◌<◌, ◌++◌, OnOk, length, slice_index, string_bytes};
ghost use Rattle.ttx_counter.specs.Counters.{flipped};
ghost use Rattle.ttx_failure.specs.Hits as rule;
ghost use Rattle.ttx_failure.specs.Hits.{IsBit, AreBits};

use crate::forms::{FailureForm, push_item_end, push_item_start};
use crate::packets::{NamedPacket, named, push_links_name, push_row_name};
use crate::places::{Tuned, push_moment, slot_of_run};
use std::alloc::AllocError;
use ttx_counter::Hit;
use ttx_digits::push_byte;
use ttx_document::push_words;

/// How many wrong bytes, and how many choices, are listed.
pub(crate) const MOST_LISTED: usize = 20;

#[tactic(auto, unfolding(crate::specs::Hits::byte_text))]
fn push_byte_of(text: &mut String, byte: u8) -> Result<(), AllocError>
    ensures { OnOk result (string_bytes text.new ≡ string_bytes text.old ++ rule.byte_text byte) }
{
    write!(text, ", byte {byte}")
}

// Appends the column of a byte, if it is a character.
#[tactic(auto, unfolding(crate::specs::Hits::column_text))]
fn push_column(text: &mut String, least: u8, byte: u8) -> Result<(), AllocError>
    requires { 2 ≤ least }
    ensures { OnOk result (string_bytes text.new ≡ string_bytes text.old ++ rule.column_text least byte) }
{
    if least <= byte {
        let column = byte - 2;
        write!(text, ", column {column}")
    } else {
        push_byte_of(text, byte)
    }
}

#[tactic(auto, unfolding(crate::specs::Hits::another_name))]
fn push_another(text: &mut String) -> Result<(), AllocError>
    ensures { OnOk result (string_bytes text.new ≡ string_bytes text.old ++ rule.another_name) }
{
    text.push_str("another packet")
}

// Appends which byte of a packet this is.
#[tactic(auto, unfolding(crate::specs::Hits::kind_text))]
fn push_kind(text: &mut String, packet: NamedPacket, byte: u8) -> Result<(), AllocError>
    ensures { OnOk result (string_bytes text.new ≡ string_bytes text.old ++ rule.kind_text packet byte) }
{
    match packet {
        NamedPacket::Header(mag) => {
            push_row_name(text, 0, mag)?;
            push_column(text, 10, byte)
        }
        NamedPacket::Row(mag, number) => {
            push_row_name(text, number, mag)?;
            push_column(text, 2, byte)
        }
        NamedPacket::Links(mag) => {
            push_links_name(text, mag)?;
            push_byte_of(text, byte)
        }
        NamedPacket::Another => {
            push_another(text)?;
            push_byte_of(text, byte)
        }
    }
}

// A byte with one bit flipped; bits count from 1.
fn flipped(byte: u8, bit: u8) -> u8
    requires some { 1 ≤ bit }
    requires few { bit ≤ 8 }
    ensures { result ≡ flipped bit byte }
{
    byte ^ (1u8 << (bit - 1))
}

#[tactic(auto, unfolding(crate::specs::Hits::bytes_text))]
fn push_bytes(text: &mut String, sent: u8, received: u8) -> Result<(), AllocError>
    ensures { OnOk result (string_bytes text.new ≡ string_bytes text.old ++ rule.bytes_text sent received) }
{
    push_words(text, ": sent ")?;
    push_byte(text, sent)?;
    push_words(text, ", received ")?;
    push_byte(text, received)
}

// A byte of a slot.
fn byte_of(slot: &[u8; 42], byte: u8) -> u8
    requires { byte < 42 }
    ensures { result ≡ slice_index slot.now byte }
{
    slot[usize::from(byte)]
}

// Appends which byte of a slot was received wrong, and how.
#[tactic(auto, unfolding(crate::specs::Hits::slot_text))]
fn push_slot(text: &mut String, slot: &[u8; 42], hit: Hit) -> Result<(), AllocError>
    requires { IsBit hit }
    ensures { OnOk result (string_bytes text.new ≡ string_bytes text.old ++ rule.slot_text slot.now hit) }
{
    let sent = byte_of(slot, hit.byte);
    push_kind(text, named(slot), hit.byte)?;
    push_bytes(text, sent, flipped(sent, hit.bit))
}

// Appends a wrong bit.
#[tactic(auto, unfolding(crate::specs::Hits::hit_text))]
fn push_hit(text: &mut String, tuned: &Tuned<'_>, hit: Hit) -> Result<(), AllocError>
    requires { IsBit hit }
    ensures { OnOk result (string_bytes text.new ≡ string_bytes text.old
        ++ rule.hit_text tuned.now.slots.now (length tuned.now.slots.now) tuned.now.lines tuned.now.start hit) }
{
    push_moment(text, tuned, hit.index)?;
    push_words(text, ": ")?;
    let slot = &tuned.slots[slot_of_run(tuned, hit.index)];
    push_slot(text, slot, hit)
}

// Appends the item of a wrong bit.
#[tactic(auto, unfolding(crate::specs::Hits::hit_item))]
fn push_hit_item(
    text: &mut String,
    form: FailureForm,
    tuned: &Tuned<'_>,
    hit: Hit,
) -> Result<(), AllocError>
    requires { IsBit hit }
    ensures { OnOk result (string_bytes text.new ≡ string_bytes text.old
        ++ rule.hit_item form tuned.now.slots.now (length tuned.now.slots.now) tuned.now.lines tuned.now.start hit) }
{
    push_item_start(text, form)?;
    push_hit(text, tuned, hit)?;
    push_item_end(text, form)
}

/// Appends the items of wrong bits.
pub(crate) fn push_hit_items(
    text: &mut String,
    form: FailureForm,
    tuned: &Tuned<'_>,
    hits: &[Hit],
) -> Result<(), AllocError>
    requires { AreBits hits.now }
    ensures { OnOk result (string_bytes text.new ≡ string_bytes text.old
        ++ rule.hit_items form tuned.now.slots.now (length tuned.now.slots.now) tuned.now.lines tuned.now.start hits.now) }
{
    for hit in hits {
        push_hit_item(text, form, tuned, *hit)?;
    }
    Ok(())
}

#[tactic(auto, unfolding(crate::specs::Hits::more_text))]
fn push_more(text: &mut String, more: usize) -> Result<(), AllocError>
    ensures { OnOk result (string_bytes text.new ≡ string_bytes text.old ++ rule.more_text more) }
{
    write!(text, "and {more} more")
}

#[tactic(auto, unfolding(crate::specs::Hits::more_item))]
fn push_more_item(text: &mut String, form: FailureForm, more: usize) -> Result<(), AllocError>
    ensures { OnOk result (string_bytes text.new ≡ string_bytes text.old ++ rule.more_item form more) }
{
    push_item_start(text, form)?;
    push_more(text, more)?;
    push_item_end(text, form)
}

/// Appends how many more there are of so many, if they are not all listed.
#[tactic(auto, unfolding(crate::specs::Hits::rest_item))]
pub(crate) fn push_rest(
    text: &mut String,
    form: FailureForm,
    count: usize,
) -> Result<(), AllocError>
    ensures { OnOk result (string_bytes text.new ≡ string_bytes text.old ++ rule.rest_item form count) }
{
    if count <= MOST_LISTED {
        return Ok(());
    }
    push_more_item(text, form, count - MOST_LISTED)
}
