//! Replaces a row that is refused or lost by one in which each byte has one wrong bit: a receiver stores nothing of either.

ghost use Rattle.std.specs.Prelude.{drop, ◌≡◌, ◌≢◌, ◌↔◌, ◌≤◌, ◌<◌, ℕ, true, false, not, ◌&&◌, IsTrue, map, slice_index};
ghost use Rattle.ttx_packet.specs.Slots.{IsSlot, is_empty};
ghost use Rattle.ttx_packet.specs.Receptions.{MayBeReceivedAs};
ghost use Rattle.ttx_page.specs.Packets.{packet_of};
ghost use Rattle.ttx_page.specs.Views.{page_of};
ghost use Rattle.ttx_receiver.specs.Reading.{IsIgnored};
ghost use Rattle.ttx_rows.specs.RowReceptions.{may_be_lost, IsWhole};
ghost use Rattle.ttx_row_monitor.specs.RowFeeds.{MayBeLost, Arrives, IsLost};
ghost use Rattle.ttx_row_monitor.specs.Muting.{flipped, IsMutedAs};

use ttx_code::all_odd;
use ttx_monitor::{fits, is_blank};
use ttx_packet::{Slot, slot_of};
use ttx_page::Page;

// Whether a receiver stores nothing of the slot.
#[tactic(auto, unfolding(ttx_page::specs::Packets::packet_of))]
fn is_ignored(slot: &[u8; 42]) -> bool
    ensures { IsTrue result ↔ IsIgnored (packet_of slot.now) }
{
    match slot_of(slot) {
        Slot::Header(_, _) => false,
        Slot::Row(_, _) => false,
        Slot::Links(_, _) => false,
        Slot::Empty => true,
        Slot::Unreadable => true,
        Slot::Info(_, _) => true,
        Slot::Other(_) => true,
    }
}

// Whether receivers of a magazine may lose the packet.
#[tactic(auto, unfolding(ttx_page::specs::Packets::packet_of))]
fn may_be_lost(mag: u8, sent: &[u8; 42]) -> bool
    requires { IsSlot sent.now }
    ensures { result ≡ may_be_lost mag (packet_of sent.now) }
{
    ttx_header::laws::headers_have_fields();
    match slot_of(sent) {
        Slot::Header(at, _) => at.mag != mag,
        Slot::Links(at, _) => at.mag != mag,
        Slot::Empty => true,
        Slot::Unreadable => true,
        Slot::Row(_, _) => true,
        Slot::Info(_, _) => true,
        Slot::Other(_) => true,
    }
}

// Whether receivers of each page may lose the packet.
fn all_may_lose(pages: &[Page], sent: &[u8; 42]) -> bool
    requires { IsSlot sent.now }
    ensures { IsTrue result ↔ MayBeLost (map page_of pages.now) sent.now }
{
    for i in 0..pages.len() {
        if !may_be_lost(pages[i].id().mag(), sent) {
            return false;
        }
    }
    true
}

/// Whether a packet is lost that may be lost.
pub fn is_lost(pages: &[Page], sent: &[u8; 42], received: &[u8; 42]) -> bool
    requires received { IsSlot received.now }
    requires sent { IsSlot sent.now }
    ensures { IsTrue result ↔ IsLost (map page_of pages.now) sent.now received.now }
{
    if is_blank(sent) || fits(sent, received) {
        return false;
    }
    is_ignored(received) && all_may_lose(pages, sent)
}

// The 40 bytes behind an address.
fn text_of(slot: &[u8; 42]) -> &[u8; 40]
    ensures { result.now ≡ drop 2 slot.now }
{
    slot.last_chunk::<40>().unwrap()
}

// Whether a row is received whole.
fn is_whole(sent: &[u8; 42], received: &[u8; 42]) -> bool
    requires received { IsSlot received.now }
    requires sent { IsSlot sent.now }
    ensures whole { result ≡ true → IsWhole sent.now received.now }
    ensures torn { result ≡ false → IsWhole sent.now received.now → ⊥ }
{
    if !fits(sent, received) {
        return false;
    }
    let text = text_of(received);
    let own = text_of(sent);
    if text == own {
        return all_odd(text);
    }
    false
}

// The byte with its lowest bit wrong.
fn flipped(byte: u8) -> u8
    ensures { result ≡ flipped byte }
{
    byte ^ 1
}

// The same packet with one wrong bit in each byte behind its address.
fn torn(sent: &[u8; 42]) -> [u8; 42]
    requires { IsSlot sent.now }
    ensures slot { IsSlot result }
    ensures near { is_empty sent.now ≡ false → MayBeReceivedAs sent.now result }
    ensures wrong { (x : ℕ) → 2 ≤ x → x < 42 → slice_index result x ≢ slice_index sent.now x }
{
    let mut packet = *sent;
    for x in 2..42usize {
        packet[x] = flipped(packet[x]);
    }
    packet
}

/// Whether a slot arrives within the rule, or is one that may be lost and is.
pub fn arrives(pages: &[Page], sent: &[u8; 42], received: &[u8; 42]) -> bool
    requires received { IsSlot received.now }
    requires sent { IsSlot sent.now }
    ensures { IsTrue result ↔ Arrives (map page_of pages.now) sent.now received.now }
{
    if fits(sent, received) {
        return true;
    }
    is_ignored(received) && all_may_lose(pages, sent)
}

// Whether the slot sends a row that a viewer sees and that is not received whole. The flag says whether a viewer sees it; it counts only for packets.
fn is_refused(flag: bool, sent: &[u8; 42], received: &[u8; 42]) -> bool
    requires received { IsSlot received.now }
    requires sent { IsSlot sent.now }
    ensures refused { result ≡ true → ((flag && not (is_empty sent.now)) ≡ true) × (IsWhole sent.now received.now → ⊥) }
    ensures whole { result ≡ false → (flag && not (is_empty sent.now)) ≡ true → IsWhole sent.now received.now }
{
    if !flag || is_blank(sent) {
        return false;
    }
    !is_whole(sent, received)
}

/// What replaces a slot. The flag says whether the slot sends a row that a viewer sees; it counts only for packets.
pub fn muted(pages: &[Page], flag: bool, sent: &[u8; 42], received: &[u8; 42]) -> [u8; 42]
    requires received { IsSlot received.now }
    requires sent { IsSlot sent.now }
    ensures { IsMutedAs (map page_of pages.now) (flag && not (is_empty sent.now)) sent.now received.now result }
{
    ttx_packet::laws::each_slot_may_be_received_as_sent();
    if !arrives(pages, sent, received) {
        return *received;
    }
    if is_refused(flag, sent, received) {
        return torn(sent);
    }
    *sent
}
