//! Recognises the form of packets.

ghost use Rattle.std.specs.Prelude.{◌≡◌, ◌<◌, ◌≤◌, ◌+◌, ◌-◌, ◌*◌, ◌&&◌, ℕ, true, false, nat_le, nat_lt, suc, if◌then◌else◌, length, map, take, drop, MatchOption};
ghost use Rattle.std.specs.Int.{reverse_bits, w8};
ghost use Rattle.ttx_packet.specs.Slots.{is_empty};
ghost use Rattle.ttx_recognition.specs.Packets.{reads};
ghost use Rattle.ttx_recognition.specs.Forms.{as_sent, packets_in, ordered, packet_at, is_framing, is_framed, sent_in, read_in, sent_to, read_to, fits, form_at};
ghost use Rattle.ttx_recognition.specs.Recognition.{judged, is_unlike, IsFirstForm, FitsNone, IsRecognised};

use crate::form::{Form, Unlike};
use crate::packets::{is_blank, reads};

/// How many packets are not empty, and how many read behind their framing code.
#[derive(Clone, Copy)]
pub struct Counts {
    pub sent: usize,
    pub read: usize,
}

// Reverses the bits of each byte.
fn reverse(packet: &mut [u8; 42])
    ensures { packet.new ≡ map (reverse_bits w8) packet.old }
{
    for i in 0..42usize {
        packet[i] = packet[i].reverse_bits();
    }
}

// 42 bytes, their bits in reverse order or not.
fn ordered(bytes: &[u8; 42], reversed: bool) -> [u8; 42]
    ensures { result ≡ ordered reversed bytes.now }
{
    let mut packet = *bytes;
    if reversed {
        reverse(&mut packet);
    }
    packet
}

// The first 42 bytes.
fn first_slot(bytes: &[u8]) -> &[u8; 42]
    requires { 42 ≤ length bytes.now }
    ensures { result.now ≡ take 42 bytes.now }
{
    bytes.first_chunk::<42>().unwrap()
}

// The 42 bytes from a byte on.
fn slot_at(bytes: &[u8], at: usize) -> &[u8; 42]
    requires { at + 42 ≤ length bytes.now }
    ensures { result.now ≡ take 42 (drop at bytes.now) }
{
    first_slot(&bytes[at..])
}

// A packet of a form.
fn packet_at(form: Form, bytes: &[u8], i: usize) -> [u8; 42]
    requires size { 42 ≤ form.size }
    requires inside { form.off + form.size * i + form.size ≤ length bytes.now }
    ensures { result ≡ packet_at form bytes.now i }
{
    let at = form.off + form.size * i + (form.size - 42);
    ordered(slot_at(bytes, at), form.reversed)
}

// Whether a byte is the framing code, with its bits in either order.
fn is_framing(byte: u8) -> bool
    ensures { result ≡ is_framing byte }
{
    byte == 0x27 || byte == 0xE4
}

// Whether the framing code stands before a packet of a form, or nothing does.
fn is_framed(form: Form, bytes: &[u8], i: usize) -> bool
    requires size { 42 ≤ form.size }
    requires inside { form.off + form.size * i + form.size ≤ length bytes.now }
    ensures { result ≡ is_framed form bytes.now i }
{
    if form.size == 42 {
        return true;
    }
    is_framing(bytes[form.off + form.size * i + (form.size - 43)])
}

// Counts a packet that is not empty.
fn with_sent(count: usize, packet: &[u8; 42]) -> usize
    requires { count < 2688 }
    ensures is { result ≡ (if is_empty packet.now then count else suc count) }
    ensures few { result ≤ count + 1 }
{
    if is_blank(packet) { count } else { count + 1 }
}

// Counts a packet that reads behind its framing code.
fn with_read(count: usize, framed: bool, packet: &[u8; 42]) -> usize
    requires { count < 2688 }
    ensures is { result ≡ (if framed && reads packet.now then suc count else count) }
    ensures few { result ≤ count + 1 }
{
    if framed && reads(packet) {
        count + 1
    } else {
        count
    }
}

// Counts the packets of a form.
fn counted(form: Form, bytes: &[u8]) -> Counts
    requires size { 42 ≤ form.size }
    requires few { length bytes.now ≤ 2688 }
    ensures sent { result.sent ≡ sent_in form bytes.now }
    ensures read { result.read ≡ read_in form bytes.now }
    ensures few { result.read ≤ 2688 }
{
    let (mut sent, mut read) = (0, 0);
    let packets = bytes.len().saturating_sub(form.off) / form.size;
    for i in 0..packets {
        let packet = packet_at(form, bytes, i);
        let framed = is_framed(form, bytes, i);
        sent = with_sent(sent, &packet);
        read = with_read(read, framed, &packet);
    }
    Counts { sent, read }
}

// Whether four packets read, and half of those that are not empty.
fn are_enough(counts: Counts) -> bool
    requires { counts.read ≤ 2688 }
    ensures { result ≡ (nat_le 4 counts.read && nat_le counts.sent (2 * counts.read)) }
{
    4 <= counts.read && counts.sent <= 2 * counts.read
}

// Whether eight packets or more are not empty, and not one in ten reads.
fn are_too_few(counts: Counts) -> bool
    requires { counts.read ≤ 2688 }
    ensures { result ≡ (nat_le 8 counts.sent && nat_lt (10 * counts.read) counts.sent) }
{
    8 <= counts.sent && 10 * counts.read < counts.sent
}

// Whether the bytes are packets of this form: four of them read, and half of those that are not empty.
fn fits(form: Form, bytes: &[u8]) -> bool
    requires size { 42 ≤ form.size }
    requires few { length bytes.now ≤ 2688 }
    ensures { result ≡ fits form bytes.now }
{
    are_enough(counted(form, bytes))
}

// One of the 260 forms.
fn form_at(n: usize) -> Form
    ensures is { result ≡ form_at n }
    ensures size { 42 ≤ result.size }
{
    let reversed = 130 <= n;
    let m = n % 130;
    let (size, off) = if m < 42 {
        (42, m)
    } else if m < 85 {
        (43, m - 42)
    } else {
        (45, m - 85)
    };
    Form {
        size,
        off,
        reversed,
    }
}

// The first form that fits.
fn first_form(bytes: &[u8]) -> Option<Form>
    requires { length bytes.now ≤ 2688 }
    ensures { MatchOption result (FitsNone bytes.now) (IsFirstForm bytes.now) }
{
    for n in 0..260usize {
        let form = form_at(n);
        if fits(form, bytes) {
            return Some(form);
        }
    }
    None
}

// Whether there are eight packets or more that are not empty, and not one in ten reads.
fn is_unlike(bytes: &[u8]) -> bool
    requires { length bytes.now ≤ 2688 }
    ensures { result ≡ is_unlike bytes.now }
{
    are_too_few(counted(form_at(0), bytes))
}

// The first bytes.
fn first(bytes: &[u8], most: usize) -> &[u8]
    ensures { result.now ≡ take most bytes.now }
{
    &bytes[..most.min(bytes.len())]
}

// The bytes that are judged.
fn judged(bytes: &[u8]) -> &[u8]
    ensures few { length result.now ≤ 2688 }
    ensures is { result.now ≡ judged bytes.now }
{
    first(bytes, 2688)
}

/// What bytes are that should be packets of 42 bytes, by their first 2,688 bytes: `None` if at least one packet in ten reads, or if fewer
/// than eight of them are not empty; otherwise the first form that fits, if there is one. Allocates no memory.
pub fn recognise(bytes: &[u8]) -> Option<Unlike>
    ensures { IsRecognised (judged bytes.now) result }
{
    let bytes = judged(bytes);
    if !is_unlike(bytes) {
        return None;
    }
    match first_form(bytes) {
        Some(form) => Some(Unlike::Form(form)),
        None => Some(Unlike::NoTeletext),
    }
}
