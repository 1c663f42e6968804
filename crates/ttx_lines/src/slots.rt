//! The lines of `inspect`.

ghost use Rattle.std.specs.Prelude.{◌≡◌, ◌≤◌, true, [], ◌∷◌, ◌++◌, OnOk, IfOk, codes, map, option_map, string_bytes};
ghost use Rattle.std.specs.Fmt.{decimal};
ghost use Rattle.ttx_header.specs.Headers.{is_header, id_of, control_of};
ghost use Rattle.ttx_links.specs.Sets.{links_of};
ghost use Rattle.ttx_info.specs.Infos.{info_of};
ghost use Rattle.ttx_lines.specs.Texts.{date_text, time_text};
ghost use Rattle.ttx_lines.specs.Lines.{packet_text, header_text, link_fields_text, number_of_fault, info_text, corrected_mark};
ghost use Rattle.ttx_lines.specs.Lines.{packet_line, slot_line, lines_from};

use crate::texts::{push_date, push_links, push_time};
use std::alloc::{AllocError, Global};
use ttx_digits::{push_control, push_decimal, push_id};
use ttx_header::{Header, read_header};
use ttx_info::{Info, InfoFault, read_info};
use ttx_links::{Links, read_links};
use ttx_packet::place::Address;
use ttx_packet::{Slot, clean, slot_of};

// Adds the fields of a page header.
fn push_header(text: &mut String, header: &Header) -> Result<(), AllocError>
    ensures { OnOk result (string_bytes text.new ≡ string_bytes text.old ++ header_text header.now.id header.now.control) }
{
    text.push(' ')?;
    push_id(text, header.id())?;
    push_control(text, header.control())
}

// Adds the fields of a packet X/27/0.
fn push_link_fields(text: &mut String, links: Option<Links>) -> Result<(), AllocError>
    ensures { OnOk result (string_bytes text.new ≡ string_bytes text.old ++ link_fields_text (option_map (λ l. l.set) links)) }
{
    let Some(links) = links else {
        return text.push_str(" unreadable");
    };
    push_links(text, links.six())?;
    if links.show24() {
        text.push_str(" row24")?;
    }
    Ok(())
}

// The number of a fault of a packet 8/30.
fn number_of(fault: &InfoFault) -> u8
    ensures { result ≡ number_of_fault fault.now }
{
    match fault {
        InfoFault::Designation => 1,
        InfoFault::Hamming => 2,
        InfoFault::Digit => 3,
        InfoFault::Parity => 4,
    }
}

// Adds date and time, each after a space.
fn push_date_and_time(text: &mut String, info: &Info) -> Result<(), AllocError>
    ensures { OnOk result (string_bytes text.new ≡ string_bytes text.old ++ 32 ∷ date_text info.now.mjd ++ 32 ∷ time_text info.now.utc) }
{
    text.push(' ')?;
    push_date(text, info.mjd())?;
    text.push(' ')?;
    push_time(text, info.utc())
}

// Adds the fields of a packet 8/30.
fn push_info(text: &mut String, info: &Result<Info, InfoFault>) -> Result<(), AllocError>
    ensures { OnOk result (string_bytes text.new ≡ string_bytes text.old ++ info_text info.now) }
{
    match info {
        Ok(info) => push_date_and_time(text, info),
        Err(fault) => {
            let number = number_of(fault);
            write!(text, " fault {number}")
        }
    }
}

// A magazine, between a space and a slash.
#[tactic(auto, using(std::proofs::lemmas::Fmt::decimal_digit))]
fn magazine(mag: u8) -> &'static str
    requires from { 1 ≤ mag }
    requires to { mag ≤ 8 }
    ensures { result.now ≡ 32 ∷ decimal mag ++ 47 ∷ [] }
{
    match mag {
        1 => " 1/",
        2 => " 2/",
        3 => " 3/",
        4 => " 4/",
        5 => " 5/",
        6 => " 6/",
        7 => " 7/",
        _ => " 8/",
    }
}

// Adds the slot's number, the magazine, the packet number, and the kind after them.
#[tactic(auto, using(std::proofs::Common::append_assoc))]
fn push_packet(text: &mut String, slot: usize, at: Address, kind: &str) -> Result<(), AllocError>
    ensures { OnOk result (string_bytes text.new ≡ string_bytes text.old ++ decimal slot ++ 32 ∷ decimal at.mag ++ 47 ∷ decimal at.number
        ++ kind.now) }
{
    push_decimal(text, slot)?;
    text.push_str(magazine(at.mag))?;
    push_decimal(text, usize::from(at.number))?;
    text.push_str(kind)
}

// Ends the line of a packet.
fn end_packet(text: &mut String, bytes: &[u8; 42]) -> Result<(), AllocError>
    ensures { OnOk result (string_bytes text.new ≡ string_bytes text.old ++ corrected_mark bytes.now ++ 10 ∷ []) }
{
    if !clean(bytes) {
        text.push_str(" corrected")?;
    }
    text.push('\n')
}

// Adds the line of a page header.
#[tactic(auto, using(std::proofs::Common::append_assoc))]
fn push_header_line(
    text: &mut String,
    slot: usize,
    at: Address,
    bytes: &[u8; 42],
) -> Result<(), AllocError>
    requires { is_header bytes.now ≡ true }
    ensures { OnOk result (string_bytes text.new ≡ string_bytes text.old
        ++ packet_line slot (packet_text at.mag at.number (codes "header")) (header_text (id_of bytes.now) (control_of bytes.now)) bytes.now) }
{
    let header = read_header(bytes).unwrap();
    push_packet(text, slot, at, " header")?;
    push_header(text, &header)?;
    end_packet(text, bytes)
}

// Adds the line of a packet X/27/0.
#[tactic(auto, using(std::proofs::Common::append_assoc))]
fn push_links_line(
    text: &mut String,
    slot: usize,
    at: Address,
    bytes: &[u8; 42],
) -> Result<(), AllocError>
    ensures { OnOk result (string_bytes text.new ≡ string_bytes text.old
        ++ packet_line slot (packet_text at.mag at.number (codes "links")) (link_fields_text (links_of at.mag bytes.now)) bytes.now) }
{
    push_packet(text, slot, at, " links")?;
    push_link_fields(text, read_links(at.mag, bytes))?;
    end_packet(text, bytes)
}

// Adds the line of a packet 8/30.
#[tactic(auto, using(std::proofs::Common::append_assoc))]
fn push_info_line(
    text: &mut String,
    slot: usize,
    at: Address,
    bytes: &[u8; 42],
) -> Result<(), AllocError>
    ensures { OnOk result (string_bytes text.new ≡ string_bytes text.old
        ++ packet_line slot (packet_text at.mag at.number (codes "info")) (info_text (info_of bytes.now)) bytes.now) }
{
    push_packet(text, slot, at, " info")?;
    push_info(text, &read_info(bytes))?;
    end_packet(text, bytes)
}

// Adds the line of a packet whose fields aren't shown, with its kind after a space.
fn push_plain_line(
    text: &mut String,
    slot: usize,
    at: Address,
    kind: &str,
    bytes: &[u8; 42],
) -> Result<(), AllocError>
    ensures { OnOk result (string_bytes text.new ≡ string_bytes text.old ++ decimal slot ++ 32 ∷ decimal at.mag ++ 47 ∷ decimal at.number
        ++ kind.now ++ corrected_mark bytes.now ++ 10 ∷ []) }
{
    push_packet(text, slot, at, kind)?;
    end_packet(text, bytes)
}

// Adds the line of a slot.
#[tactic(auto, using(crate::proofs::ReadHeaders::kind_is_header))]
fn push_line(text: &mut String, slot: usize, bytes: &[u8; 42]) -> Result<(), AllocError>
    ensures { OnOk result (string_bytes text.new ≡ string_bytes text.old ++ slot_line slot bytes.now) }
{
    match slot_of(bytes) {
        Slot::Empty => writeln!(text, "{slot} empty"),
        Slot::Unreadable => writeln!(text, "{slot} unreadable"),
        Slot::Header(at, _) => push_header_line(text, slot, at, bytes),
        Slot::Row(at, _) => push_plain_line(text, slot, at, " row", bytes),
        Slot::Links(at, _) => push_links_line(text, slot, at, bytes),
        Slot::Info(at, _) => push_info_line(text, slot, at, bytes),
        Slot::Other(at) => push_plain_line(text, slot, at, " other", bytes),
    }
}

/// The lines of the slots.
pub fn slot_lines(alloc: Global, slots: &[[u8; 42]]) -> Result<String, AllocError>
    ensures { IfOk result (λ text. string_bytes text ≡ lines_from 0 slots.now) }
{
    let mut text = String::new(alloc);
    for (at, slot) in slots.iter().enumerate() {
        push_line(&mut text, at, slot)?;
    }
    Ok(text)
}
