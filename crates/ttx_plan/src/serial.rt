//! Serial transmission.

ghost use Rattle.std.specs.Prelude.{◌≡◌, ◌∷◌, [], ◌++◌, ◌≤◌, List, map, length, IfOk};
ghost use Rattle.ttx_plan.specs.declared.packet.Slot.{Slot};
ghost use Rattle.ttx_plan.specs.Packets.{bytes_of};
ghost use Rattle.ttx_plan.specs.Seen.{seen, seen_sent};
ghost use Rattle.ttx_plan.specs.Serial.{info_if, serial_block, serial_list, serial_page, IsLaid};
ghost use Rattle.ttx_plan.specs.Turns.{is_info_due};

use crate::block::PageBlock;
use crate::packet::{Kind, Packet, Slot};
use crate::rounds::{SentBlock, has_pages, time_filling};
use std::alloc::{AllocError, Global};

// Appends packet 8/30 if it is due.
fn put_info(
    slots: &mut Vec<[u8; 42]>,
    lines: usize,
    info: Option<[u8; 42]>,
) -> Result<(), AllocError>
    requires { (1 ≤ lines) × (lines ≤ 32) }
    ensures { IfOk result (λ _. slots.new.items ≡ slots.old.items ++ map bytes_of (info_if info (is_info_due lines (length slots.old.items)))) }
{
    if let Some(bytes) = info
        && slots.len() % (50 * lines) == 0
    {
        slots.push(bytes)?;
    }
    Ok(())
}

// Appends a slot, and packet 8/30 before it if that is due.
fn put(
    slots: &mut Vec<[u8; 42]>,
    lines: usize,
    info: Option<[u8; 42]>,
    slot: Slot,
) -> Result<(), AllocError>
    requires { (1 ≤ lines) × (lines ≤ 32) }
    ensures { IfOk result (λ _. (list : List Slot) → IsLaid lines info list slots.old.items → IsLaid lines info (list ++ slot ∷ []) slots.new.items) }
{
    put_info(slots, lines, info)?;
    slots.push(slot.bytes())?;
    Ok(())
}

// Appends a block's page: its page header, an empty field, its rows and X/27/0.
fn put_page(
    slots: &mut Vec<[u8; 42]>,
    lines: usize,
    info: Option<[u8; 42]>,
    block: &PageBlock,
) -> Result<(), AllocError>
    requires { (1 ≤ lines) × (lines ≤ 32) }
    ensures { IfOk result (λ _. (list : List Slot) → IsLaid lines info list slots.old.items →
        IsLaid lines info (list ++ serial_page lines (seen block.now)) slots.new.items) }
{
    let header = Packet {
        kind: Kind::PageHeader,
        bytes: block.header,
    };
    put(slots, lines, info, Slot::Sent(block.queue, header))?;
    for _ in 0..lines {
        put(slots, lines, info, Slot::Empty)?;
    }
    for bytes in &block.rest {
        let packet = Packet {
            kind: Kind::RowOrLinks,
            bytes: *bytes,
        };
        put(slots, lines, info, Slot::Sent(block.queue, packet))?;
    }
    Ok(())
}

// Appends a block, after its time-filling header if it has one.
fn put_block(
    slots: &mut Vec<[u8; 42]>,
    lines: usize,
    info: Option<[u8; 42]>,
    sent: &SentBlock,
) -> Result<(), AllocError>
    requires { (1 ≤ lines) × (lines ≤ 32) }
    ensures { IfOk result (λ _. (list : List Slot) → IsLaid lines info list slots.old.items →
        IsLaid lines info (list ++ serial_block lines (seen_sent sent.now)) slots.new.items) }
{
    let queue = sent.block.queue;
    if sent.filler {
        put(
            slots,
            lines,
            info,
            Slot::Sent(queue, time_filling(queue, true)),
        )?;
    }
    put_page(slots, lines, info, sent.block)
}

/// The slots up to the last time-filling header. `Err` if memory runs out.
pub fn serial_slots(
    alloc: Global,
    sent: &[SentBlock],
    lines: usize,
    info: Option<[u8; 42]>,
) -> Result<Vec<[u8; 42]>, AllocError>
    requires lines { (1 ≤ lines) × (lines ≤ 32) }
    ensures { IfOk result (λ slots. IsLaid lines info (serial_list lines (map seen_sent sent.now)) slots.items) }
{
    let mut slots = Vec::new(alloc);
    for block in sent {
        put_block(&mut slots, lines, info, block)?;
    }
    for queue in 0..8 {
        if has_pages(sent, queue) {
            put(
                &mut slots,
                lines,
                info,
                Slot::Sent(queue, time_filling(queue, true)),
            )?;
        }
    }
    Ok(slots)
}
