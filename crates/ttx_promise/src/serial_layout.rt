//! The slots of the packets of a spread plan in serial transmission.

ghost use Rattle.std.specs.Prelude.{◌≤◌};

use crate::layout::{Block, Layout, Stand, used};
use std::alloc::{AllocError, Global};

/// The lines of a field, and whether packet 8/30 is sent.
#[derive(Clone, Copy)]
pub struct Frame {
    pub lines: u32,
    pub info: bool,
}

impl Frame {
    /// The slots from one packet 8/30 to the next.
    pub(crate) fn every(self) -> u32
        ensures { 2 ≤ result }
    {
        self.lines.max(1).saturating_mul(50).max(2)
    }

    // The slot of the packet with this number, from 0; empty slots count, packet 8/30 does not.
    fn slot(self, number: u32) -> u32 {
        if self.info {
            number
                .wrapping_add(number / (self.every() - 1))
                .wrapping_add(1)
        } else {
            number
        }
    }

    /// These slots, rounded up to whole fields.
    pub(crate) fn filled(self, slots: u32) -> u32 {
        let lines = self.lines.max(1);
        slots.div_ceil(lines).wrapping_mul(lines)
    }
}

/// The slots of blocks in serial transmission.
pub(crate) fn serial_layout(
    alloc: Global,
    blocks: &[Block],
    frame: Frame,
) -> Result<Layout, AllocError> {
    let mut stands = Vec::new(alloc);
    let mut next: u32 = 0;
    for block in blocks {
        let header = next.wrapping_add(u32::from(block.filler));
        let last = header.wrapping_add(frame.lines);
        let rows = block.outline.rows;
        let row = if rows > 0 {
            last.wrapping_add(rows)
        } else {
            header
        };
        let rest = block.outline.rest;
        let end = if rest > 0 {
            last.wrapping_add(rest)
        } else {
            header
        };
        stands.push(Stand {
            header: frame.slot(header),
            row: frame.slot(row),
            end: frame.slot(end),
        })?;
        next = last.wrapping_add(rest).wrapping_add(1);
    }
    let packets = next.wrapping_add(used(blocks));
    let length = frame.filled(frame.slot(packets.wrapping_sub(1)).wrapping_add(1));
    Ok(Layout { stands, length })
}
