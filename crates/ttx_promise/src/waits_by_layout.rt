//! How long viewers wait for the pages of a spread plan, by its layout.

use crate::layout::{Block, Layout, Outline, Stand, blocks};
use crate::parallel_layout::parallel_layout;
use crate::promised_plan::Viewers;
use crate::serial_layout::{Frame, serial_layout};
use std::alloc::{AllocError, Global};
use ttx_plan::spread_places;
use ttx_source::Service;

// The slots of a page in a period.
#[derive(Clone, Copy)]
struct Sendings {
    count: u32,
    stands: [Stand; 8],
}

impl Sendings {
    // The page sent once more.
    fn add(&mut self, stand: Stand) {
        self.stands[(self.count % 8) as usize] = stand;
        self.count = self.count.wrapping_add(1);
    }

    // The slots of one of its transmissions, in this period or a later one.
    fn stand(&self, number: u32, length: u32) -> Stand {
        let count = self.count.max(1);
        let stand = self.stands[(number % count % 8) as usize];
        let later = length.wrapping_mul(number / count);
        Stand {
            header: stand.header.wrapping_add(later),
            row: stand.row.wrapping_add(later),
            end: stand.end.wrapping_add(later),
        }
    }

    // The most slots from a page header to the end of what a receiver needs: each row as often as the repeat count, X/27/0 once.
    fn slots(&self, repeat: u8, length: u32) -> u32 {
        let mut most = 0;
        for number in 0..8u32 {
            if number < self.count {
                let row = self.stand(number + u32::from(repeat), length).row;
                let end = self.stand(number + 1, length).end;
                let slots = row.max(end).wrapping_sub(self.stand(number, length).header);
                most = slots.max(most);
            }
        }
        most
    }
}

fn no_sendings() -> Sendings {
    let nowhere = Stand {
        header: 0,
        row: 0,
        end: 0,
    };
    Sendings {
        count: 0,
        stands: [nowhere; 8],
    }
}

// The slots of each of so many pages.
fn sendings_of(
    alloc: Global,
    blocks: &[Block],
    stands: &[Stand],
    count: usize,
) -> Result<Vec<Sendings>, AllocError> {
    let mut pages = Vec::new(alloc);
    for _ in 0..count {
        pages.push(no_sendings())?;
    }
    for number in 0..blocks.len() {
        let index = blocks[number].index;
        if number < stands.len() && index < pages.len() {
            pages[index].add(stands[number]);
        }
    }
    Ok(pages)
}

fn layout_of(alloc: Global, service: &Service, blocks: &[Block]) -> Result<Layout, AllocError> {
    let frame = Frame {
        lines: u32::from(service.lines()),
        info: service.info().is_some(),
    };
    if service.serial() {
        serial_layout(alloc, blocks, frame)
    } else {
        parallel_layout(alloc, blocks, frame)
    }
}

/// The fields that a viewer of each page waits in the spread plan of a service.
pub(crate) fn waits_by_layout(
    alloc: Global,
    service: &Service,
    viewers: Viewers,
    outlines: &[Outline],
) -> Result<Vec<u32>, AllocError> {
    let places = spread_places(service, viewers.receivers.class);
    let blocks = blocks(alloc, service, viewers.receivers, outlines, &places)?;
    let layout = layout_of(alloc, service, &blocks)?;
    let pages = sendings_of(alloc, &blocks, &layout.stands, outlines.len())?;
    let lines = u32::from(service.lines()).max(1);
    let mut fields = Vec::new(alloc);
    for page in &pages {
        fields.push(
            page.slots(viewers.repeat, layout.length)
                .div_ceil(lines)
                .max(1),
        )?;
    }
    Ok(fields)
}
