//! What the warnings about the traffic of a service need to know of its pages.

ghost use Rattle.std.specs.Prelude.{◌≡◌, ◌≤◌, IfOk};
ghost use Rattle.ttx_page.specs.declared.item.Item.TheVariants.{Row as TheRow};
ghost use Rattle.ttx_page.specs.Pages.{needed};
ghost use Rattle.ttx_page.specs.Views.{page_of};
ghost use Rattle.ttx_source.specs.Services.{authored_at};
ghost use Rattle.ttx_check.specs.Entries.{shown_rows, packets_of_page, queue_entry, queue_entries};

use std::alloc::{AllocError, Global};
use ttx_header::PageId;
use ttx_page::{Item, Page, RowNumber, needed};
use ttx_source::Service;

/// A page: its id, how often it is sent in a cycle, and how many packets it has in a cycle.
#[derive(Clone, Copy)]
pub struct Entry {
    pub id: PageId,
    pub often: u8,
    pub packets: u32,
}

// Whether a viewer sees the row.
fn is_shown(page: &Page, number: u8) -> bool
    requires from { 1 ≤ number }
    requires to { number ≤ 24 }
    ensures { result ≡ needed (page_of page.now) (TheRow number) }
{
    needed(page, Item::Row(RowNumber::new(number).unwrap()))
}

// How many rows a viewer sees.
fn shown_rows(page: &Page) -> u32
    ensures value { result ≡ shown_rows (page_of page.now) 24 }
    ensures few { result ≤ 24 }
{
    let mut count = 0;
    for above in 0..24 {
        if is_shown(page, above + 1) {
            count += 1;
        }
    }
    count
}

// The entry of a page that is sent `often` times in a cycle.
fn entry_for(page: &Page, often: u8) -> Entry
    ensures { result ≡ queue_entry (authored_at (page_of page.now) often) }
{
    Entry {
        id: page.id(),
        often,
        packets: u32::from(often) * (shown_rows(page) + 2),
    }
}

/// The pages of a service, in authored order.
pub fn entries(alloc: Global, service: &Service) -> Result<Vec<Entry>, AllocError>
    ensures { IfOk result (λ entries. entries.items ≡ queue_entries service.now) }
{
    let pages = service.pages();
    let mut entries = Vec::new(alloc);
    for index in 0..pages.len() {
        let often = service.often(index);
        entries.push(entry_for(&pages[index], often))?;
    }
    Ok(entries)
}
