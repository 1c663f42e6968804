//! Whether a service is a draft.

ghost use Rattle.std.specs.Prelude.{◌≡◌, ◌↔◌, IsTrue, Some, map, option_map, slice_get};
ghost use Rattle.ttx_page.specs.Pages as definitions;
ghost use Rattle.ttx_page.specs.Views.{page_of};
ghost use Rattle.ttx_source.specs.Services.{authored_at};
ghost use Rattle.ttx_extract.specs.Drafts.{authored_of, draft_of};

use crate::draft::Draft;
use crate::infos::same_info;
use crate::sent_page::SentPage;
use ttx_info::Info;
use ttx_links::Links;
use ttx_page::Page;
use ttx_source::Service;
use ttx_witness::same_links;

// Whether links and CRC are the same.
fn same_packet(a: &Links, b: &Links) -> bool
    ensures { IsTrue result ↔ (a.now.set ≡ b.now.set) × (a.now.crc ≡ b.now.crc) }
{
    same_links(a, b) && a.crc() == b.crc()
}

// Whether control bits and characters of row 0 are the same.
fn same_head(sent: &SentPage, page: &Page) -> bool
    ensures { IsTrue result ↔ (sent.now.control.0 ≡ (page_of page.now).control) × (sent.now.head ≡ (page_of page.now).head) }
{
    sent.control.0 == page.control().0 && sent.head == *page.head()
}

fn same_row(a: &[u8; 40], b: &[u8; 40]) -> bool
    ensures { IsTrue result ↔ (a.now ≡ b.now) }
{
    *a == *b
}

fn same_rows(a: &[[u8; 40]; 24], b: &[[u8; 40]; 24]) -> bool
    ensures { IsTrue result ↔ (a.now ≡ b.now) }
{
    for i in 0..24usize {
        if !same_row(&a[i], &b[i]) {
            return false;
        }
    }
    true
}

// Whether rows, links and CRC are the same.
fn same_body(sent: &SentPage, page: &Page) -> bool
    ensures { IsTrue result ↔ (sent.now.rows ≡ (page_of page.now).rows)
        × (sent.now.links.set ≡ (page_of page.now).links) × (sent.now.links.crc ≡ (page_of page.now).crc) }
{
    same_rows(&sent.rows, page.rows()) && same_packet(&sent.links, page.links())
}

// Whether id and contents are the same.
fn same_page(sent: &SentPage, page: &Page) -> bool
    ensures { IsTrue result ↔ ((authored_of sent.now).page ≡ page_of page.now) }
{
    sent.id == page.id() && same_head(sent, page) && same_body(sent, page)
}

// Whether a page, which is sent so often, is that of a draft.
fn is_sent_page(sent: &SentPage, page: &Page, often: u8) -> bool
    ensures { IsTrue result ↔ (authored_of sent.now ≡ authored_at (page_of page.now) often) }
{
    sent.often == often && same_page(sent, page)
}

// Whether both have the same packet 8/30, or none.
fn same_infos(a: Option<&Info>, b: Option<&Info>) -> bool
    ensures { IsTrue result ↔ (option_map (λ i. i.now) a.entry ≡ option_map (λ i. i.now) b.entry) }
{
    match (a, b) {
        (Some(a), Some(b)) => same_info(a, b),
        (None, None) => true,
        _ => false,
    }
}

// Whether the pages of a service are those of a draft.
fn same_pages(pages: &[SentPage], service: &Service) -> bool
    ensures { IsTrue result ↔ (map authored_of pages.now ≡ service.now.pages) }
{
    let others = service.pages();
    if pages.len() != others.len() {
        return false;
    }
    for index in 0..others.len() {
        if !is_sent_page(&pages[index], &others[index], service.often(index)) {
            return false;
        }
    }
    true
}

/// Whether a service is a draft.
pub fn is_draft(service: &Service, draft: &Draft) -> bool
    ensures { IsTrue result ↔ (service.now ≡ draft_of draft.now) }
{
    service.lines() == draft.lines
        && service.serial() == draft.serial
        && same_infos(service.info(), draft.info.as_ref())
        && same_pages(draft.pages.as_slice(), service)
}
