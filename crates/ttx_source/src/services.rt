//! Services.

ghost use Rattle.std.specs.Prelude.{◌≡◌, ◌<◌, ◌≤◌, ◌∷◌, [], true, false, length, map, option_map, slice_get, Some, OnOk, OnErr};
ghost use Rattle.ttx_header.specs.Control.{c11};
ghost use Rattle.ttx_page.specs.Views.{page_of};
ghost use Rattle.ttx_source.specs.Keys.{is_often};
ghost use Rattle.ttx_source.specs.Services.{IsService, authored_at, service_at, with_often, with_page, has_id};

use indexmap::IndexMap;
use std::alloc::{AllocError, Global};
use std::marker::Model;
use ttx_header::PageId;
use ttx_info::Info;
use ttx_page::Page;

/// A service: the slots in a field, serial or parallel transmission, its packet 8/30, and its pages, each with how often it is
/// sent. It has 1 to 32 lines and at most 2,000 pages with different ids; C11 of each page is `serial`.
#[derive(Drop)]
pub struct Service {
    lines: u8,
    serial: bool,
    info: Option<Info>,
    pages: Vec<Page>,
    often: IndexMap<PageId, u8>,
}

impl Model for Service {
    ghost use Rattle.ttx_source.specs.Services.{ServiceFields, service_at};
    ghost use Rattle.ttx_source.specs.Views.{authored_pages, IsKept};

    ghost Value = { ServiceFields };

    ghost view = { λ s. service_at s.lines s.serial s.info (authored_pages s.pages.items s.often.entries) };

    ghost invariant = { λ s. IsKept (service_at s.lines s.serial s.info (authored_pages s.pages.items s.often.entries))
        s.pages.items s.often.entries };
}

impl Service {
    /// A service without pages.
    pub(crate) fn new(alloc: Global, lines: u8, serial: bool, info: Option<Info>) -> Service
        requires from { 1 ≤ lines }
        requires to { lines ≤ 32 }
        ensures { result ≡ service_at lines serial info [] }
    {
        Service {
            lines,
            serial,
            info,
            pages: Vec::new(alloc),
            often: IndexMap::new(alloc),
        }
    }

    /// The slots in a field (`lines`), 1 to 32.
    pub fn lines(&self) -> u8
        ensures value { result ≡ self.now.lines }
        ensures ranges { IsService self.now }
    {
        self.lines
    }

    /// Whether magazines are sent one after another; C11 of every header says so.
    pub fn serial(&self) -> bool
        ensures { result ≡ self.now.serial }
    {
        self.serial
    }

    /// The fields of packet 8/30 format 1; `None` if the service does not send it.
    pub fn info(&self) -> Option<&Info>
        ensures { option_map (λ i. i.now) result ≡ self.now.info }
    {
        self.info.as_ref()
    }

    /// The pages, in authored order.
    pub fn pages(&self) -> &[Page]
        ensures value { map page_of result.now ≡ map (λ p. p.page) self.now.pages }
        ensures count { length result.now ≡ length self.now.pages }
        ensures ranges { IsService self.now }
    {
        self.pages.as_slice()
    }

    /// How often the page at `index` is sent in a cycle: 1, 2, 4 or 8 times.
    pub fn often(&self, index: usize) -> u8
        requires { index < length self.now.pages }
        ensures { option_map (λ p. p.often) (slice_get self.now.pages index) ≡ Some result }
    {
        *self.often.get_index(index).unwrap().1
    }

    /// Sets how often the page at an index is sent: 1, 2, 4 or 8 times.
    pub fn set_often(&mut self, index: usize, often: u8)
        requires index { index < length self.old.pages }
        requires often { is_often often ≡ true }
        ensures { self.new ≡ with_often self.old index often }
    {
        self.often[index] = often;
    }

    /// Whether a page of the service has this id.
    pub(crate) fn contains(&self, id: PageId) -> bool
        ensures { result ≡ has_id self.now.pages id }
    {
        self.often.contains_key(&id)
    }

    /// Appends a page. If memory runs out, the service is unchanged.
    pub(crate) fn add(&mut self, page: Page, often: u8) -> Result<(), AllocError>
        requires room { length self.old.pages < 2000 }
        requires new { has_id self.old.pages (page_of page).id ≡ false }
        requires serial { c11 (page_of page).control ≡ self.old.serial }
        requires often { is_often often ≡ true }
        ensures ok { OnOk result (self.new ≡ with_page self.old (authored_at (page_of page) often)) }
        ensures err { OnErr result (self.new ≡ self.old) }
    {
        self.pages.reserve(1)?;
        match self.often.insert(page.id(), often) {
            Ok(_) => {}
            Err(_) => return Err(AllocError),
        }
        self.pages.push_reserved(page);
        Ok(())
    }
}
