//! The table of a page.

ghost use Rattle.std.specs.Prelude.{◌≡◌, ◌≢◌, ◌<◌, ℕ, codes, true, false, slice_index, IfOk};
ghost use Rattle.toml.specs.View.{table_view};
ghost use Rattle.ttx_header.specs.Ids.{IsId};
ghost use Rattle.ttx_header.specs.Control.{c11};
ghost use Rattle.ttx_page.specs.Pages.{IsPage};
ghost use Rattle.ttx_page.specs.Views.{page_of};
ghost use Rattle.ttx_source.specs.Frames.{page_in};
ghost use Rattle.ttx_source.specs.Keys as rule;
ghost use Rattle.ttx_source.specs.Services.{id_of_table, authored_at, authored_of, has_id};
ghost use Rattle.ttx_source.specs.Entries.{AreFound};
ghost use Rattle.ttx_source.specs.KeyFaults.{key_outcome};

use crate::controls::control;
use crate::key_faults::KeyFault;
use crate::keys::Key;
use crate::links::links;
use crate::page_entries::PageEntries;
use crate::rows::write_rows;
use crate::services::Service;
use crate::texts::{characters, page_number, subcode};
use crate::values::{integer_or, text_or};
use toml::Table;
use ttx_header::{Control, PageId};
use ttx_links::Links;
use ttx_page::Page;

// The id of a page. No earlier page has it.
#[tactic(auto, unfolding(crate::specs::Services::id_of_table))]
fn id(page: &PageEntries, service: &Service) -> Result<PageId, KeyFault>
    requires { AreFound page.now }
    ensures value { key_outcome (λ id. id) result ≡ id_of_table service.now.pages (table_view page.now.table.now) }
    ensures new { IfOk result (λ id. has_id service.now.pages id ≡ false) }
    ensures ranges { IfOk result (λ id. IsId id × (id.page ≢ 0xff) × (id.sub ≢ 0x3f7f)) }
{
    let (mag, number) = page_number(page.text(Key::Number)?)?;
    let sub = subcode(page.text_or(Key::Sub, "0000")?)?;
    let id = PageId::new(mag, number, sub).unwrap();
    if service.contains(id) {
        return Err(KeyFault::Duplicate);
    }
    Ok(id)
}

// 1, 2, 4 or 8; `Often` otherwise.
fn often_of(number: i64) -> Result<u8, KeyFault>
    ensures value { key_outcome (λ n. n) result ≡ rule.often_in number }
    ensures range { IfOk result (λ n. rule.is_often n ≡ true) }
{
    match number {
        1 => Ok(1),
        2 => Ok(2),
        4 => Ok(4),
        8 => Ok(8),
        _ => Err(KeyFault::Often),
    }
}

/// How often a page is sent in a cycle: 1, 2, 4 or 8 times.
pub fn often(page: &Table) -> Result<u8, KeyFault>
    ensures value { key_outcome (λ n. n) result ≡ rule.often (table_view page.now) }
    ensures range { IfOk result (λ n. rule.is_often n ≡ true) }
{
    often_of(integer_or(page, Key::Often, 1)?)
}

// How often this page is sent in a cycle.
fn often_in(page: &PageEntries) -> Result<u8, KeyFault>
    requires { AreFound page.now }
    ensures value { key_outcome (λ n. n) result ≡ rule.often (table_view page.now.table.now) }
    ensures range { IfOk result (λ n. rule.is_often n ≡ true) }
{
    often_of(page.integer_or(Key::Often, 1)?)
}

/// Columns 8 to 31 of row 0.
pub fn head(page: &Table) -> Result<[u8; 24], KeyFault>
    ensures value { key_outcome (λ t. t) result ≡ rule.head (table_view page.now) }
    ensures codes { IfOk result (λ t. (c : ℕ) → slice_index t c < 128) }
{
    characters::<24>(text_or(page, Key::Head, "")?)
}

// Columns 8 to 31 of row 0 of a page.
fn head_in(page: &PageEntries) -> Result<[u8; 24], KeyFault>
    requires { AreFound page.now }
    ensures value { key_outcome (λ t. t) result ≡ rule.head (table_view page.now.table.now) }
    ensures codes { IfOk result (λ t. (c : ℕ) → slice_index t c < 128) }
{
    characters::<24>(page.text_or(Key::Head, "")?)
}

/// A page without its rows, and how often it is sent.
#[derive(Clone, Copy)]
pub struct Frame {
    id: PageId,
    control: Control,
    head: [u8; 24],
    links: Links,
    often: u8,
}

impl Frame {
    /// How often the page is sent.
    pub fn often(&self) -> u8
        ensures { result ≡ self.now.often }
    {
        self.often
    }

    /// The page with these rows.
    pub fn page(&self, rows: &[[u8; 40]; 24]) -> Page
        requires { IsPage (page_in self.now rows.now) }
        ensures { page_of result ≡ page_in self.now rows.now }
    {
        Page::of_fields(self.id, self.control, &self.head, rows, &self.links)
    }
}

/// Reads the page in a table, and how often it is sent: writes its rows, and returns the others. The pages of `service` are the
/// earlier ones.
#[tactic(auto, unfolding(crate::specs::Services::authored_of))]
pub fn frame_of(
    table: &Table,
    service: &Service,
    rows: &mut [[u8; 40]; 24],
) -> Result<Frame, KeyFault>
    ensures value { key_outcome (λ f. authored_at (page_in f rows.new) f.often) result
        ≡ authored_of service.now.serial service.now.pages (table_view table.now) }
    ensures page { IfOk result (λ f. IsPage (page_in f rows.new)) }
    ensures new { IfOk result (λ f. has_id service.now.pages f.id ≡ false) }
    ensures c11 { IfOk result (λ f. c11 f.control.0 ≡ service.now.serial) }
    ensures often { IfOk result (λ f. rule.is_often f.often ≡ true) }
{
    let page = PageEntries::of(table);
    let id = match id(&page, service) {
        Ok(id) => id,
        Err(fault) => return Err(fault),
    };
    let often = often_in(&page)?;
    let control = control(&page, service.serial())?;
    let head = head_in(&page)?;
    write_rows(&page, rows)?;
    match links(&page) {
        Ok(links) => Ok(Frame {
            id,
            control,
            head,
            links,
            often,
        }),
        Err(fault) => Err(fault),
    }
}
