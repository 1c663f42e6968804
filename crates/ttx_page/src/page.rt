//! Pages as authored.

ghost use Rattle.std.specs.Prelude.{◌≡◌, ◌≢◌, ◌↔◌, false, IsTrue, IsSome, IfSome};
ghost use Rattle.ttx_header.specs.Control.{IsControl, c4};
ghost use Rattle.ttx_header.specs.Ids.{IsId};
ghost use Rattle.ttx_page.specs.PageLinks.{HasLinks};
ghost use Rattle.ttx_page.specs.Pages.{IsPage, page_at};

use crate::codes::{are_rows, is_head};
use ttx_header::{Control, PageId};
use ttx_links::Links;

/// A page as authored: the characters of row 0, columns 8 to 31, and rows 1 to 24 (`rows[0]` is row 1). Every character is
/// below 128, C4 is clear, the page number is not FF and the subcode is not 3F7F.
#[derive(Clone, Copy)]
pub struct Page {
    id: PageId,
    control: Control,
    head: [u8; 24],
    rows: [[u8; 40]; 24],
    links: Links,
    ghost kept: { IsPage (page_at id control.0 head rows links.set links.crc) },
    ghost linked: { HasLinks (page_at id control.0 head rows links.set links.crc) },
}

// Whether the id can be that of a page: not page FF, and not subcode 3F7F.
fn is_page_id(id: PageId) -> bool
    ensures not_filling { IsTrue result ↔ (id.page ≢ 0xff) × (id.sub ≢ 0x3f7f) }
    ensures ranges { IsId id }
{
    let _mag = id.mag();
    id.page() != 0xff && id.sub() != 0x3f7f
}

// Whether only control bits are set, and C4 is clear.
fn is_page_control(control: Control) -> bool
    ensures { IsTrue result ↔ IsControl control.0 × (c4 control.0 ≡ false) }
{
    control.0 < 2048 && !control.erases_page()
}

impl Page {
    ghost use Rattle.ttx_page.specs.Views.{page_of};

    /// A page with these fields. `None` if one of the rules of the type fails.
    pub fn new(
        id: PageId,
        control: Control,
        head: [u8; 24],
        rows: [[u8; 40]; 24],
        links: Links,
    ) -> Option<Page>
        ensures some { IsSome result ↔ IsPage (page_at id control.0 head rows links.set links.crc) }
        ensures fields { IfSome result (λ p. page_of p ≡ page_at id control.0 head rows links.set links.crc) }
    {
        let _six = links.six();
        ttx_links::laws::links_lead_to_targets(&links);
        if is_page_id(id) && is_page_control(control) && is_head(&head) && are_rows(&rows) {
            Some(Page {
                id,
                control,
                head,
                rows,
                links,
            })
        } else {
            None
        }
    }

    /// A page with these fields, which keep the rules of the type.
    pub fn of_fields(
        id: PageId,
        control: Control,
        head: &[u8; 24],
        rows: &[[u8; 40]; 24],
        links: &Links,
    ) -> Page
        requires { IsPage (page_at id control.0 head.now rows.now links.now.set links.now.crc) }
        ensures { page_of result ≡ page_at id control.0 head.now rows.now links.now.set links.now.crc }
    {
        let _six = links.six();
        ttx_links::laws::links_lead_to_targets(links);
        Page {
            id,
            control,
            head: *head,
            rows: *rows,
            links: *links,
        }
    }

    /// The id of the page.
    pub fn id(&self) -> PageId
        ensures { result ≡ (page_of self.now).id }
    {
        self.id
    }

    /// The control bits. C4 is clear.
    pub fn control(&self) -> Control
        ensures { result.0 ≡ (page_of self.now).control }
    {
        self.control
    }

    /// The characters of row 0, columns 8 to 31.
    pub fn head(&self) -> &[u8; 24]
        ensures { result.now ≡ (page_of self.now).head }
    {
        &self.head
    }

    /// Rows 1 to 24; index 0 is row 1.
    pub fn rows(&self) -> &[[u8; 40]; 24]
        ensures { result.now ≡ (page_of self.now).rows }
    {
        &self.rows
    }

    /// The links and the two bytes of the page CRC.
    pub fn links(&self) -> &Links
        ensures set { result.now.set ≡ (page_of self.now).links }
        ensures crc { result.now.crc ≡ (page_of self.now).crc }
    {
        &self.links
    }
}
