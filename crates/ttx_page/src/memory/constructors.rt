//! Makes memories: from fields, blank, or of a page.

ghost use Rattle.std.specs.Prelude.{◌≡◌, ◌↔◌, IsSome, IfSome, ◌++◌, ◌∷◌, replicate, length};
ghost use Rattle.ttx_page.specs.Pages.{IsRow, blank_row};
ghost use Rattle.ttx_page.specs.Memories.{IsMemory, memory_at, blank_memory, memory_of_page};
ghost use Rattle.ttx_page.specs.Views.{page_of, memory_of};

use super::PageMemory;
use crate::codes::are_rows;
use crate::page::Page;
use ttx_header::Control;
use ttx_links::Target;

// A row of spaces.
fn spaces() -> [u8; 40]
    ensures { result ≡ blank_row }
{
    [b' '; 40]
}

// Rows 0 to 24 of spaces.
pub(super) fn blank_rows() -> [[u8; 40]; 25]
    ensures { result ≡ replicate 25 blank_row }
{
    [spaces(); 25]
}

// Row 0: spaces, the characters of columns 8 to 31, spaces.
fn top_row(head: &[u8; 24]) -> [u8; 40]
    ensures { result ≡ replicate 8 32 ++ head.now ++ replicate 8 32 }
{
    let mut row = spaces();
    row[8..32].copy_from_slice(head);
    row
}

// Row 0 above rows 1 to 24.
fn below_top(top: &[u8; 40], lower: &[[u8; 40]; 24]) -> [[u8; 40]; 25]
    ensures { result ≡ top.now ∷ lower.now }
{
    let mut rows = [*top; 25];
    rows[1..].copy_from_slice(lower);
    rows
}

// A copy of the six links.
pub(super) fn same_links(six: &[Option<Target>; 6]) -> [Option<Target>; 6]
    ensures { result ≡ six.now }
{
    let mut copy = [None; 6];
    copy.copy_from_slice(six);
    copy
}

impl PageMemory {
    /// A memory with these fields: rows 0 to 24, control bits, links, whether row 24 is shown, whether it is storing, its age in
    /// slots, and whether it is fresh. `None` if a character is above 127, a control bit above C14 is set, or the age is above 64.
    pub fn new(
        rows: [[u8; 40]; 25],
        control: Control,
        links: [Option<Target>; 6],
        show24: bool,
        storing: bool,
        age: u8,
        fresh: bool,
    ) -> Option<PageMemory>
        ensures some { IsSome result ↔ IsMemory (memory_at rows control.0 (record { six = links; show24 = show24 }) storing age fresh) }
        ensures fields { IfSome result (λ m. memory_of m ≡ memory_at rows control.0 (record { six = links; show24 = show24 }) storing age fresh) }
    {
        if are_rows(&rows) && control.0 < 2048 && age <= 64 {
            Some(PageMemory {
                rows,
                control,
                links,
                show24,
                storing,
                age,
                fresh,
            })
        } else {
            None
        }
    }

    /// A memory that has received nothing: spaces, no control bits, no links, not storing, age 64, fresh.
    pub fn blank() -> PageMemory
        ensures { memory_of result ≡ blank_memory }
    {
        PageMemory {
            rows: blank_rows(),
            control: Control(0),
            links: [None; 6],
            show24: false,
            storing: false,
            age: 64,
            fresh: true,
        }
    }

    /// The memory of a page that was received whole. The clock and columns 0 to 7 of row 0 are spaces; it is not storing, its age
    /// is 64, and it is not fresh.
    pub fn of(page: &Page) -> PageMemory
        ensures { memory_of result ≡ memory_of_page (page_of page.now) }
    {
        let top = top_row(page.head());
        PageMemory {
            rows: below_top(&top, page.rows()),
            control: page.control(),
            links: same_links(page.links().six()),
            show24: page.links().show24(),
            storing: false,
            age: 64,
            fresh: false,
        }
    }
}
