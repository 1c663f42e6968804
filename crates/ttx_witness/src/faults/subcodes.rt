//! The subcodes of the listed pages of each number.

ghost use Rattle.std.specs.Prelude.{◌≡◌, ◌<◌, ◌≤◌, ◌&&◌, ◌==◌, ℕ, IfOk, get_or, if◌then◌else◌, length, map, replicate};
ghost use Rattle.ttx_page.specs.Views.{page_of};
ghost use Rattle.ttx_witness.specs.faults.OtherSubpages.{place, with_subcode, is_other, AreAllSubcodes};
ghost use Rattle.ttx_witness.specs.declared.faults.subcodes.Subcodes.TheVariants.{Unlisted};

use std::alloc::Global;
use ttx_certificate::NoMemory;
use ttx_header::PageId;
use ttx_page::Page;

/// How many page numbers there are: eight magazines times 256.
pub const NUMBERS: usize = 2048;

/// The subcodes of the listed pages of a number: none, one, or several.
#[derive(Clone, Copy)]
pub enum Subcodes {
    Unlisted,
    One(u16),
    Several,
}

/// The index of a page number in a table of all page numbers, 0 to 2047.
pub fn place(page: PageId) -> usize
    ensures value { result ≡ place page.mag page.page }
    ensures range { result < 2048 }
{
    256 * (usize::from(page.mag()) - 1) + usize::from(page.page())
}

// The subcodes of a number after a page with subcode `sub` is added.
fn with_subcode(subcodes: Subcodes, sub: u16) -> Subcodes
    ensures { result ≡ with_subcode subcodes sub }
{
    match subcodes {
        Subcodes::Unlisted => Subcodes::One(sub),
        Subcodes::One(own) => {
            if own == sub {
                Subcodes::One(own)
            } else {
                Subcodes::Several
            }
        }
        Subcodes::Several => Subcodes::Several,
    }
}

/// Whether the number has one listed subcode, and `sub` is another.
pub fn is_other(subcodes: Subcodes, sub: u16) -> bool
    ensures { result ≡ is_other subcodes sub }
{
    match subcodes {
        Subcodes::Unlisted => false,
        Subcodes::One(own) => own != sub,
        Subcodes::Several => false,
    }
}

// Adds a page to the table.
fn note_page(table: &mut Vec<Subcodes>, page: PageId)
    requires { length table.old.items ≡ 2048 }
    ensures size { length table.new.items ≡ 2048 }
    ensures noted { (mag number : ℕ) → 1 ≤ mag → mag ≤ 8 → number < 256 →
        get_or table.new.items (place mag number) Unlisted
        ≡ (if (mag == page.mag) && (number == page.page) then with_subcode (get_or table.old.items (place mag number) Unlisted) page.sub
        else get_or table.old.items (place mag number) Unlisted) }
{
    let at = place(page);
    table[at] = with_subcode(table[at], page.sub());
}

// The table before any page is added.
fn unlisted(alloc: Global) -> Result<Vec<Subcodes>, NoMemory>
    ensures { IfOk result (λ table. table.items ≡ replicate 2048 Unlisted) }
{
    match vec![in alloc; Subcodes::Unlisted; NUMBERS] {
        Ok(table) => Ok(table),
        Err(_) => Err(NoMemory),
    }
}

/// The subcodes of the listed pages, for each page number. `Err` if memory runs out.
pub fn subcodes_of(alloc: Global, pages: &[Page]) -> Result<Vec<Subcodes>, NoMemory>
    ensures size { IfOk result (λ table. length table.items ≡ 2048) }
    ensures subcodes { IfOk result (λ table. AreAllSubcodes (map page_of pages.now) (length pages.now) table.items) }
{
    let mut table = unlisted(alloc)?;
    for i in 0..pages.len() {
        note_page(&mut table, pages[i].id());
    }
    Ok(table)
}
