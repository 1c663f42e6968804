//! The indexes of pages in a list, by their ids.

ghost use Rattle.std.specs.Prelude.{◌≡◌, ◌≢◌, ℕ, List, OnOk, IfOk, Some, if◌then◌else◌, ◌==◌, nat_eq};
ghost use Rattle.std.specs.List.{AllPairs};
ghost use Rattle.std.specs.HashMap.{get};
ghost use Rattle.ttx_header.specs.Ids.{Id};
ghost use Rattle.ttx_witness.specs.sent.Collected.{key_of, Finds, IsIndex};
ghost use Rattle.ttx_page.specs.Views.{ids_of};

use std::alloc::Global;
use std::collections::HashMap;
use ttx_certificate::NoMemory;
use ttx_header::PageId;
use ttx_page::Page;

/// The indexes of pages in a list, by their ids as numbers.
#[derive(Drop)]
pub struct PageIndex {
    pub by_key: HashMap<u32, u32>,
}

// The id as one number.
fn key(id: PageId) -> u32
    ensures { result ≡ key_of id }
{
    let mag = id.mag();
    (u32::from(mag) * 256 + u32::from(id.page())) * 16384 + u32::from(id.sub())
}

/// The index of the page with this id, if it is listed.
pub fn place_of(index: &PageIndex, id: PageId) -> Option<u32>
    ensures { (ids : List Id) → IsIndex ids index.now → Finds ids id result }
{
    index.by_key.get(&key(id)).copied()
}

// Stores the index of a page at its key.
fn insert(by_key: &mut HashMap<u32, u32>, key: u32, place: u32) -> Result<(), NoMemory>
    ensures { OnOk result ((q : ℕ) → get nat_eq by_key.new q ≡ (if key == q then Some place else get nat_eq by_key.old q)) }
{
    if by_key.insert(key, place).is_err() {
        return Err(NoMemory);
    }
    Ok(())
}

/// Builds the index of these pages, whose ids are distinct. `Err` if memory runs out.
pub fn index_of(alloc: Global, pages: &[Page]) -> Result<PageIndex, NoMemory>
    requires distinct { AllPairs (λ a b. a ≢ b) (ids_of pages.now) }
    ensures { IfOk result (λ index. IsIndex (ids_of pages.now) index) }
{
    ttx_page::laws::pages_keep_their_rules();
    let count = pages.len() as u32;
    let mut by_key = HashMap::new(alloc);
    for i in 0..count {
        insert(&mut by_key, key(pages[i as usize].id()), i)?;
    }
    Ok(PageIndex { by_key })
}
