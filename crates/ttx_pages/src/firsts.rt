//! The first header of each page.

ghost use Rattle.std.specs.Prelude.{◌≡◌, ℕ, IfOk, OnOk, map};
ghost use Rattle.std.specs.List.{find};
ghost use Rattle.std.specs.Ordering.{nat_cmp};
ghost use Rattle.std.specs.BTreeMap as tree;
ghost use Rattle.std.specs.Option.{option_or};
ghost use Rattle.ttx_pages.specs.Firsts.{header_by_key, ArePageKeys};
ghost use Rattle.ttx_pages.specs.Keys.{is_header_of, page_headers};

use crate::keys::page_key;
use std::alloc::{AllocError, Global};
use std::collections::BTreeMap;
use ttx_header::read_header;

// Keeps a header, unless one of the same page has been kept.
fn keep_first(firsts: &mut BTreeMap<usize, [u8; 42]>, slot: &[u8; 42]) -> Result<(), AllocError>
    ensures first { OnOk result ((q : ℕ) → tree.get nat_cmp firsts.new q ≡ option_or (tree.get nat_cmp firsts.old q) (header_by_key q slot.now)) }
    ensures pages { OnOk result (ArePageKeys firsts.old → ArePageKeys firsts.new) }
{
    let Some(header) = read_header(slot) else {
        return Ok(());
    };
    let key = page_key(header.id());
    if !firsts.contains_key(&key) {
        firsts.insert(key, *slot)?;
    }
    Ok(())
}

// The first header of each page that has one, by the number of the page.
fn first_headers(alloc: Global, slots: &[[u8; 42]]) -> Result<BTreeMap<usize, [u8; 42]>, AllocError>
    ensures first { IfOk result (λ firsts. (q : ℕ) → tree.get nat_cmp firsts q ≡ find (is_header_of q) slots.now) }
    ensures pages { IfOk result ArePageKeys }
{
    let mut firsts: BTreeMap<usize, [u8; 42]> = BTreeMap::new(alloc);
    for slot in slots {
        keep_first(&mut firsts, slot)?;
    }
    Ok(firsts)
}

// The headers in a map, by rising numbers.
fn headers_of(
    alloc: Global,
    firsts: &BTreeMap<usize, [u8; 42]>,
) -> Result<Vec<[u8; 42]>, AllocError>
    ensures values { IfOk result (λ headers. headers.items ≡ map (λ e. e.1) firsts.now.entries) }
    ensures ordered { tree.IsOrdered nat_cmp firsts.now }
{
    let mut headers = Vec::new(alloc);
    for (_, header) in firsts {
        headers.push(*header)?;
    }
    Ok(headers)
}

/// The first header of each page that has one, by rising page numbers. `Err` if memory runs out.
pub fn page_headers(alloc: Global, slots: &[[u8; 42]]) -> Result<Vec<[u8; 42]>, AllocError>
    ensures { IfOk result (λ headers. headers.items ≡ page_headers slots.now) }
{
    let firsts = first_headers(alloc, slots)?;
    headers_of(alloc, &firsts)
}
