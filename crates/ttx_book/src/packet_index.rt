//! Where the packets of each page are in a cycle.

ghost use Rattle.std.specs.Prelude.{◌≡◌, ◌+◌, ◌<◌, IfOk, get_or, length, replicate, unwrap_or};
ghost use Rattle.std.specs.BTreeMap as tree;
ghost use Rattle.std.specs.Ordering.{nat_cmp};
ghost use Rattle.ttx_book.specs.Placing.{place_from};

use std::alloc::{AllocError, Global};
use std::collections::BTreeMap;
use std::marker::Model;

/// The page of each slot of a cycle, by its number, and where the slots of each page are, so that they are found one after another
/// without looking at other slots.
#[derive(Drop)]
pub(crate) struct Index {
    pages: Vec<usize>,
    first: BTreeMap<usize, usize>,
    next: Vec<usize>,
}

impl Model for Index {
    ghost use Rattle.std.specs.Prelude.{ℕ, List};
    ghost use Rattle.ttx_book.specs.Placing.{IsPlaceIndex};

    ghost Value = { List ℕ };

    ghost view = { λ i. i.pages.items };

    ghost invariant = { λ i. IsPlaceIndex i.pages.items 0 i.first i.next.items };
}

// The first slot of the page, or `end` if there is none.
fn begin_of(first: &BTreeMap<usize, usize>, key: usize, end: usize) -> usize
    ensures { result ≡ unwrap_or (tree.get nat_cmp first.now key) end }
{
    first.get(&key).copied().unwrap_or(end)
}

// `end` for each slot.
fn ends(alloc: Global, end: usize) -> Result<Vec<usize>, AllocError>
    ensures { IfOk result (λ next. next.items ≡ replicate end end) }
{
    vec![in alloc; end; end]
}

/// Notes where the slots of each page are. `Err` if memory runs out.
pub(crate) fn index_of(alloc: Global, pages: Vec<usize>) -> Result<Index, AllocError>
    ensures { IfOk result (λ index. index ≡ pages.items) }
{
    let end = pages.len();
    let mut first: BTreeMap<usize, usize> = BTreeMap::new(alloc);
    let mut next = ends(alloc, end)?;
    let mut at = end;
    while at > 0 {
        at -= 1;
        let page = pages[at];
        next[at] = begin_of(&first, page, end);
        first.insert(page, at)?;
    }
    Ok(Index { pages, first, next })
}

impl Index {
    /// The first slot of the page, or the number of slots if there is none.
    pub(crate) fn first(&self, key: usize) -> usize
        ensures { result ≡ place_from 0 key self.now }
    {
        begin_of(&self.first, key, self.pages.len())
    }

    /// The next slot that belongs to the page of slot `at`, or the number of slots if there is none.
    pub(crate) fn after(&self, at: usize) -> usize
        requires { at < length self.now }
        ensures { result ≡ place_from (at + 1) (get_or self.now at 0) self.now }
    {
        self.next[at]
    }
}
