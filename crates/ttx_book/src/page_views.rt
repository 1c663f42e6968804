//! The pages of a cycle, as a receiver shows them.

ghost use Rattle.std.specs.Prelude.{◌≡◌, IfOk, filter_map, length};
ghost use Rattle.ttx_book.specs.Hearing.{hears, page_memory, leaf_id};
ghost use Rattle.ttx_render.specs.View.{view_of};

use crate::packet_index::Index;
use std::alloc::{AllocError, Global};
use ttx_header::{PageId, read_header};
use ttx_page::{PageMemory, Selection};
use ttx_pages::keys::page_key;
use ttx_receiver::{Eager, Receiver};
use ttx_render::{View, render};

// Gives the receiver the packets of its page.
fn hear(receiver: &mut Eager, slots: &[[u8; 42]], pages: &Index, key: usize)
    requires { length pages.now ≡ length slots.now }
    ensures { receiver.new ≡ hears key receiver.old slots.now pages.now }
{
    let mut at = pages.first(key);
    while at < slots.len() {
        receiver.step(Some(&slots[at]));
        at = pages.after(at);
    }
}

/// What is shown of a page after two rounds of the cycle, given the page of each slot.
#[tactic(auto, unfolding(crate::specs::Hearing::page_memory))]
pub(crate) fn page_view(slots: &[[u8; 42]], pages: &Index, id: PageId) -> View
    requires { length pages.now ≡ length slots.now }
    ensures { result ≡ view_of (page_memory slots.now pages.now id) }
{
    let key = page_key(id);
    let mut receiver = Eager::new(Selection::Exact(id), 1, PageMemory::blank());
    hear(&mut receiver, slots, pages, key);
    hear(&mut receiver, slots, pages, key);
    render(receiver.memory())
}

/// The page of a header; `None` for a time-filling header.
pub(crate) fn leaf_id(slot: &[u8; 42]) -> Option<PageId>
    ensures { result ≡ leaf_id slot.now }
{
    let header = read_header(slot)?;
    let id = header.id();
    if id.page() == 255 && id.sub() == 16255 {
        None
    } else {
        Some(id)
    }
}

/// The pages of these headers.
pub(crate) fn leaf_ids(alloc: Global, headers: &[[u8; 42]]) -> Result<Vec<PageId>, AllocError>
    ensures { IfOk result (λ ids. ids.items ≡ filter_map leaf_id headers.now) }
{
    let mut ids = Vec::new(alloc);
    for header in headers {
        if let Some(id) = leaf_id(header) {
            ids.push(id)?;
        }
    }
    Ok(ids)
}
