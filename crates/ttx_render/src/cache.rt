//! A copy of a memory, kept with its View.

ghost use Rattle.std.specs.Prelude.{◌≡◌, ◌<◌, ◌↔◌, IsTrue};
ghost use Rattle.ttx_page.specs.Memories.{memory_row};
ghost use Rattle.ttx_page.specs.Receivers.{with_row};
ghost use Rattle.ttx_page.specs.Views.{memory_of};
ghost use Rattle.ttx_render.specs.Touch.{AreSetAlike};
ghost use Rattle.ttx_render.specs.View.{view_of};

use crate::compare::same_links;
use crate::touch::retouch;
use crate::view::{View, render};
use std::marker::Model;
use ttx_page::PageMemory;

/// A copy of a memory, kept with its View. When the memory changes, only the rows that differ are rendered again.
#[derive(Drop)]
pub struct Cache {
    memory: PageMemory,
    view: View,
}

impl Model for Cache {
    ghost use Rattle.std.specs.Prelude.{◌≡◌};
    ghost use Rattle.ttx_page.specs.Memories.{Memory};
    ghost use Rattle.ttx_page.specs.Views.{memory_of};
    ghost use Rattle.ttx_render.specs.View.{view_of};

    ghost Value = { Memory };

    ghost view = { λ c. memory_of c.memory };

    ghost invariant = { λ c. c.view ≡ view_of (memory_of c.memory) };
}

fn same_row(a: &[u8; 40], b: &[u8; 40]) -> bool
    ensures { IsTrue result ↔ (a.now ≡ b.now) }
{
    a == b
}

// Whether two memories have the same control bits and the same links.
fn are_set_alike(a: &PageMemory, b: &PageMemory) -> bool
    ensures { IsTrue result ↔ AreSetAlike (memory_of a.now) (memory_of b.now) }
{
    a.control().0 == b.control().0 && a.show24() == b.show24() && same_links(a.links(), b.links())
}

impl Cache {
    /// Copies a memory and renders its View.
    pub fn new(memory: &PageMemory) -> Cache
        ensures { result ≡ memory_of memory.now }
    {
        Cache {
            memory: *memory,
            view: render(memory),
        }
    }

    /// The View of the copy.
    pub fn view(&self) -> &View
        ensures { result.now ≡ view_of self.now }
    {
        &self.view
    }

    /// Copies one row, 0 to 24, from `memory`. Renders this row and those that its double height changes; nothing if the row is the
    /// same.
    pub fn touch(&mut self, memory: &PageMemory, row: usize)
        requires { row < 25 }
        ensures { self.new ≡ with_row self.old row (memory_row (memory_of memory.now) row) }
    {
        if same_row(&self.memory.rows()[row], &memory.rows()[row]) {
            return;
        }
        let kept = self.memory.with_row(row, &memory.rows()[row]);
        retouch(&self.memory, &kept, row, &mut self.view.cells);
        self.memory = kept;
    }

    /// Replaces the copy by another memory. If control bits and links are the same, only the rows that differ are rendered.
    pub fn touch_all(&mut self, memory: &PageMemory)
        ensures { self.new ≡ memory_of memory.now }
    {
        if are_set_alike(&self.memory, memory) {
            for row in 0..25 {
                self.touch(memory, row);
            }
            self.memory = *memory;
        } else {
            *self = Cache::new(memory);
        }
    }
}
