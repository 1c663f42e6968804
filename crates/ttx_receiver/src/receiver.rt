//! The trait of receivers, and their law.

ghost use Rattle.std.specs.Prelude.{◌≡◌, ℕ, List, MatchOption, replicate};
ghost use Rattle.ttx_page.specs.Memories.{Memory};
ghost use Rattle.ttx_page.specs.Receivers.{Step};
ghost use Rattle.ttx_page.specs.Views.{memory_of};
ghost use Rattle.ttx_page.specs.declared.class.Class.{Class as ClassValue};
ghost use Rattle.ttx_page.specs.declared.selection.Selection.{Selection as SelectionValue};

use ttx_page::{Class, PageMemory, Selection};

/// A receiver of one page. Each step is one that a receiver of its class may make for its selection and lines, and leaves
/// these unchanged. `next` is the receiver after a slot.
pub trait Receiver {
    ghost held: { Self → Memory };

    ghost tuned: { Self → SelectionValue };

    ghost field: { Self → ℕ };

    ghost kind: { Self → ClassValue };

    ghost next: { Self → List ℕ → Self };

    /// The page or subpage that the receiver is set to.
    fn selection(&self) -> Selection
        ensures { result ≡ tuned self.now };

    /// The slots in a field. A row or X/27/0 may be missed up to this many slots after its header.
    fn lines(&self) -> u8
        ensures { result ≡ field self.now };

    /// The class of the receiver: whether it surely clears the page when it is set to it.
    fn class(&self) -> Class
        ensures { result ≡ kind self.now };

    /// The memory of the receiver.
    fn memory(&self) -> &PageMemory
        ensures { memory_of result.now ≡ held self.now };

    /// Takes one slot of 42 bytes. `None` is an empty slot.
    fn step(&mut self, slot: Option<&[u8; 42]>)
        ensures value { MatchOption slot.entry (self.new ≡ next self.old (replicate 42 0)) (λ s. self.new ≡ next self.old s.now) }
        ensures step { MatchOption slot.entry
            (Step (kind self.old) (field self.old) (tuned self.old) (held self.old) (replicate 42 0) (held self.new))
            (λ s. Step (kind self.old) (field self.old) (tuned self.old) (held self.old) s.now (held self.new)) }
        ensures selection { tuned self.new ≡ tuned self.old }
        ensures lines { field self.new ≡ field self.old }
        ensures class { kind self.new ≡ kind self.old };
}
