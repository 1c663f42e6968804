//! A receiver that takes no choice.

ghost use Rattle.std.specs.Prelude.{◌≡◌, MatchOption, replicate, false};
ghost use Rattle.ttx_page.specs.Receivers.{Step};
ghost use Rattle.ttx_page.specs.Views.{memory_of};
ghost use Rattle.ttx_page.specs.declared.class.Class.TheVariants.{Any};
ghost use Rattle.ttx_receiver.specs.Tuning.{tuned_at, stepped};

use crate::receiver::Receiver;
use crate::tuned::Tuned;
use std::marker::Model;
use ttx_page::{Class, PageMemory, Selection};

/// A receiver of class any that stores all that it may, never erases by choice, and continues to store where it may end.
#[derive(Drop)]
pub struct Eager {
    tuned: Tuned,
}

impl Model for Eager {
    ghost use Rattle.ttx_receiver.specs.Tuning.{Tuned as TunedValue};

    ghost Value = { TunedValue };

    ghost view = { λ r. r.tuned };
}

impl Eager {
    /// A receiver set to `selection`, with `lines` slots in a field, that holds `memory`.
    pub fn new(selection: Selection, lines: u8, memory: PageMemory) -> Eager
        ensures { result ≡ tuned_at selection lines (memory_of memory) }
    {
        Eager {
            tuned: Tuned::new(selection, lines, memory),
        }
    }
}

impl Receiver for Eager {
    ghost held = { λ r. r.memory };

    ghost tuned = { λ r. r.selection };

    ghost field = { λ r. r.lines };

    ghost kind = { λ r. Any };

    ghost next = { λ r slot. stepped Any false r slot };

    fn selection(&self) -> Selection {
        self.tuned.selection()
    }

    fn lines(&self) -> u8 {
        self.tuned.lines()
    }

    fn class(&self) -> Class {
        Class::Any
    }

    fn memory(&self) -> &PageMemory {
        self.tuned.memory()
    }

    fn step(&mut self, slot: Option<&[u8; 42]>)
        ensures value { MatchOption slot.entry (self.new ≡ stepped Any false self.old (replicate 42 0))
            (λ s. self.new ≡ stepped Any false self.old s.now) }
        ensures step { MatchOption slot.entry
            (Step Any self.old.lines self.old.selection self.old.memory (replicate 42 0) self.new.memory)
            (λ s. Step Any self.old.lines self.old.selection self.old.memory s.now self.new.memory) }
        ensures selection { self.new.selection ≡ self.old.selection }
        ensures lines { self.new.lines ≡ self.old.lines }
        ensures class { Any ≡ Any }
    {
        self.tuned.step(Class::Any, false, slot);
    }
}
