//! A receiver that surely clears the page.

ghost use Rattle.std.specs.Prelude.{◌≡◌, MatchOption, replicate, false};
ghost use Rattle.ttx_page.specs.Receivers.{Step};
ghost use Rattle.ttx_page.specs.Views.{memory_of};
ghost use Rattle.ttx_page.specs.declared.class.Class.TheVariants.{Clearing};
ghost use Rattle.ttx_receiver.specs.Tuning.{tuned_at, stepped};

use crate::receiver::Receiver;
use crate::tuned::Tuned;
use std::marker::Model;
use ttx_page::{Class, PageMemory, Selection};

/// A receiver of class clearing: it erases at the first header of its page, and takes no choice.
#[derive(Drop)]
pub struct Cleared {
    tuned: Tuned,
}

impl Model for Cleared {
    ghost use Rattle.ttx_receiver.specs.Tuning.{Tuned as TunedValue};

    ghost Value = { TunedValue };

    ghost view = { λ r. r.tuned };
}

impl Cleared {
    /// A receiver set to `selection`, with `lines` slots in a field, that holds `memory`.
    pub fn new(selection: Selection, lines: u8, memory: PageMemory) -> Cleared
        ensures { result ≡ tuned_at selection lines (memory_of memory) }
    {
        Cleared {
            tuned: Tuned::new(selection, lines, memory),
        }
    }
}

impl Receiver for Cleared {
    ghost held = { λ r. r.memory };

    ghost tuned = { λ r. r.selection };

    ghost field = { λ r. r.lines };

    ghost kind = { λ r. Clearing };

    ghost next = { λ r slot. stepped Clearing false r slot };

    fn selection(&self) -> Selection {
        self.tuned.selection()
    }

    fn lines(&self) -> u8 {
        self.tuned.lines()
    }

    fn class(&self) -> Class {
        Class::Clearing
    }

    fn memory(&self) -> &PageMemory {
        self.tuned.memory()
    }

    fn step(&mut self, slot: Option<&[u8; 42]>)
        ensures value { MatchOption slot.entry (self.new ≡ stepped Clearing false self.old (replicate 42 0))
            (λ s. self.new ≡ stepped Clearing false self.old s.now) }
        ensures step { MatchOption slot.entry
            (Step Clearing self.old.lines self.old.selection self.old.memory (replicate 42 0) self.new.memory)
            (λ s. Step Clearing self.old.lines self.old.selection self.old.memory s.now self.new.memory) }
        ensures selection { self.new.selection ≡ self.old.selection }
        ensures lines { self.new.lines ≡ self.old.lines }
        ensures class { Clearing ≡ Clearing }
    {
        self.tuned.step(Class::Clearing, false, slot);
    }
}
