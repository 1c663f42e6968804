//! The receiver inside each receiver of the program, whatever its choices are.

ghost use Rattle.std.specs.Prelude.{◌≡◌, MatchOption, replicate};
ghost use Rattle.ttx_page.specs.Packets.{packet_of};
ghost use Rattle.ttx_page.specs.Receivers.{Step, after, has_choice, older};
ghost use Rattle.ttx_page.specs.Views.{memory_of};
ghost use Rattle.ttx_page.specs.declared.class.Class.TheVariants.{Any};
ghost use Rattle.ttx_receiver.specs.Tuning.{tuned_at, stepped};

use crate::steps::{EMPTY, chooses, is_passed};
use crate::tuning::Tuning;
use std::marker::Model;
use ttx_page::{Class, PageMemory, Selection};

/// A receiver: its selection, the slots in a field, and its memory.
#[derive(Drop)]
pub(crate) struct Tuned {
    selection: Selection,
    lines: u8,
    memory: PageMemory,
}

impl Model for Tuned {
    ghost use Rattle.ttx_page.specs.Views.{memory_of};
    ghost use Rattle.ttx_receiver.specs.Tuning.{Tuned as TunedValue, tuned_at};

    ghost Value = { TunedValue };

    ghost view = { λ r. tuned_at r.selection r.lines (memory_of r.memory) };
}

impl Tuned {
    pub(crate) fn new(selection: Selection, lines: u8, memory: PageMemory) -> Tuned
        ensures { result ≡ tuned_at selection lines (memory_of memory) }
    {
        Tuned {
            selection,
            lines,
            memory,
        }
    }

    pub(crate) fn selection(&self) -> Selection
        ensures { result ≡ self.now.selection }
    {
        self.selection
    }

    pub(crate) fn lines(&self) -> u8
        ensures { result ≡ self.now.lines }
    {
        self.lines
    }

    pub(crate) fn memory(&self) -> &PageMemory
        ensures { memory_of result.now ≡ self.now.memory }
    {
        &self.memory
    }

    /// One more slot: the age grows.
    pub(crate) fn grow_older(&mut self)
        ensures { self.new ≡ tuned_at self.old.selection self.old.lines (older self.old.memory) }
    {
        self.memory.grow_older();
    }

    /// Whether a receiver of class any has a choice at a slot. The age has already grown.
    pub(crate) fn chooses(&self, slot: &[u8; 42]) -> bool
        ensures { result ≡ has_choice Any self.now.lines self.now.selection self.now.memory (packet_of slot.now) }
    {
        chooses(&self.memory, self.lines, &self.selection, slot)
    }

    /// Takes a slot by the receiver's choice. The age has already grown. Most slots are passed over by their address.
    #[inline(always)]
    pub(crate) fn take(&mut self, class: Class, choice: bool, slot: &[u8; 42])
        ensures { self.new ≡ tuned_at self.old.selection self.old.lines
            (after class self.old.lines self.old.selection choice self.old.memory (packet_of slot.now)) }
    {
        if is_passed(slot, &self.selection, self.memory.storing()) {
            return;
        }
        let tuning = Tuning {
            class,
            lines: self.lines,
            selection: self.selection,
        };
        tuning.take_slot(&mut self.memory, choice, slot);
    }

    /// Takes one slot by the receiver's choice. `None` is an empty slot.
    pub(crate) fn step(&mut self, class: Class, choice: bool, slot: Option<&[u8; 42]>)
        ensures value { MatchOption slot.entry (self.new ≡ stepped class choice self.old (replicate 42 0))
            (λ s. self.new ≡ stepped class choice self.old s.now) }
        ensures step { MatchOption slot.entry
            (Step class self.old.lines self.old.selection self.old.memory (replicate 42 0) self.new.memory)
            (λ s. Step class self.old.lines self.old.selection self.old.memory s.now self.new.memory) }
    {
        self.grow_older();
        match slot {
            Some(bytes) => self.take(class, choice, bytes),
            None => self.take(class, choice, &EMPTY),
        }
    }
}
