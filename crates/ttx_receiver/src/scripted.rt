//! A receiver that takes its choices from a script.

ghost use Rattle.std.specs.Prelude.{◌≡◌, MatchOption, replicate};
ghost use Rattle.ttx_page.specs.Receivers.{Step, next_choice, later_choices};
ghost use Rattle.ttx_page.specs.Views.{memory_of};
ghost use Rattle.ttx_page.specs.declared.class.Class.TheVariants.{Any};
ghost use Rattle.ttx_receiver.specs.Tuning.{tuned_at, script_at, script_step};

use crate::receiver::Receiver;
use crate::steps::EMPTY;
use crate::tuned::Tuned;
use std::marker::Model;
use ttx_page::{Class, PageMemory, Selection};

/// A receiver of class any that takes one bit of a script at each slot where it has a choice. True takes the choice; after the
/// end of the script no choice is taken.
#[derive(Drop)]
pub struct Scripted<'a> {
    tuned: Tuned,
    choices: &'a [bool],
}

impl<'a> Model for Scripted<'a> {
    ghost use Rattle.ttx_receiver.specs.Tuning.{Script, script_at};

    ghost Value = { Script };

    ghost view = { λ r. script_at r.tuned r.choices.now };
}

// The next choice of a script, if there is one to make.
fn next_of(choices: &[bool], has: bool) -> bool
    ensures { result ≡ next_choice has choices.now }
{
    match choices {
        [first, ..] => has && *first,
        [] => false,
    }
}

// The choices that are left of a script.
fn later_of<'a>(choices: &'a [bool], has: bool) -> &'a [bool]
    ensures { result.now ≡ later_choices has choices.now }
{
    match choices {
        [_, rest @ ..] => { if has { rest } else { choices } }
        [] => choices,
    }
}

impl<'a> Scripted<'a> {
    /// A receiver set to `selection`, with `lines` slots in a field, that holds `memory` and takes its choices from the script
    /// `choices`.
    pub fn new(
        selection: Selection,
        lines: u8,
        memory: PageMemory,
        choices: &'a [bool],
    ) -> Scripted<'a>
        ensures { result ≡ script_at (tuned_at selection lines (memory_of memory)) choices.now }
    {
        Scripted {
            tuned: Tuned::new(selection, lines, memory),
            choices,
        }
    }

    // Takes one slot.
    fn take(&mut self, bytes: &[u8; 42])
        ensures { self.new ≡ script_step self.old bytes.now }
    {
        self.tuned.grow_older();
        let has = self.tuned.chooses(bytes);
        let choice = next_of(self.choices, has);
        self.choices = later_of(self.choices, has);
        self.tuned.take(Class::Any, choice, bytes);
    }
}

impl<'a> Receiver for Scripted<'a> {
    ghost held = { λ r. r.tuned.memory };

    ghost tuned = { λ r. r.tuned.selection };

    ghost field = { λ r. r.tuned.lines };

    ghost kind = { λ r. Any };

    ghost next = { λ r slot. script_step r slot };

    fn selection(&self) -> Selection {
        self.tuned.selection()
    }

    fn lines(&self) -> u8 {
        self.tuned.lines()
    }

    fn class(&self) -> Class {
        Class::Any
    }

    fn memory(&self) -> &PageMemory {
        self.tuned.memory()
    }

    fn step(&mut self, slot: Option<&[u8; 42]>)
        ensures value { MatchOption slot.entry (self.new ≡ script_step self.old (replicate 42 0))
            (λ s. self.new ≡ script_step self.old s.now) }
        ensures step { MatchOption slot.entry
            (Step Any self.old.tuned.lines self.old.tuned.selection self.old.tuned.memory (replicate 42 0) self.new.tuned.memory)
            (λ s. Step Any self.old.tuned.lines self.old.tuned.selection self.old.tuned.memory s.now self.new.tuned.memory) }
        ensures selection { self.new.tuned.selection ≡ self.old.tuned.selection }
        ensures lines { self.new.tuned.lines ≡ self.old.tuned.lines }
        ensures class { Any ≡ Any }
    {
        match slot {
            Some(bytes) => self.take(bytes),
            None => self.take(&EMPTY),
        }
    }
}
