//! A receiver with a View that follows what it holds.

ghost use Rattle.std.specs.Prelude.{◌≡◌, MatchOption, replicate};
ghost use Rattle.std.specs.Borrow.{sem};
ghost use Rattle.std.specs.Io.BufRead.{Rests};
ghost use Rattle.ttx_page.specs.Views.{memory_of};
ghost use Rattle.ttx_render.specs.View.{view_of};
ghost use Rattle.ttx_receiver.specs.Touching.{AreAlikeBut, IsBehind};
ghost use Rattle.ttx_receiver.specs.contracts.watched.Watched.{the_row};

use crate::laws::{idle_steps_touch_nothing, step_touches};
use crate::receiver::Receiver;
use crate::steps::EMPTY;
use crate::touch::{Touched, UNTOUCHED, touch_of};
use std::marker::Model;
use ttx_page::{Class, PageMemory, Selection};
use ttx_render::{Cache, View};

/// A receiver with the View of what it holds. A step notes what its packet may change, and `view` renders only that. The packet
/// is read for this only if the receiver is storing after the step, since otherwise nothing has changed, and if not everything is
/// noted yet.
#[derive(Drop)]
pub struct Watched<R: Receiver> {
    receiver: R,
    cache: Cache,
    touched: Touched,
}

impl<R: Receiver> Model for Watched<R> {
    ghost use Rattle.ttx_receiver.specs.Touching.{IsBehind};

    ghost Value = { R };

    ghost view = { λ w. w.receiver };

    ghost invariant = { λ w. IsBehind w.touched w.cache (R.held w.receiver) };
}

// The bytes of a slot.
fn bytes_of<'a>(slot: Option<&'a [u8; 42]>) -> &'a [u8; 42]
    ensures { MatchOption slot.entry (result.now ≡ replicate 42 0) (λ s. result.now ≡ s.now) }
{
    match slot {
        Some(bytes) => bytes,
        None => &EMPTY,
    }
}

// Updates the copy in `cache` so that it shows what `memory` shows. They differ only in what was noted.
fn follow(cache: &mut Cache, memory: &PageMemory, touched: &Touched)
    requires { IsBehind touched.now cache.old (memory_of memory.now) }
    ensures { AreAlikeBut 0 0 cache.new (memory_of memory.now) }
{
    if touched.everything {
        cache.touch_all(memory);
    } else {
        for row in touched.begin..touched.end {
            cache.touch(memory, row);
        }
    }
}

impl<R: Receiver> Watched<R> {
    /// Watches a receiver: renders the View of what it holds.
    pub fn new(receiver: R) -> Watched<R>
        ensures { result ≡ receiver }
    {
        let cache = Cache::new(receiver.memory());
        Watched {
            receiver,
            cache,
            touched: UNTOUCHED,
        }
    }

    /// The View of what the receiver holds. The receiver itself is unchanged.
    pub fn view(&mut self) -> &View
        ensures value { result.now ≡ view_of (R.held self.old) }
        ensures* after_borrow { sem 𝓛 (Rests (the_row R.row R.Receiver) self.entry (λ new. new ≡ self.old)) }
    {
        ttx_render::laws::contents_decide();
        follow(&mut self.cache, self.receiver.memory(), &self.touched);
        self.touched = UNTOUCHED;
        self.cache.view()
    }
}

impl<R: Receiver> Receiver for Watched<R> {
    ghost held = { λ w. R.held w };

    ghost tuned = { λ w. R.tuned w };

    ghost field = { λ w. R.field w };

    ghost kind = { λ w. R.kind w };

    ghost next = { λ w slot. R.next w slot };

    fn selection(&self) -> Selection {
        self.receiver.selection()
    }

    fn lines(&self) -> u8 {
        self.receiver.lines()
    }

    fn class(&self) -> Class {
        self.receiver.class()
    }

    fn memory(&self) -> &PageMemory {
        self.receiver.memory()
    }

    fn step(&mut self, slot: Option<&[u8; 42]>) {
        step_touches();
        idle_steps_touch_nothing();
        if self.touched.everything {
            self.receiver.step(slot);
            return;
        }
        let bytes = bytes_of(slot);
        let storing = self.receiver.memory().storing();
        self.receiver.step(slot);
        if self.receiver.memory().storing() {
            let touch = touch_of(&self.receiver.selection(), storing, bytes);
            self.touched.add(touch);
        }
    }
}
