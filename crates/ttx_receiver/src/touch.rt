//! What a slot may change of what a receiver shows.

ghost use Rattle.std.specs.Prelude.{◌≡◌, ◌<◌, ◌==◌, ◌&&◌, true, if◌then◌else◌};
ghost use Rattle.ttx_header.specs.Headers.{is_header, id_of};
ghost use Rattle.ttx_page.specs.Packets.{packet_of};
ghost use Rattle.ttx_page.specs.Pages.{matches, selected_mag};
ghost use Rattle.ttx_receiver.specs.Touching.{touch_of, with_touch, IsRowBelow};

use crate::packets::{Packet, packet_in};
use crate::starvation::is_matched;
use crate::steps::magazine_of;
use ttx_page::Selection;

/// What a slot may change of what a receiver shows.
#[derive(Clone, Copy, PartialEq, Eq)]
pub enum Touch {
    /// Nothing.
    Nothing,
    /// This row, 0 to 24.
    Row(u8),
    /// All of it.
    Everything,
}

/// What may have changed since a View was made: rows `begin` to before `end`, or everything.
#[derive(Clone, Copy)]
pub(crate) struct Touched {
    pub(crate) everything: bool,
    pub(crate) begin: usize,
    pub(crate) end: usize,
}

/// Nothing has changed.
pub(crate) const UNTOUCHED: Touched = Touched {
    everything: false,
    begin: 25,
    end: 0,
};

// What a page header may change.
fn if_matched(selection: &Selection, bytes: &[u8; 42]) -> Touch
    requires { is_header bytes.now ≡ true }
    ensures { result ≡ (if matches selection.now (id_of bytes.now) then Touch.Everything else Touch.Nothing) }
{
    if is_matched(selection, bytes) {
        return Touch::Everything;
    }
    Touch::Nothing
}

// What a row or an X/27/0 of magazine `mag` may change.
fn if_stored(selection: &Selection, storing: bool, mag: u8, touch: Touch) -> Touch
    ensures { result ≡ (if (mag == selected_mag selection.now) && storing then touch else Touch.Nothing) }
{
    if mag == magazine_of(selection) && storing {
        touch
    } else {
        Touch::Nothing
    }
}

/// What a slot may change of what a receiver shows. The receiver is set to `selection`, and is storing or not.
pub fn touch_of(selection: &Selection, storing: bool, slot: &[u8; 42]) -> Touch
    ensures value { result ≡ touch_of selection.now storing (packet_of slot.now) }
    ensures row { IsRowBelow 25 result }
{
    match packet_in(slot) {
        Packet::Header(bytes) => if_matched(selection, bytes),
        Packet::Row(at, _) => if_stored(selection, storing, at.mag, Touch::Row(at.number)),
        Packet::Links(at, _) => if_stored(selection, storing, at.mag, Touch::Everything),
        Packet::Nothing => Touch::Nothing,
    }
}

impl Touched {
    /// Adds what a slot may change.
    pub(crate) fn add(&mut self, touch: Touch)
        requires { IsRowBelow 25 touch }
        ensures { self.new ≡ with_touch self.old touch }
    {
        match touch {
            Touch::Nothing => {}
            Touch::Row(number) => {
                let row = usize::from(number);
                self.begin = self.begin.min(row);
                self.end = self.end.max(row + 1);
            }
            Touch::Everything => self.everything = true,
        }
    }
}
