//! The press of a newsroom.

ghost use Rattle.std.specs.Prelude.{◌≡◌, ◌⊎◌, ◌++◌, ◌∷◌, [], IfOk, IfErr};
ghost use Rattle.ttx_change.specs.LateSpliceLines as change;
ghost use Rattle.ttx_playout.specs.Takeovers.{edition_of};
ghost use Rattle.ttx_press.specs.Editions.{IsSpoilt};
ghost use Rattle.ttx_press.specs.Presses.{IsPressed, IsAmid};
ghost use Rattle.ttx_press.specs.Refusals.{Says};

use crate::changes::left_open;
use crate::house::House;
use crate::printed_edition::printed;
use crate::refusals::refused_line;
use crate::successor::successor;
use std::alloc::Global;
use ttx_air::{Press, PressFault};
use ttx_change::{LateSplice, late_splice_line};
use ttx_playout::Edition;

// The refusal of an edition at whose begin this would be left open.
fn refused_amid(alloc: Global, what: LateSplice) -> PressFault
    ensures { Says (λ words. change.late_splice_line what ≡ words ++ 10 ∷ []) result }
{
    match late_splice_line(alloc, what) {
        Ok(line) => refused_line(line),
        Err(_) => PressFault::NoMemory,
    }
}

// The edition of a text, which is meant to follow the one on the air: as it is planned or, where only a late item is in the way, begun elsewhere.
fn following(
    alloc: Global,
    house: House,
    on_air: &Edition,
    text: &[u8],
) -> Result<Edition, PressFault>
    ensures printed { IfOk result (λ next. IsPressed house (edition_of on_air.now) text.now (edition_of next)) }
    ensures refused { IfErr result (Says (λ words. IsSpoilt house text.now words ⊎ IsAmid house (edition_of on_air.now) text.now words)) }
{
    let planned = printed(alloc, house, text)?;
    match left_open(house.receivers, on_air, &planned) {
        LateSplice::Yes => match successor(alloc, house, on_air, planned) {
            Ok(next) => Ok(next),
            Err(_) => Err(PressFault::NoMemory),
        },
        what => Err(refused_amid(alloc, what)),
    }
}

impl Press for House {
    ghost use Rattle.ttx_press.specs.Presses.{prints};

    ghost makes = { prints };

    fn edition(
        &mut self,
        alloc: Global,
        on_air: &Edition,
        text: &[u8],
    ) -> Result<Edition, PressFault> {
        following(alloc, *self, on_air, text)
    }
}
