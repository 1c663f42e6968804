//! What makes editions of texts.

ghost use Rattle.std.specs.Prelude.{ℕ, List};
ghost use Rattle.ttx_playout.specs.Schedules as schedule;
ghost use Rattle.ttx_playout.specs.Takeovers.{edition_of};
ghost use Rattle.ttx_air.specs.TextNewsrooms as rule;
ghost use Rattle.ttx_air.specs.TextNewsrooms.{made_of};

use std::alloc::Global;
use ttx_playout::Edition;

/// Why no edition is made of a text.
#[derive(Drop)]
pub enum PressFault {
    /// It is refused. The words say why, in one line.
    Refused(String),
    /// Memory ran out.
    NoMemory,
}

/// What makes an edition of the text of a service.
///
/// `makes` relates the press before a call, the edition on the air, the text, what was made of it, and the press after the call.
pub trait Press {
    ghost makes: { Self → schedule.Edition → List ℕ → rule.Made → Self → Type 0 };

    /// The edition of a text, which is meant to follow the one on the air.
    fn edition(
        &mut self,
        alloc: Global,
        on_air: &Edition,
        text: &[u8],
    ) -> Result<Edition, PressFault>
        ensures { makes self.old (edition_of on_air.now) text.now (made_of result) self.new };
}
