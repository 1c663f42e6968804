//! The edition of a text.

ghost use Rattle.std.specs.Prelude.{◌≡◌, IfOk, IfErr};
ghost use Rattle.ttx_certificate.specs.Certificates.{certificate_of};
ghost use Rattle.ttx_playout.specs.Takeovers.{edition_of};
ghost use Rattle.ttx_press.specs.Refusals.{Says};
ghost use Rattle.ttx_press.specs.Editions.{IsPrinted, IsSpoilt};

use crate::certificates::certified;
use crate::house::House;
use crate::planned_service::{PlannedService, planned};
use crate::script::read;
use std::alloc::Global;
use ttx_air::PressFault;
use ttx_playout::Edition;

/// The edition of a text: the text is read with its promises, planned, and certified for receivers of class any with the deadline of the
/// house. It is refused, in this order: if `check` refuses it; if it has no plan; if for some page a viewer waits longer than the deadline.
pub fn printed(alloc: Global, house: House, text: &[u8]) -> Result<Edition, PressFault>
    ensures printed { IfOk result (λ edition. IsPrinted house text.now (edition_of edition)) }
    ensures lines { IfOk result (λ edition. (certificate_of edition.certificate).lines ≡ edition.service.lines) }
    ensures refused { IfErr result (Says (IsSpoilt house text.now)) }
{
    let script = read(alloc, text)?;
    let planned = planned(alloc, house, script)?;
    let certificate = certified(alloc, house, &planned)?;
    let PlannedService { cycle, service } = planned;
    Ok(Edition {
        cycle,
        service,
        certificate,
    })
}
