//! Certifying for viewers who key only page numbers.

ghost use Rattle.std.specs.Prelude.{◌≡◌, IfOk};
ghost use Rattle.ttx_cycle.specs.Cycles.{slots_of};
ghost use Rattle.ttx_source.specs.Services.{pages_of};
ghost use Rattle.ttx_certificate.specs.Certificates.{certificate_of};
ghost use Rattle.ttx_subpages.specs.NumbersVerdicts.{verdict_with, IsNumbersVerdict, MeansNumbers};

use crate::lack::Lack;
use crate::lacks::lack_in;
use crate::verdict::NumbersVerdict;
use std::alloc::Global;
use ttx_cycle::Cycle;
use ttx_late::{LateVerdict, certify_late};
use ttx_source::Service;
use ttx_witness::{Certificate, NoMemory};

// The verdict on a cycle that is accepted also for receivers that show a page late.
fn verdict_with(gap: usize, lack: Option<Lack>) -> NumbersVerdict
    ensures { result ≡ verdict_with gap lack }
{
    match lack {
        Some(lack) => NumbersVerdict::Lacking(lack),
        None => NumbersVerdict::Yes { gap },
    }
}

/// The verdict of `certify_late`, and if that is yes, whether the subpages of each number with several pages are sent whole.
///
/// If this verdict is yes, then for each such number each of its subpages is seen in turn, whole, by viewers who key only the number, and
/// nothing else is: on each receiver that shows a page only where it ends, from any tuning slot, with any former memory, under each
/// reception in which the text of the subpages comes right once a sending, whatever the certificate's repeat count. Each comes again
/// within `greatest_interval` and the gap, and is shown as long as `least_stay` says. Every permitted receiver, one that shows each row as it
/// comes too, shows each of them from where its block is whole to the next header of the number.
pub fn certify_numbers(
    alloc: Global,
    cycle: &Cycle,
    service: &Service,
    certificate: &Certificate,
) -> Result<NumbersVerdict, NoMemory>
    ensures exact { IfOk result (IsNumbersVerdict (slots_of cycle.now) (pages_of service.now) (certificate_of certificate.now)) }
    ensures seen { IfOk result (MeansNumbers (slots_of cycle.now) (pages_of service.now) (certificate_of certificate.now)) }
{
    crate::laws::accepted_are_seen();
    crate::laws::accepted_are_seen_again();
    crate::laws::stays_are_shown();
    crate::laws::accepted_are_held();
    ttx_page::laws::pages_keep_their_rules();
    ttx_witness::certificate_laws::certificates_keep_their_rules();
    let verdict = certify_late(alloc, cycle, service, certificate)?;
    let LateVerdict::Yes { gap } = verdict else {
        return Ok(NumbersVerdict::No(verdict));
    };
    let lack = lack_in(alloc, cycle, service.pages(), certificate.lines())?;
    Ok(verdict_with(gap, lack))
}
