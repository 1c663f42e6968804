//! The house of an air, and its first edition.

ghost use Rattle.std.specs.Prelude.{◌≡◌, ◌≤◌, true, IfOk, IfErr};
ghost use Rattle.ttx_air.specs.Newsrooms.{candidate_of};
ghost use Rattle.ttx_certificate.specs.Certificates.{fields_of, certificate_of};
ghost use Rattle.ttx_certify.specs.declared.verdict.Verdict.TheVariants.{Yes};
ghost use Rattle.ttx_cycle.specs.Cycles.{slots_of};
ghost use Rattle.ttx_deadline.specs.Deadlines.{IsFoundWith};
ghost use Rattle.ttx_plan.specs.Following.{AreFollowed};
ghost use Rattle.ttx_page.specs.declared.class.Class.TheVariants.{Any};
ghost use Rattle.ttx_source.specs.Services.{pages_of};
ghost use Rattle.ttx_witness.specs.search.Finding.{IsEnough, IsFoundFor};
ghost use Rattle.ttx_press.specs.Houses as terms;
ghost use Rattle.ttx_press.specs.Refusals.{Says};
ghost use Rattle.ttx_press.specs.Openings.{IsFit, IsMisfit, IsOpening, IsNoOpening};

use crate::certificates::refused_slow;
use crate::demand::Demand;
use crate::house::House;
use crate::planned_service::{PlannedService, planned};
use crate::script::read;
use crate::shared_time::{draft, gap_in_fields, shared};
use crate::terms::asked_of;
use std::alloc::Global;
use ttx_air::{Candidate, PressFault, text_mark};
use ttx_certify::{Verdict, find_service};
use ttx_deadline::with_found;
use ttx_page::Class;
use ttx_playout::Edition;
use ttx_witness::{Certificate, Found, NoMemory};

/// The house of an air, and the edition of its first text.
#[derive(Drop)]
pub struct Opening {
    pub house: House,
    pub first: Candidate,
}

// A house, and the certificate of the first edition.
#[derive(Drop)]
struct Fit {
    house: House,
    certificate: Certificate,
}

// The certificate that was found, with the deadline of the house.
fn certificate_for(
    alloc: Global,
    house: House,
    planned: &PlannedService,
    found: &Found,
) -> Result<Certificate, NoMemory>
    requires found { IsFoundFor (slots_of planned.now.cycle) (pages_of planned.now.service) house.repeat planned.now.service.lines Any
        (certificate_of found.now.certificate) found.now.deadline }
    requires enough { IsEnough found.now.deadline house.deadline }
    ensures { IfOk result (λ w. IsFoundWith (slots_of planned.now.cycle) (pages_of planned.now.service) planned.now.service.lines
        (terms.asked_of house) (fields_of w) Yes) }
{
    let asked = asked_of(house);
    let with = with_found(alloc, &planned.cycle, &planned.service, found, asked)?;
    match with.verdict {
        Verdict::Yes => Ok(with.certificate),
        Verdict::No(_) => unreachable!(),
    }
}

// The least certificate of a plan.
fn least(alloc: Global, repeat: u8, planned: &PlannedService) -> Result<Found, NoMemory>
    requires some { 1 ≤ repeat }
    requires few { repeat ≤ 8 }
    ensures found { IfOk result (λ found. IsFoundFor (slots_of planned.now.cycle) (pages_of planned.now.service) repeat planned.now.service.lines Any
        (certificate_of found.certificate) found.deadline) }
{
    find_service(alloc, &planned.cycle, &planned.service, repeat, Class::Any)
}

// The house that a plan fits, with its certificate.
fn fitted(alloc: Global, demand: Demand, planned: &PlannedService) -> Result<Fit, PressFault>
    requires { demand.late ≡ true → AreFollowed (slots_of planned.now.cycle) (pages_of planned.now.service) }
    ensures fit { IfOk result (λ fit. IsFit demand (slots_of planned.now.cycle) planned.now.service fit.house (fields_of fit.certificate)) }
    ensures refused { IfErr result (Says (IsMisfit demand (slots_of planned.now.cycle) planned.now.service)) }
{
    ttx_witness::certificate_laws::certificates_keep_their_rules();
    let Ok(found) = least(alloc, demand.repeat, planned) else {
        return Err(PressFault::NoMemory);
    };
    let gap = gap_in_fields(demand.late, planned);
    let Some(house) = shared(demand, planned.service.lines(), found.deadline, gap) else {
        let limit = (demand.within as usize).saturating_sub(gap) as u32;
        return Err(refused_slow(alloc, demand.repeat, limit, planned));
    };
    match certificate_for(alloc, house, planned, &found) {
        Ok(certificate) => Ok(Fit { house, certificate }),
        Err(_) => Err(PressFault::NoMemory),
    }
}

/// The house of an air, and the edition of its first text, with its mark: the text is read with its promises and planned, and `within` is
/// shared between the deadline and the gap as this edition needs them. It is refused, in this order: if `check` refuses it; if it has no plan; if
/// viewers wait longer than that for some page.
pub fn opened(alloc: Global, demand: Demand, text: &[u8]) -> Result<Opening, PressFault>
    ensures opening { IfOk result (λ o. IsOpening demand text.now o.house (candidate_of o.first)) }
    ensures refused { IfErr result (Says (IsNoOpening demand text.now)) }
{
    let script = read(alloc, text)?;
    let planned = planned(alloc, draft(demand), script)?;
    let Fit { house, certificate } = fitted(alloc, demand, &planned)?;
    let PlannedService { cycle, service } = planned;
    let edition = Edition {
        cycle,
        service,
        certificate,
    };
    match text_mark(alloc, text) {
        Ok(mark) => Ok(Opening {
            house,
            first: Candidate { edition, mark },
        }),
        Err(_) => Err(PressFault::NoMemory),
    }
}
