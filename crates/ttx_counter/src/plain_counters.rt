//! Counter-runs of one page from plain runs.

ghost use Rattle.std.specs.Prelude.{◌≡◌};
ghost use Rattle.ttx_page.specs.Views.{memory_of};
ghost use Rattle.ttx_certificate.specs.Certificates.{certificate_of};
ghost use Rattle.ttx_counter.specs.Claims.{IsPrepared, TellsRun};
ghost use Rattle.ttx_counter.specs.Counters.{counter_run_of};
ghost use Rattle.ttx_counter.specs.Sources.{plain_counter};

use crate::checks::selection_for;
use crate::claim::ClaimedPage;
use crate::counter::Counter;
use crate::magazines::Sorted;
use crate::plain::plain_run;
use crate::starvation_start::limit;
use std::alloc::Global;
use ttx_page::PageMemory;
use ttx_witness::Certificate;

/// A run from slot 0 on without hits and choices: the place of its page in the list, whether any subpage is taken, the receiver's
/// former memory, and the number of slots.
#[derive(Clone, Copy)]
pub struct PlainRun {
    pub page: u32,
    pub any_sub: bool,
    pub former: PageMemory,
    pub slots: u32,
}

/// A plain run as a counter-run, with the numbers of the certificate.
pub fn plain_counter(alloc: Global, run: PlainRun, certificate: &Certificate) -> Counter
    ensures { counter_run_of result ≡ plain_counter run.page run.any_sub (memory_of run.former)
        (certificate_of certificate.now).lines (certificate_of certificate.now).repeat (certificate_of certificate.now).deadline run.slots }
{
    Counter {
        page: run.page,
        any_sub: run.any_sub,
        start: 0,
        slots: run.slots,
        former: run.former,
        choices: Vec::new(alloc),
        hits: Vec::new(alloc),
        lines: certificate.lines(),
        repeat: certificate.repeat(),
        deadline: certificate.deadline(),
    }
}

/// A counter-run of the page, with this selection, if a plain run from the page's own memory ends wrong. A page that is sent unchanged
/// has none, so it is not run.
pub fn refute_plainly(alloc: Global, page: &ClaimedPage<'_>, any_sub: bool) -> Option<Counter>
    requires { IsPrepared page.now.claim.now }
    ensures { TellsRun page.now any_sub result }
{
    crate::laws::plain_runs_are_counter_runs();
    crate::laws::steady_pages_stay();
    ttx_page::laws::pages_keep_their_rules();
    ttx_page::laws::memories_keep_their_rules();
    ttx_witness::certificate_laws::certificates_keep_their_rules();
    let (claim, own) = (page.claim, page.page);
    let (survey, former) = (claim.survey, PageMemory::of(own));
    if page.is_steady() {
        return None;
    }
    let selection = selection_for(any_sub, own.id());
    if !selection.fits(survey.pages, page.index as usize) {
        return None;
    }
    let sorted = Sorted {
        cycle: survey.cycle,
        magazines: claim.magazines,
    };
    let low = limit(claim.certificate);
    let slots = plain_run(&sorted, own, selection, claim.certificate.lines(), low)?;
    let run = PlainRun {
        page: page.index,
        any_sub,
        former,
        slots,
    };
    Some(plain_counter(alloc, run, claim.certificate))
}
