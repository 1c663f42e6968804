//! The claim that a counter-run refutes, and what the search computes from it once.

ghost use Rattle.std.specs.Prelude.{◌≡◌, ◌<◌, ◌^◌, Some, length, map, slice_get};
ghost use Rattle.ttx_cycle.specs.Cycles.{slots_of};
ghost use Rattle.ttx_page.specs.Views.{page_of};
ghost use Rattle.ttx_counter.specs.Magazines.{magazine_of};

use ttx_page::Page;
use ttx_witness::{Certificate, OtherSubpages, PageFault, Reason, Survey};

/// The claim that the pages of the survey are seen in its cycle by the deadline of the certificate, with its lines and repeat count.
/// Also what the search computes from it once: the starts of all sure runs of what viewers see, the headers of other subpages, the
/// first fault of each page, the magazine that each slot of the cycle concerns, and whether each slot is clean.
#[derive(Clone, Copy)]
pub struct Claim<'a> {
    pub survey: &'a Survey<'a>,
    pub certificate: &'a Certificate,
    pub found: &'a Certificate,
    pub others: &'a OtherSubpages,
    pub faults: &'a [PageFault],
    pub magazines: &'a [u8],
    pub clean: bool,
    ghost few: { length survey.now.pages.now < 2 ^ 32 },
    ghost judged: { length faults.now ≡ length survey.now.pages.now },
    ghost sorted: { magazines.now ≡ map magazine_of (slots_of survey.now.cycle.now) },
}

/// A page of a claim, and its place in the list.
#[derive(Clone, Copy)]
pub struct ClaimedPage<'a> {
    pub claim: &'a Claim<'a>,
    pub page: &'a Page,
    pub index: u32,
    ghost at: { slice_get (map page_of claim.now.survey.now.pages.now) index ≡ Some (page_of page.now) },
}

/// The page at an index of the list.
pub fn page_at(pages: &[Page], index: u32) -> &Page
    requires { index < length pages.now }
    ensures { slice_get (map page_of pages.now) index ≡ Some (page_of result.now) }
{
    &pages[index as usize]
}

impl<'a> ClaimedPage<'a> {
    ghost use Rattle.std.specs.Prelude.{◌↔◌, IsTrue};
    ghost use Rattle.ttx_counter.specs.Claims.{IsPrepared, IsFaultOf, IsSentSteadily};

    /// The first reason why the page is not sent unchanged.
    pub fn fault(&self) -> Option<Reason>
        requires { IsPrepared self.now.claim.now }
        ensures { IsFaultOf self.now result }
    {
        self.claim.faults[self.index as usize].reason
    }

    /// Whether the cycle sends the page unchanged.
    pub fn is_steady(&self) -> bool
        requires { IsPrepared self.now.claim.now }
        ensures { IsTrue result ↔ IsSentSteadily self.now }
    {
        ttx_witness::fault_laws::steady_has_no_fault();
        self.fault().is_none()
    }
}
