//! The data shared by all searches for starts and deadlines.

ghost use Rattle.std.specs.Prelude.{◌≡◌, ◌≢◌, ◌≤◌, ◌<◌, Some, length, map, slice_get};
ghost use Rattle.std.specs.List.{AllPairs};
ghost use Rattle.ttx_cycle.specs.Cycles.{slots_of};
ghost use Rattle.ttx_page.specs.Views.{page_of, ids_of};
ghost use Rattle.ttx_witness.specs.sent.AllSent.{AreAllSent};

use crate::faults::other_subpages::OtherSubpages;
use crate::faults::page_faults::fault_of;
use crate::faults::reason::Reason;
use crate::sent::collected::Collected;
use ttx_cycle::Cycle;
use ttx_page::{Class, Page};

/// A cycle, a list of pages with all transmissions of their items, and the numbers of the certificates that are searched: class,
/// repeat (1 to 8) and lines (1 to 32).
#[derive(Drop)]
pub struct Survey<'a> {
    pub cycle: &'a Cycle,
    pub pages: &'a [Page],
    pub class: Class,
    pub repeat: u8,
    pub lines: u8,
    pub collected: Collected,
    ghost some_repeats: { 1 ≤ repeat },
    ghost few_repeats: { repeat ≤ 8 },
    ghost some_lines: { 1 ≤ lines },
    ghost few_lines: { lines ≤ 32 },
    ghost distinct: { AllPairs (λ a b. a ≢ b) (ids_of pages.now) },
    ghost sent: { AreAllSent (slots_of cycle.now) (map page_of pages.now) lines collected },
}

/// One page of a survey, and its index among the pages.
#[derive(Clone, Copy)]
pub struct SurveyedPage<'a> {
    pub survey: &'a Survey<'a>,
    pub page: &'a Page,
    pub index: usize,
    ghost at: { slice_get (map page_of survey.now.pages.now) index ≡ Some (page_of page.now) },
}

/// The page at `index`.
pub fn surveyed_at<'a>(survey: &'a Survey<'a>, index: usize) -> SurveyedPage<'a>
    requires { index < length survey.now.pages.now }
    ensures survey { result.survey.now ≡ survey.now }
    ensures index { result.index ≡ index }
{
    let page = &survey.pages[index];
    SurveyedPage {
        survey,
        page,
        index,
    }
}

impl<'a> SurveyedPage<'a> {
    ghost use Rattle.ttx_witness.specs.search.Surveys.{surveyed_page, AreOthersIn, IsFaultIn};

    /// The first reason why the page is not sent unchanged.
    pub fn fault(&self, others: &OtherSubpages) -> Option<Reason>
        ensures { AreOthersIn self.now.survey.now others.now → IsFaultIn self.now.survey.now (surveyed_page self.now) result }
    {
        let survey = self.survey;
        let other_subpage = others.first(self.page.id());
        fault_of(
            survey.cycle,
            self.page,
            &survey.collected,
            self.index,
            other_subpage,
        )
    }
}
