//! The results for the pages once the second pass has ended.

ghost use Rattle.std.specs.Prelude.{◌≡◌, Option, None, get_or, slice_get};
ghost use Rattle.ttx_certificate.specs.Certificates.{certificate_of};
ghost use Rattle.ttx_page.specs.Pages as definitions;
ghost use Rattle.ttx_page.specs.Views.{page_of};
ghost use Rattle.ttx_witness.specs.faults.OtherSubpages as tables;

use crate::walks::other_headers::OtherHeaders;
use crate::walks::packed_tracks::unpack_track;
use crate::walks::page_facts::{Facts, late_of};
use crate::walks::progress::finish;
use crate::walks::tracks::{Tracks, repeat_of};
use ttx_certificate::{Certificate, limit};
use ttx_header::PageId;
use ttx_page::Page;
use ttx_witness::first_slots::{least_fault, with_other_subpage};
use ttx_witness::subcodes::place;
use ttx_witness::{Progress, Reason, item_of};

/// What a cycle of `period` slots sends of the pages, with a certificate. `bad` is the first bad slot.
#[derive(Drop)]
pub struct EndedWalk<'a> {
    pub pages: &'a [Page],
    pub certificate: &'a Certificate,
    pub period: u32,
    pub bad: Option<u32>,
    pub(crate) others: OtherHeaders,
    pub(crate) tracks: Tracks,
    pub(crate) facts: Vec<Facts>,
}

// The first header of the page's number with another subcode than the listed one.
fn first_other_header_of(others: &OtherHeaders, page: PageId) -> Option<u32>
    ensures { result ≡ get_or others.now.first.items (tables.place page.mag page.page) None }
{
    others.first[place(page)]
}

// The facts about the page at `index`.
fn facts_at(all: &[Facts], index: usize) -> Option<Facts>
    ensures { result ≡ slice_get all.now index }
{
    all.get(index).copied()
}

impl<'a> EndedWalk<'a> {
    ghost use Rattle.std.specs.Prelude.{◌≡◌, ◌<◌, ℕ, List, Some, length, slice_get};
    ghost use Rattle.ttx_page.specs.Pages as definitions;
    ghost use Rattle.ttx_page.specs.Steady.{HasHeader};
    ghost use Rattle.ttx_page.specs.Streams.{repeated};
    ghost use Rattle.ttx_page.specs.declared.item.Item.{Item};
    ghost use Rattle.ttx_witness.specs.sent.Collected.{IsItem, item_number};
    ghost use Rattle.ttx_witness.specs.faults.Faults.{IsPageFault};
    ghost use Rattle.ttx_certify.specs.walks.ItemProgress.{IsProgress};
    ghost use Rattle.ttx_witness.specs.laws.JudgingLaws.{IsHeaderAnswer};
    ghost use Rattle.ttx_certify.specs.walks.Passing.{IsEnded, ended_pages, ended_certificate};

    /// The first reason why the page at `index` is not sent unchanged.
    pub fn page_fault(&self, index: usize) -> Option<Reason>
        requires { index < length self.now.pages.now }
        ensures { (y : List (List ℕ)) (p : definitions.Page) → IsEnded self.now y → slice_get (ended_pages self.now) index ≡ Some p →
            IsPageFault y (ended_pages self.now) p result }
    {
        ttx_page::laws::pages_keep_their_rules();
        let Some(facts) = facts_at(self.facts.as_slice(), index) else {
            return None;
        };
        let page = self.pages[index].id();
        let other_subpage = first_other_header_of(&self.others, page);
        let first = with_other_subpage(facts.first, other_subpage);
        least_fault(page, first)
    }

    /// The first header of the page at `index` that the next one follows too late.
    pub fn late_header(&self, index: usize) -> Option<u32>
        ensures { (y : List (List ℕ)) (p : definitions.Page) → IsEnded self.now y → slice_get (ended_pages self.now) index ≡ Some p →
            HasHeader (repeated y) p.id →
            IsHeaderAnswer y p (ended_certificate self.now) result }
    {
        ttx_witness::judging_laws::headers_are_judged();
        let Some(facts) = facts_at(self.facts.as_slice(), index) else {
            return None;
        };
        late_of(facts.heads, self.period, limit(self.certificate))
    }

    /// How far `starts` are confirmed. They are the named starts of item `number`, 0 to 25, of the page at `index`. `None` only if there
    /// are no starts.
    pub fn progress(&self, index: usize, number: u8, starts: &[u32]) -> Option<Progress>
        requires number { number < 26 }
        ensures { (y : List (List ℕ)) (p : definitions.Page) (item : Item) → IsEnded self.now y →
            slice_get (ended_pages self.now) index ≡ Some p → IsItem item → item_number item ≡ number →
            starts.now ≡ (ended_certificate self.now).starts p.id item →
            IsProgress y p (ended_certificate self.now) item result }
    {
        ttx_witness::judging_laws::transmissions_are_listed();
        if starts.is_empty() {
            return None;
        }
        let Some(packed) = self.tracks.track(index, number) else {
            return None;
        };
        let item = item_of(number);
        let limit = limit(self.certificate);
        let repeat = repeat_of(self.certificate, &item);
        let mut track = unpack_track(&packed, repeat);
        finish(&mut track, self.period, starts, limit);
        Some(track.progress)
    }
}
