//! The first true reason of an item of a page, from the starts that are named for it.

use ttx_page::{Class, Item, Page, is_blank, needed};
use ttx_witness::{Certificate, Progress, Reason, late_at_end, limit};

/// A page, and what its items are judged by.
#[derive(Clone, Copy)]
pub struct JudgedPage<'a> {
    pub page: &'a Page,
    pub certificate: &'a Certificate,
    /// How many slots the list has.
    pub period: u32,
    /// The first header of the page that the next one follows too late. Computed only for receivers that surely clear.
    pub late_header: Option<u32>,
}

impl<'a> JudgedPage<'a> {
    ghost use Rattle.std.specs.Prelude.{◌≡◌, ◌<◌, ◌↔◌, IsTrue, MatchOption, true, false, ℕ, List, [], Some, length};
    ghost use Rattle.ttx_page.specs.declared.class.Class.TheVariants.{Clearing};
    ghost use Rattle.ttx_page.specs.Pages as definitions;
    ghost use Rattle.ttx_certify.specs.walks.ItemProgress.{IsProgress};
    ghost use Rattle.ttx_certify.specs.ItemReasons.{IsItemReason, IsReady, judged_page, judged_certificate};

    // Whether a receiver holds the item once it has cleared the page.
    fn is_cleared(&self, item: &Item) -> bool
        ensures { IsTrue result ↔ (((judged_certificate self.now).class ≡ Clearing) × (definitions.is_blank (judged_page self.now) item.now ≡ true)) }
    {
        match self.certificate.class() {
            Class::Any => false,
            Class::Clearing => is_blank(self.page, *item),
        }
    }

    // The true reason of an item for which no start is named, if there is one.
    fn unnamed(&self, item: &Item) -> Option<Reason>
        requires needed { definitions.needed (judged_page self.now) item.now ≡ true }
        requires none { (judged_certificate self.now).starts (judged_page self.now).id item.now ≡ [] }
        ensures { (y : List (List ℕ)) → IsReady self.now y → IsItemReason y (judged_page self.now) (judged_certificate self.now) item.now result }
    {
        ttx_page::laws::pages_keep_their_rules();
        ttx_page::laws::pages_have_six_links();
        ttx_page::laws::blank_is_tested();
        let page = self.page.id();
        if !self.is_cleared(item) {
            return Some(Reason::NoWitness { page, item: *item });
        }
        match self.late_header {
            Some(header) => Some(Reason::LateBlank {
                page,
                item: *item,
                header,
            }),
            None => None,
        }
    }

    // The first true reason of an item for which some starts are named. `progress` says how far the list confirms them.
    fn named(&self, item: &Item, starts: &[u32], progress: Progress) -> Option<Reason>
        requires needed { definitions.needed (judged_page self.now) item.now ≡ true }
        requires starts { starts.now ≡ (judged_certificate self.now).starts (judged_page self.now).id item.now }
        requires some { 0 < length starts.now }
        ensures { (y : List (List ℕ)) → IsReady self.now y →
            IsProgress y (judged_page self.now) (judged_certificate self.now) item.now (Some progress) →
            IsItemReason y (judged_page self.now) (judged_certificate self.now) item.now result }
    {
        ttx_witness::certificate_laws::certificates_keep_their_rules();
        ttx_witness::judging_laws::items_are_judged();
        let page = self.page.id();
        let next = progress.next;
        if next < starts.len() {
            let start = starts[next];
            return Some(Reason::WitnessBad {
                page,
                item: *item,
                start,
            });
        }
        if next > starts.len() {
            return None;
        }
        match late_at_end(progress, self.period, starts, limit(self.certificate)) {
            Some(start) => Some(Reason::Late {
                page,
                item: *item,
                start,
            }),
            None => None,
        }
    }

    /// The starts that are named for the item, and the place in the certificate where the search for the next item begins. `near` is that
    /// place for this item; it does not change the starts. `None` if no viewer needs the item.
    pub fn starts(&self, item: &Item, near: usize) -> Option<(usize, &'a [u32])>
        ensures { MatchOption result (definitions.needed (judged_page self.now) item.now ≡ false)
            (λ found. (definitions.needed (judged_page self.now) item.now ≡ true)
            × (found.1.now ≡ (judged_certificate self.now).starts (judged_page self.now).id item.now)) }
    {
        if needed(self.page, *item) {
            Some(self.certificate.starts_near(self.page.id(), *item, near))
        } else {
            None
        }
    }

    /// The first true reason of the item. `starts` are named for it, and `progress` says how far the list confirms them.
    pub fn item_reason(
        &self,
        item: &Item,
        starts: &[u32],
        progress: Option<Progress>,
    ) -> Option<Reason>
        requires needed { definitions.needed (judged_page self.now) item.now ≡ true }
        requires starts { starts.now ≡ (judged_certificate self.now).starts (judged_page self.now).id item.now }
        ensures { (y : List (List ℕ)) → IsReady self.now y → IsProgress y (judged_page self.now) (judged_certificate self.now) item.now progress →
            IsItemReason y (judged_page self.now) (judged_certificate self.now) item.now result }
    {
        if starts.is_empty() {
            return self.unnamed(item);
        }
        let Some(progress) = progress else {
            return None;
        };
        self.named(item, starts, progress)
    }
}
