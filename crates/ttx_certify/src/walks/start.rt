//! Begins a walk. All memory is allocated here.

ghost use Rattle.std.specs.Prelude.{◌≡◌, ◌<◌, ◌≢◌, ◌-◌, IfOk, None, [], map, replicate};
ghost use Rattle.std.specs.List.{AllPairs};
ghost use Rattle.ttx_page.specs.Views.{page_of};
ghost use Rattle.ttx_certificate.specs.Certificates.{certificate_of};
ghost use Rattle.ttx_witness.specs.faults.FirstSlots.{none_yet};

use crate::walks::other_headers::OtherHeaders;
use crate::walks::page_facts::Facts;
use crate::walks::passes::Walk;
use crate::walks::tracks::Tracks;
use std::alloc::Global;
use ttx_certificate::{Certificate, NoMemory};
use ttx_page::Page;
use ttx_witness::first_slots::none_yet;
use ttx_witness::subcodes::subcodes_of;
use ttx_witness::{index_of, none_told};

// Empty facts for `count` pages.
fn no_facts(alloc: Global, count: usize) -> Result<Vec<Facts>, NoMemory>
    ensures { IfOk result (λ all. all.items ≡ replicate count (record { heads = None; first = none_yet })) }
{
    let none = Facts {
        heads: None,
        first: none_yet(),
    };
    match vec![in alloc; none; count] {
        Ok(all) => Ok(all),
        Err(_) => Err(NoMemory),
    }
}

impl<'a> Walk<'a> {
    ghost use Rattle.std.specs.Prelude.{◌≢◌, IfOk, []};
    ghost use Rattle.std.specs.List.{AllPairs};
    ghost use Rattle.ttx_page.specs.Views.{ids_of};
    ghost use Rattle.std.specs.Prelude.{◌≡◌, map};
    ghost use Rattle.ttx_page.specs.Views.{page_of};
    ghost use Rattle.ttx_certificate.specs.Certificates.{certificate_of};
    ghost use Rattle.ttx_certify.specs.walks.Passing.{Starts, walk_pages, walk_certificate};

    /// A walk over the pages, whose ids are distinct, with the certificate. Allocates all memory of the walk. The walk keeps no packet and no
    /// record of each slot, only facts about each page and the track of each item.
    pub fn new(
        alloc: Global,
        pages: &'a [Page],
        certificate: &'a Certificate,
    ) -> Result<Walk<'a>, NoMemory>
        requires distinct { AllPairs (λ a b. a ≢ b) (ids_of pages.now) }
        ensures stands { IfOk result (λ walk. Starts walk []) }
        ensures pages { IfOk result (λ walk. walk_pages walk ≡ map page_of pages.entry.now) }
        ensures certificate { IfOk result (λ walk. walk_certificate walk ≡ certificate_of certificate.entry.now) }
    {
        ttx_page::laws::pages_keep_their_rules();
        let index = index_of(alloc, pages)?;
        let subcodes = subcodes_of(alloc, pages)?;
        let first = none_told(alloc)?;
        let others = OtherHeaders { subcodes, first };
        let tracks = Tracks::new(alloc, pages.len())?;
        let facts = no_facts(alloc, pages.len())?;
        Ok(Walk {
            pages,
            certificate,
            index,
            others,
            tracks,
            facts,
            owners: [None; 8],
            count: 0,
        })
    }
}
