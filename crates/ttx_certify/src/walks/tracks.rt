//! The track of each item of each page while the slots of a period come in.

ghost use Rattle.std.specs.Prelude.{◌≡◌, ◌≤◌, ℕ, IfOk, Some, slice_get};
ghost use Rattle.ttx_certificate.specs.Certificates.{certificate_of};
ghost use Rattle.ttx_page.specs.Streams.{run_length};
ghost use Rattle.ttx_witness.specs.Elements.{HoldsAt};
ghost use Rattle.ttx_certify.specs.declared.walks.packed_track.PackedTrack.{PackedTrack as TrackValue};
ghost use Rattle.ttx_certify.specs.walks.PackedTracks.{IsUntracked, IsTakenFrom};

use crate::walks::packed_track::PackedTrack;
use crate::walks::packed_tracks::{nothing_packed, take_next};
use std::alloc::Global;
use ttx_certificate::{Certificate, NoMemory, limit};
use ttx_page::{Item, Page};
use ttx_witness::one_slot::Sent;
use ttx_witness::{item_of, run_length};

/// The packed tracks of the 26 items of each page, and the place in the certificate where the search for the next named starts begins.
#[derive(Drop)]
pub struct Tracks {
    pub each: Vec<Vec<PackedTrack>>,
    pub near: usize,
}

/// The number of transmissions in a run of the item.
pub fn repeat_of(certificate: &Certificate, item: &Item) -> usize
    ensures some { 1 ≤ result }
    ensures few { result ≤ 8 }
    ensures repeat { result ≡ run_length (certificate_of certificate.now).repeat item.now }
{
    ttx_certificate::certificate_laws::certificates_keep_their_rules();
    run_length(certificate.repeat(), item)
}

// The tracks of the items of a page before the first slot.
fn nothing_of_page(alloc: Global) -> Result<Vec<PackedTrack>, NoMemory>
    ensures { IfOk result (λ page. IsUntracked page.items) }
{
    match vec![in alloc; nothing_packed(); 26] {
        Ok(page) => Ok(page),
        Err(_) => Err(NoMemory),
    }
}

// Takes a transmission of an item of the page.
fn take_of_page(page: &mut Vec<PackedTrack>, sent: Sent, repeat: usize, starts: &[u32], limit: u32)
    requires some { 1 ≤ repeat }
    requires few { repeat ≤ 8 }
    ensures others { (n : ℕ) → (n ≡ sent.number → ⊥) → slice_get page.new.items n ≡ slice_get page.old.items n }
    ensures taken { (old : TrackValue) → slice_get page.old.items sent.number ≡ Some old →
        HoldsAt TrackValue page.new.items sent.number (IsTakenFrom old sent.transmission repeat limit starts.now) }
{
    let number = usize::from(sent.number);
    if number < page.len() {
        take_next(&mut page[number], sent.transmission, repeat, starts, limit);
    }
}

impl Tracks {
    ghost use Rattle.std.specs.Prelude.{◌≡◌, ◌++◌, ℕ, List, IfOk, Some, None, Vec, length, map, slice_get};
    ghost use Rattle.std.specs.List.{All};
    ghost use Rattle.std.specs.declared.alloc.Global.{Global};
    ghost use Rattle.ttx_certificate.specs.Certificates.{certificate_of};
    ghost use Rattle.ttx_page.specs.Pages as definitions;
    ghost use Rattle.ttx_page.specs.Views.{page_of};
    ghost use Rattle.ttx_page.specs.declared.item.Item.{Item};
    ghost use Rattle.ttx_witness.specs.declared.runs.transmissions.Transmission.{Transmission};
    ghost use Rattle.ttx_witness.specs.sent.Collected.{IsItem};
    ghost use Rattle.ttx_witness.specs.sent.OneSlot.{sent_of};
    ghost use Rattle.ttx_certify.specs.declared.walks.packed_track.PackedTrack.{PackedTrack as TrackValue};
    ghost use Rattle.ttx_certify.specs.walks.PackedTracks.{IsUntracked, IsTrackedAt};

    /// The tracks before the first slot, for the items of `pages` pages. Allocates all memory.
    pub fn new(alloc: Global, pages: usize) -> Result<Tracks, NoMemory>
        ensures count { IfOk result (λ tracks. length tracks.each.items ≡ pages) }
        ensures nothing { IfOk result (λ tracks. All (λ page. IsUntracked page.items) tracks.each.items) }
    {
        let Ok(mut each) = Vec::with_capacity(alloc, pages) else {
            return Err(NoMemory);
        };
        for i in 0..pages {
            let page = nothing_of_page(alloc)?;
            let Ok(()) = each.push(page) else {
                return Err(NoMemory);
            };
        }
        Ok(Tracks { each, near: 0 })
    }

    /// Takes what a slot sends.
    pub fn note(&mut self, pages: &[Page], certificate: &Certificate, sent: Option<Sent>)
        ensures { (i : ℕ) (p : definitions.Page) (item : Item) (ts : List Transmission) → slice_get (map page_of pages.now) i ≡ Some p → IsItem item →
            IsTrackedAt (certificate_of certificate.now) p item ts i self.old.each.items →
            IsTrackedAt (certificate_of certificate.now) p item (ts ++ sent_of i item sent) i self.new.each.items }
    {
        ttx_certificate::certificate_laws::certificates_keep_their_rules();
        let Some(sent) = sent else {
            return;
        };
        let index = sent.page as usize;
        if index >= pages.len() {
            return;
        }
        if index >= self.each.len() {
            return;
        }
        if sent.number >= 26 {
            return;
        }
        let item = item_of(sent.number);
        let (near, starts) = certificate.starts_near(pages[index].id(), item, self.near);
        self.near = near;
        let repeat = repeat_of(certificate, &item);
        take_of_page(
            &mut self.each[index],
            sent,
            repeat,
            starts,
            limit(certificate),
        );
    }

    /// The packed track of item `number` of the page at `index`.
    pub fn track(&self, index: usize, number: u8) -> Option<PackedTrack>
        ensures here { (page : Vec TrackValue Global) → slice_get self.now.each.items index ≡ Some page → result ≡ slice_get page.items number }
        ensures none { slice_get self.now.each.items index ≡ None → result ≡ None }
    {
        match self.each.get(index) {
            Some(page) => page.get(usize::from(number)).copied(),
            None => None,
        }
    }
}
