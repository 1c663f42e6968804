//! Gathers what a cycle sends.

ghost use Rattle.std.specs.Prelude.{◌≡◌, ℕ, IfOk, IfErr, MatchOption, map, option_map};
ghost use Rattle.ttx_cycle.specs.Cycles.{slots_of};
ghost use Rattle.ttx_page.specs.Views.{page_of, ids_of};
ghost use Rattle.ttx_witness.specs.sent.AllSent.{AreAllSent};
ghost use Rattle.ttx_extract.specs.Drafts.{authored_of, draft_of, said_page, sent_draft};
ghost use Rattle.ttx_extract.specs.FirstPackets.{first_info};
ghost use Rattle.ttx_extract.specs.Gathering.{AreSentOf, IsGatherFault, IsOffsetFault};
ghost use Rattle.ttx_extract.specs.NamedPages as names;
ghost use Rattle.ttx_extract.specs.Extracts.{HasOffset, IsWritten};
ghost use Rattle.ttx_extract.specs.FoundInfos.{MinusZero};

use crate::draft::Draft;
use crate::faults::ExtractFault;
use crate::infos::{FoundInfo, first_info};
use crate::page_names::named_pages;
use crate::sent_page::{SentPage, sent_page};
use crate::serial::first_serial;
use std::alloc::{AllocError, Global};
use ttx_cycle::Cycle;
use ttx_info::Info;
use ttx_page::Page;
use ttx_witness::{Collected, NoMemory, collect};

/// A draft, and the transmissions of each item of its pages.
#[derive(Drop)]
pub struct Gathered {
    pub draft: Draft,
    pub collected: Collected,
}

// The slot of a packet 8/30 whose local offset is minus zero, which no text says.
fn minus_zero(found: &Option<FoundInfo>) -> Option<u32>
    ensures { MatchOption result ((slot : ℕ) → MinusZero found.now slot → ⊥) (MinusZero found.now) }
{
    match found {
        Some(found) => {
            if found.info.halves() == 0 && found.info.west() {
                Some(found.slot)
            } else {
                None
            }
        }
        None => None,
    }
}

fn info_of(found: Option<FoundInfo>) -> Option<Info>
    ensures { result ≡ option_map (λ f. f.info) found }
{
    match found {
        Some(found) => Some(found.info),
        None => None,
    }
}

// The first packet 8/30.
fn offset_info(cycle: &Cycle) -> Result<Option<Info>, ExtractFault>
    ensures info { IfOk result (λ info. info ≡ first_info (slots_of cycle.now)) }
    ensures offset { IfOk result (λ _. HasOffset (slots_of cycle.now)) }
    ensures fault { IfErr result (IsOffsetFault (slots_of cycle.now)) }
{
    let found = first_info(cycle);
    match minus_zero(&found) {
        Some(slot) => Err(ExtractFault::Info { slot }),
        None => Ok(info_of(found)),
    }
}

// The pages with these ids, each with what is sent first of its items.
fn sent_pages(
    alloc: Global,
    cycle: &Cycle,
    named: &[Page],
    collected: &Collected,
    serial: bool,
) -> Result<Vec<SentPage>, AllocError>
    ensures { IfOk result (λ pages. (lines : ℕ) → AreAllSent (slots_of cycle.now) (map page_of named.now) lines collected.now →
        map authored_of pages.items ≡ map (said_page (slots_of cycle.now) lines serial) (ids_of named.now)) }
{
    let mut pages = Vec::new(alloc);
    for index in 0..named.len() {
        pages.push(sent_page(cycle, collected, index, named[index].id(), serial))?;
    }
    Ok(pages)
}

// What a cycle sends of these pages, whose packet 8/30 this is.
fn gather_pages(
    alloc: Global,
    cycle: &Cycle,
    lines: u8,
    info: Option<Info>,
    named: &[Page],
) -> Result<Gathered, NoMemory>
    requires { ids_of named.now ≡ names.named (slots_of cycle.now) }
    ensures draft { IfOk result (λ g. info ≡ first_info (slots_of cycle.now) → draft_of g.draft ≡ sent_draft (slots_of cycle.now) lines) }
    ensures sent { IfOk result (λ g. AreSentOf (slots_of cycle.now) lines g.collected) }
{
    let serial = first_serial(cycle);
    let collected = collect(alloc, cycle, named, lines)?;
    match sent_pages(alloc, cycle, named, &collected, serial) {
        Ok(pages) => Ok(Gathered {
            draft: Draft {
                lines,
                serial,
                info,
                pages,
            },
            collected,
        }),
        Err(_) => Err(NoMemory),
    }
}

/// What a cycle sends, with these lines of a field.
pub fn gather(alloc: Global, cycle: &Cycle, lines: u8) -> Result<Gathered, ExtractFault>
    ensures draft { IfOk result (λ g. draft_of g.draft ≡ sent_draft (slots_of cycle.now) lines) }
    ensures sent { IfOk result (λ g. AreSentOf (slots_of cycle.now) lines g.collected) }
    ensures written { IfOk result (λ _. IsWritten (slots_of cycle.now)) }
    ensures fault { IfErr result (IsGatherFault (slots_of cycle.now)) }
{
    let info = match offset_info(cycle) {
        Ok(info) => info,
        Err(fault) => return Err(fault),
    };
    let named = match named_pages(alloc, cycle) {
        Ok(named) => named,
        Err(fault) => return Err(fault),
    };
    match gather_pages(alloc, cycle, lines, info, named.as_slice()) {
        Ok(gathered) => Ok(gathered),
        Err(_) => Err(ExtractFault::NoMemory),
    }
}
