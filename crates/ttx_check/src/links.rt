//! Links to pages that the service does not have.

ghost use Rattle.std.specs.Prelude.{◌≡◌, ◌+◌, ◌≤◌, ◌++◌, OnOk, length};
ghost use Rattle.std.specs.List.{list_any};
ghost use Rattle.ttx_check.specs.PageWarnings.{leads_to, is_dead, link_warnings};

use crate::entries::Entry;
use crate::warning::Warning;
use std::alloc::AllocError;
use ttx_header::PageId;
use ttx_links::Target;

// The subcode that stands for any subpage in a link.
const ANY_SUBCODE: u16 = 0x3f7f;

fn leads_to(target: &Target, entry: &Entry) -> bool
    ensures { result ≡ leads_to target.now entry.now }
{
    target.mag() == entry.id.mag()
        && target.page() == entry.id.page()
        && (target.sub() == ANY_SUBCODE || target.sub() == entry.id.sub())
}

fn has_target(entries: &[Entry], target: &Target) -> bool
    ensures { result ≡ list_any (leads_to target.now) entries.now }
{
    entries.iter().any(|entry| leads_to(target, entry))
}

/// Whether there is a link, and it leads to none of these pages.
pub fn is_dead(entries: &[Entry], link: &Option<Target>) -> bool
    ensures { result ≡ is_dead entries.now link.now }
{
    match link {
        None => false,
        Some(target) => !has_target(entries, target),
    }
}

/// Adds the warnings about the links of a page.
pub fn push_links(
    found: &mut Vec<Warning>,
    entries: &[Entry],
    page: PageId,
    links: &[Option<Target>],
) -> Result<(), AllocError>
    requires { length links.now ≤ 6 }
    ensures { OnOk result (found.new.items ≡ found.old.items ++ link_warnings entries.now page 1 links.now) }
{
    for (place, link) in links.iter().enumerate() {
        if is_dead(entries, link) {
            found.push(Warning::DeadLink {
                page,
                link: place + 1,
            })?;
        }
    }
    Ok(())
}
