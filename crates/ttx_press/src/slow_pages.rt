//! The pages for which viewers wait longer than the deadline.

ghost use Rattle.std.specs.Prelude.{◌≡◌, ◌++◌, IfOk, OnOk, map};
ghost use Rattle.ttx_promise.specs.Views.{late_view, late_list};
ghost use Rattle.ttx_press.specs.Refusals as rule;

use std::alloc::{AllocError, Global};
use ttx_promise::LatePage;
use ttx_witness::{PageWait, Wait};

// The page, if a viewer waits longer for it.
fn slow_page(told: PageWait, deadline: u32) -> Option<LatePage>
    ensures { late_list result ≡ rule.slow_page deadline told.page told.wait }
{
    match told.wait {
        Wait::Fields { fields, item: _ } if fields > deadline => Some(LatePage {
            page: told.page,
            fields,
            promise: deadline,
        }),
        _ => None,
    }
}

// Appends a page, if there is one.
fn push_slow(slow: &mut Vec<LatePage>, page: Option<LatePage>) -> Result<(), AllocError>
    ensures { OnOk result (map late_view slow.new.items ≡ map late_view slow.old.items ++ late_list page) }
{
    match page {
        Some(page) => {
            slow.push(page)?;
            Ok(())
        }
        None => Ok(()),
    }
}

/// The pages for which a viewer waits longer, in their order.
pub fn slow_pages(
    alloc: Global,
    told: &[PageWait],
    deadline: u32,
) -> Result<Vec<LatePage>, AllocError>
    ensures { IfOk result (λ slow. map late_view slow.items ≡ rule.slow_pages deadline told.now) }
{
    let mut slow = Vec::new(alloc);
    for one in told {
        push_slow(&mut slow, slow_page(*one, deadline))?;
    }
    Ok(slow)
}
