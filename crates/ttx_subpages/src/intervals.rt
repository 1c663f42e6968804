//! How long a viewer waits for each subpage of a number.

ghost use Rattle.std.specs.Prelude.{◌≡◌, ◌+◌, ℕ, List, Some, map, slice_get};
ghost use Rattle.ttx_page.specs.Pages as definitions;
ghost use Rattle.ttx_page.specs.Streams.{repeated};
ghost use Rattle.ttx_page.specs.Views.{page_of};
ghost use Rattle.ttx_cycle.specs.Cycles.{slots_of};
ghost use Rattle.ttx_subpages.specs.Intervals.{longer_of, LongestBelow, IsIntervalOf};

use crate::numbers::has_number;
use crate::stays::greatest_interval;
use ttx_cycle::Cycle;
use ttx_page::{Page, Selection};

// The longer of two intervals, of which neither exists if a page has no header.
fn longer(most: Option<usize>, interval: usize) -> Option<usize>
    ensures { result ≡ longer_of most interval }
{
    let before = most?;
    if interval == 0 {
        return None;
    }
    if before < interval {
        return Some(interval);
    }
    Some(before)
}

// The longer of `most` and the interval of the page, if it has the number.
fn widened(cycle: &Cycle, page: &Page, mag: u8, number: u8, most: Option<usize>) -> Option<usize>
    ensures { (pages : List definitions.Page) (n : ℕ) → slice_get pages n ≡ Some (page_of page.now) →
        LongestBelow (repeated (slots_of cycle.now)) pages n mag number most →
        LongestBelow (repeated (slots_of cycle.now)) pages (n + 1) mag number result }
{
    if !has_number(page, mag, number) {
        return most;
    }
    longer(most, greatest_interval(cycle, Selection::Exact(page.id())))
}

/// The most slots from a header of a page with this number to the next header of the same page. In any so many slots, and those of a
/// block, a receiver that shows a page where it ends, set to the number, shows each of these pages once. `None` if the cycle has no header
/// of one of them. `mag` is the magazine, 1 to 8, `number` two hexadecimal digits in one byte.
pub fn longest_interval(cycle: &Cycle, pages: &[Page], mag: u8, number: u8) -> Option<usize>
    ensures { IsIntervalOf (repeated (slots_of cycle.now)) (map page_of pages.now) mag number result }
{
    let mut most = Some(0);
    for index in 0..pages.len() {
        most = widened(cycle, &pages[index], mag, number, most);
    }
    most
}
