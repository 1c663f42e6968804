//! A mistake for which a service text is refused.

ghost use Rattle.std.specs.Prelude.{◌≡◌, ◌++◌, OnOk, option_map};
ghost use Rattle.ttx_source.specs.KeyFaults.{key_fault_of};
ghost use Rattle.ttx_check.specs.PartViews.{part_view};
ghost use Rattle.ttx_mistakes.specs.Mistakes as rule;
ghost use Rattle.ttx_mistakes.specs.MistakeViews.{mistake_views};

use std::alloc::AllocError;
use ttx_check::parts::Part;
use ttx_source::key_faults::KeyFault;

/// What is refused: in a page, counted from 1, or outside pages, 0; in which part; and why.
#[derive(Clone, Copy)]
pub struct Mistake<'a> {
    pub page: usize,
    pub part: Part<'a>,
    pub fault: KeyFault,
}

/// Adds a mistake, if there is a fault.
pub fn push_fault<'a>(
    found: &mut Vec<Mistake<'a>>,
    page: usize,
    part: Part<'a>,
    fault: Option<KeyFault>,
) -> Result<(), AllocError>
    ensures { OnOk result (mistake_views found.new.items
        ≡ mistake_views found.old.items ++ rule.at page (part_view part.entry) (option_map key_fault_of fault)) }
{
    match fault {
        None => Ok(()),
        Some(fault) => {
            found.push(Mistake { page, part, fault })?;
            Ok(())
        }
    }
}
