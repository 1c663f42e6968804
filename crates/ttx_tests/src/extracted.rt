//! The service text of the worked cycle, and why others have none: by the calls of the crate itself, where tests/cases/extract.toml
//! shows the command.

use crate::base::{HEADER, beginning, filled, slots};
use std::alloc::{AllocError, Global};
use std::test::Fail;
use ttx_cycle::Cycle;
use ttx_extract::{ExtractFault, extract, push_refusal};
use ttx_source::{SourceError, SourceFault};

// The first bytes of the header of page 100 with subcode 3F7F, which no page has.
static ANY_SUBPAGE: [u8; 10] = [0x02, 0x15, 0x15, 0x15, 0xea, 0x2f, 0xea, 0x5e, 0x15, 0x02];

// The result of `extract` for the worked cycle with this slot in place of one of its own: the text, or the refusal.
fn told(alloc: Global, place: usize, slot: [u8; 42]) -> Result<String, AllocError> {
    let mut slots = slots(alloc)?;
    if place < slots.len() {
        slots[place] = slot;
    }
    let Some(cycle) = Cycle::of(slots) else {
        return String::from_str(alloc, "no cycle");
    };
    match extract(alloc, &cycle, 2) {
        Ok(extracted) => Ok(extracted.text),
        Err(
            ExtractFault::Service(
                SourceError {
                    fault: SourceFault::Subcode,
                    page,
                },
            ),
        ) => format!(in alloc; "subcode {page}"),
        Err(fault) => {
            let mut text = String::new(alloc);
            push_refusal(&mut text, &fault)?;
            Ok(text)
        }
    }
}

#[test]
fn a_cycle_gives_its_service_or_the_reason(rt: HostRuntime) -> Result<(), Fail> {
    let alloc = rt.alloc();
    let text = told(alloc, 28, [0; 42])?;
    assert!(rt;
        text.as_str() == "lines = 2\nserial = true\n\n[[page]]\nnumber = \"100\"\n\n[page.rows]\n"
    );
    // the slot of the time-filling header has another one of the page
    let text = told(alloc, 27, beginning(&HEADER))?;
    assert!(rt;
        text.as_str()
            == "lines = 2\nserial = true\n\n[[page]]\nnumber = \"100\"\noften = 2\n\n[page.rows]\n"
    );
    let text = told(alloc, 27, filled(&HEADER, 0xb0))?;
    assert!(rt; text.as_str() == "conflict 100/0000 head 0 27");
    let text = told(alloc, 27, beginning(&ANY_SUBPAGE))?;
    assert!(rt; text.as_str() == "subcode 2");
    Ok(())
}
