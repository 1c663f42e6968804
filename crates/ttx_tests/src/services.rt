//! The text of a fault of a service definition. The cases of the built program show which definitions are accepted, and what they give;
//! tests/refused_texts.py shows which are refused.

use std::test::Fail;
use ttx_source::{SourceError, SourceFault};

#[test]
fn a_text_for_a_person(rt: HostRuntime) -> Result<(), Fail> {
    let fault = SourceFault::Missing { key: "number" };
    let error = SourceError { fault, page: 3 };
    let text = format!(in rt.alloc(); "{error}")?;
    let wanted = "page 3: `number` is missing: it takes a text: a page number as \"100\"";
    assert!(rt; text.as_str() == wanted);
    Ok(())
}
