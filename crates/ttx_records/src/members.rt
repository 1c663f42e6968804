//! Lists of members, and the objects that begin or end alike.

ghost use Rattle.std.specs.Prelude.{◌≡◌, ◌++◌, IfOk, OnOk, codes, map, string_bytes};
ghost use Rattle.ttx_json.specs.Members.{member_of};
ghost use Rattle.ttx_json.specs.Objects as json;
ghost use Rattle.ttx_records.specs.Names.{line};
ghost use Rattle.ttx_records.specs.Verdicts as rule;

use crate::names::{id_text, item_name};
use std::alloc::{AllocError, Global};
use ttx_header::PageId;
use ttx_json::{Member, count, push_object, word};
use ttx_page::Item;

/// Some members, and others behind them.
pub fn joined<'a>(
    alloc: Global,
    first: &[Member<'a>],
    last: &[Member<'a>],
) -> Result<Vec<Member<'a>>, AllocError>
    ensures { IfOk result (λ members. map member_of members.items ≡ map member_of first.now ++ map member_of last.now) }
{
    let mut members = Vec::new(alloc);
    members.extend_from_slice(first)?;
    members.extend_from_slice(last)?;
    Ok(members)
}

/// Adds an object with some members, and others behind them.
#[tactic(auto, unfolding(crate::specs::Names::line))]
pub fn push_joined<'a>(
    alloc: Global,
    text: &mut String,
    first: &[Member<'a>],
    last: &[Member<'a>],
) -> Result<(), AllocError>
    ensures { OnOk result (string_bytes text.new ≡ string_bytes text.old ++ line (map member_of first.now ++ map member_of last.now)) }
{
    let members = joined(alloc, first, last)?;
    push_object(alloc, text, members.as_slice())
}

/// A slot.
pub fn at(slot: u32) -> Member<'static>
    ensures { member_of result ≡ json.count (codes "slot") slot }
{
    count("slot", u64::from(slot))
}

/// The number and the name of a rejection.
#[derive(Clone, Copy)]
pub struct No(pub u64, pub &'static str);

/// Adds a rejection with further members.
pub fn push_no(
    alloc: Global,
    text: &mut String,
    no: No,
    further: &[Member],
) -> Result<(), AllocError>
    ensures { OnOk result (string_bytes text.new ≡ string_bytes text.old ++ line (rule.no_members no.0 no.1.now (map member_of further.now))) }
{
    let first = [
        word("answer", "no"),
        count("number", no.0),
        word("name", no.1),
    ];
    push_joined(alloc, text, &first, further)
}

/// Adds a rejection that names a page, with further members.
pub fn push_of_page(
    alloc: Global,
    text: &mut String,
    no: No,
    page: PageId,
    further: &[Member<'static>],
) -> Result<(), AllocError>
    ensures { OnOk result (string_bytes text.new ≡ string_bytes text.old
        ++ line (rule.of_page no.0 no.1.now page (map member_of further.now))) }
{
    let page = id_text(alloc, page)?;
    let first = [
        word("answer", "no"),
        count("number", no.0),
        word("name", no.1),
        word("page", page.as_str()),
    ];
    push_joined(alloc, text, &first, further)
}

/// Adds a rejection that names an item of a page, with further members.
pub fn push_of_item(
    alloc: Global,
    text: &mut String,
    no: No,
    of: (PageId, Item),
    further: &[Member<'static>],
) -> Result<(), AllocError>
    ensures { OnOk result (string_bytes text.new ≡ string_bytes text.old
        ++ line (rule.of_item no.0 no.1.now of.0 of.1 (map member_of further.now))) }
{
    let members = joined(alloc, &[word("item", item_name(of.1))], further)?;
    push_of_page(alloc, text, no, of.0, members.as_slice())
}
