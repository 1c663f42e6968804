//! Refusals of authors' texts in words, with places in these texts.

ghost use Rattle.std.specs.Prelude.{◌≡◌, ◌++◌, ◌<◌, codes, length, IfOk, OnOk, string_bytes};
ghost use Rattle.toml.specs.View.{table_view};
ghost use Rattle.ttx_check.specs.Refusals as check;
ghost use Rattle.ttx_desk.specs.Composing.{author_in};
ghost use Rattle.ttx_desk.specs.Services.{service_table};
ghost use Rattle.ttx_source.specs.Faults.{fault_of};
ghost use Rattle.ttx_press.specs.AuthorRefusals as rule;
ghost use Rattle.ttx_press.specs.Refusals.{Says};

use crate::refusals::refused;
use std::alloc::{AllocError, Global};
use toml::Table;
use ttx_air::PressFault;
use ttx_check::refusals::push_words;
use ttx_check::spots::spot_of;
use ttx_desk::{ComposeFault, Mistake, mistake_place, push_fault, service_of};
use ttx_places::{place_of, position_of};
use ttx_source::{SourceError, SourceFault, read_document};

// Adds the line and the column of a byte.
fn push_position(words: &mut String, text: &[u8], place: usize) -> Result<(), AllocError>
    ensures { OnOk result (string_bytes words.new ≡ string_bytes words.old ++ rule.position_words text.now place) }
{
    let at = position_of(text, place);
    let (line, column) = (at.line, at.column);
    write!(words, "line {line} column {column}")
}

// The same in characters.
fn push_position_in(words: &mut String, text: &str, place: usize) -> Result<(), AllocError>
    ensures { OnOk result (string_bytes words.new ≡ string_bytes words.old ++ rule.position_words text.now place) }
{
    push_position(words, text.as_bytes(), place)
}

// The words about a mistake of an author's text.
fn mistake_words(
    alloc: Global,
    text: &str,
    author: &Table,
    mistake: &Mistake,
) -> Result<String, AllocError>
    ensures { IfOk result (λ words. rule.IsMistakeWords text.now (table_view author.now) mistake.now (string_bytes words)) }
{
    let place = mistake_place(alloc, text, mistake)?;
    let mut words = String::new(alloc);
    push_position_in(&mut words, text, place)?;
    words.push_str(": ")?;
    push_fault(alloc, &mut words, author, mistake)?;
    Ok(words)
}

// The refusal for the first of some mistakes.
fn refused_first(alloc: Global, text: &str, author: &Table, mistakes: &[Mistake]) -> PressFault
    requires { 0 < length mistakes.now }
    ensures { Says (rule.IsRefusalBy text.now (table_view author.now) mistakes.now) result }
{
    let [first, ..] = mistakes else {
        unreachable!()
    };
    match mistake_words(alloc, text, author, first) {
        Ok(words) => PressFault::Refused(words),
        Err(_) => PressFault::NoMemory,
    }
}

// Adds the name of a value, if it has one.
fn push_name(words: &mut String, name: &str) -> Result<(), AllocError>
    ensures { OnOk result (string_bytes words.new ≡ string_bytes words.old ++ check.after_space name.now) }
{
    if name.is_empty() {
        return Ok(());
    }
    words.push_str(" ")?;
    words.push_str(name)
}

// Adds where a value stands, if that is known, and its name.
fn push_place(
    words: &mut String,
    text: &str,
    place: Option<usize>,
    name: &str,
) -> Result<(), AllocError>
    ensures { OnOk result (string_bytes words.new ≡ string_bytes words.old ++ check.place_text text.now place name.now) }
{
    match place {
        Some(place) => {
            push_position_in(words, text, place)?;
            push_name(words, name)
        }
        None => words.push_str(name),
    }
}

// Adds what is wrong.
fn push_said(words: &mut String, fault: SourceFault, detail: &str) -> Result<(), AllocError>
    ensures { OnOk result (string_bytes words.new
        ≡ string_bytes words.old ++ codes ": " ++ check.fault_words (fault_of fault) ++ detail.now) }
{
    words.push_str(": ")?;
    push_words(words, fault)?;
    words.push_str(detail)
}

// The words about a fault of the service table that a text means.
fn fault_words(
    alloc: Global,
    text: &str,
    table: &Table,
    error: &SourceError,
) -> Result<String, AllocError>
    requires { rule.IsFaultOf (table_view table.now) (fault_of error.now.fault) error.now.page }
    ensures { IfOk result (λ words. rule.IsFaulty text.now (table_view table.now) (string_bytes words)) }
{
    let spot = spot_of(alloc, table, error)?;
    let place = place_of(alloc, text, spot.path.as_str())?;
    let mut words = String::new(alloc);
    push_place(&mut words, text, place, spot.name.as_str())?;
    push_said(&mut words, error.fault, spot.detail.as_str())?;
    Ok(words)
}

// The refusal for a fault of the service that an author's text means.
fn refused_fault(alloc: Global, text: &str, author: &Table, error: &SourceError) -> PressFault
    requires { rule.IsFaultOf (service_table (table_view author.now)) (fault_of error.now.fault) error.now.page }
    ensures { Says (rule.IsFaulty text.now (service_table (table_view author.now))) result }
{
    let Ok(translated) = service_of(alloc, author) else {
        return PressFault::NoMemory;
    };
    match fault_words(alloc, text, &translated.table, error) {
        Ok(words) => PressFault::Refused(words),
        Err(_) => PressFault::NoMemory,
    }
}

// The refusal of an author's text with this table.
fn refused_table(alloc: Global, text: &str, author: &Table, why: &ComposeFault) -> PressFault
    requires { rule.IsTableWhy (table_view author.now) why.now }
    ensures { Says (rule.IsTableRefusal text.now (table_view author.now)) result }
{
    match why {
        ComposeFault::Mistakes(mistakes) => refused_first(alloc, text, author, mistakes.as_slice()),
        ComposeFault::Service(error) => refused_fault(alloc, text, author, error),
        ComposeFault::Unsaid => refused(alloc, "the service text would be read as another"),
        ComposeFault::NoMemory => PressFault::NoMemory,
        ComposeFault::NotToml => unreachable!(),
    }
}

/// The refusal of an author's text that stands for no service text, or for one whose promises are refused.
pub(crate) fn refused_author(alloc: Global, text: &[u8], why: &ComposeFault) -> PressFault
    requires { rule.IsWhy (author_in text.now) why.now }
    ensures { Says (rule.IsAuthorRefusal text.now) result }
{
    match read_document(alloc, text) {
        Ok(Some(author)) => refused_table(alloc, author.text, &author.table, why),
        _ => PressFault::NoMemory,
    }
}
