//! Texts that are TOML documents.

ghost use Rattle.std.specs.Prelude.{◌≡◌, option_map, IfOk, IfSome};
ghost use Rattle.toml.specs.View.{table_view};
ghost use Rattle.ttx_source.specs.Documents.{document_of, or_not_toml};
ghost use Rattle.ttx_source.specs.Faults.{outcome_in_page, IsSourceUnlessMemory};

use crate::faults::{SourceError, SourceFault};
use std::alloc::{AllocError, Global};
use toml::Table;

/// A text, and the table that it is.
#[derive(Drop)]
pub struct Document<'a> {
    pub text: &'a str,
    pub table: Table,
}

/// The document that some bytes are; `None` if they are not UTF-8, or the text is not a TOML document.
#[tactic(auto, using(crate::proofs::DocumentTexts::of_text, crate::proofs::DocumentTexts::of_no_text))]
pub fn read_document<'a>(alloc: Global, bytes: &'a [u8]) -> Result<Option<Document<'a>>, AllocError>
    ensures table { IfOk result (λ found. option_map (λ d. table_view d.table) found ≡ document_of bytes.now) }
    ensures text { IfOk result (λ found. IfSome found (λ d. d.text.now ≡ bytes.now)) }
{
    let Ok(text) = std::str::from_utf8(bytes) else {
        return Ok(None);
    };
    match toml::table_from_str(alloc, text) {
        Ok(table) => Ok(Some(Document { text, table })),
        Err(error) if error.is_memory() => Err(AllocError),
        Err(_) => Ok(None),
    }
}

/// The table that a text is, or why it is none.
pub fn read_table(alloc: Global, bytes: &[u8]) -> Result<Table, SourceError>
    ensures { IsSourceUnlessMemory result (outcome_in_page (λ t. table_view t) result ≡ or_not_toml (document_of bytes.now)) }
{
    let fault = match read_document(alloc, bytes) {
        Ok(Some(document)) => return Ok(document.table),
        Ok(None) => SourceFault::NotToml,
        Err(_) => SourceFault::NoMemory,
    };
    Err(SourceError { fault, page: 0 })
}
