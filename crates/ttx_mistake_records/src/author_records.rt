//! The objects of an author's text.

ghost use Rattle.std.specs.Prelude.{IfOk, string_bytes};
ghost use Rattle.toml.specs.View.{table_view};
ghost use Rattle.ttx_mistake_records.specs.AuthorRecords.{IsRecordFor, IsAuthorRecord};

use crate::records::{Paper, record_of};
use std::alloc::{AllocError, Global};
use toml::Table;
use ttx_author_files::told_of_author;
use ttx_check::Checked;
use ttx_mistakes::pages_in;
use ttx_source::read_document;

// The objects of an author's text with this table, and the status.
fn record_for(
    alloc: Global,
    file: &str,
    text: &str,
    strict: bool,
    author: &Table,
) -> Result<Checked, AllocError>
    ensures { IfOk result (λ r. IsRecordFor file.now text.now strict (table_view author.now) (string_bytes r.text) r.status) }
{
    let found = told_of_author(alloc, text, author)?;
    let paper = Paper {
        file,
        bytes: text.as_bytes(),
    };
    record_of(alloc, paper, strict, pages_in(author), found.as_slice())
}

/// The objects of an author's text, which is TOML, and the status; of another text, `Err`.
pub fn author_record(
    alloc: Global,
    file: &str,
    bytes: &[u8],
    strict: bool,
) -> Result<Checked, AllocError>
    ensures { IfOk result (λ r. IsAuthorRecord file.now bytes.now strict (string_bytes r.text) r.status) }
{
    match read_document(alloc, bytes)? {
        Some(author) => record_for(alloc, file, author.text, strict, &author.table),
        None => Err(AllocError),
    }
}
