//! What a record answers.

ghost use Rattle.std.specs.Prelude.{◌≡◌, ◌⊎◌, ◌∷◌, [], IfOk, string_bytes};
ghost use Rattle.ttx_air.specs.Newsrooms.{Refused, news_of};
ghost use Rattle.ttx_air.specs.TextNewsrooms.{made_of, news_made, lacking, Tries};
ghost use Rattle.ttx_playout.specs.Takeovers.{edition_of};
ghost use Rattle.ttx_archive.specs.Archives.{told_of};
ghost use Rattle.ttx_broadcast.specs.LogNewsrooms.{Tells};

use std::alloc::{AllocError, Global};
use ttx_air::{Candidate, News, Press, PressFault};
use ttx_archive::{FiledText, Told};
use ttx_playout::Edition;

// The mark of a text in the log.
fn mark_of(alloc: Global, digest: &str) -> Result<String, AllocError>
    ensures { IfOk result (λ mark. string_bytes mark ≡ 32 ∷ digest.now) }
{
    let mut mark = String::from_str(alloc, " ")?;
    mark.push_str(digest)?;
    Ok(mark)
}

// Lack of memory for the answer.
fn no_memory(alloc: Global) -> News
    ensures { news_of result ≡ lacking [] }
{
    News::NoMemory {
        mark: String::new(alloc),
    }
}

// The words about a text with this mark.
fn refused(alloc: Global, mark: String, words: &str) -> News
    ensures { (news_of result ≡ Refused (string_bytes mark) words.now) ⊎ (news_of result ≡ lacking []) }
{
    match String::from_str(alloc, words) {
        Ok(words) => News::Refused { mark, words },
        Err(_) => no_memory(alloc),
    }
}

// The words about the text with this digest.
fn kept(alloc: Global, digest: &str, words: &str) -> News
    ensures { (news_of result ≡ Refused (32 ∷ digest.now) words.now) ⊎ (news_of result ≡ lacking []) }
{
    match mark_of(alloc, digest) {
        Ok(mark) => refused(alloc, mark, words),
        Err(_) => no_memory(alloc),
    }
}

// The words about no text.
fn unread(alloc: Global, words: &str) -> News
    ensures { (news_of result ≡ Refused [] words.now) ⊎ (news_of result ≡ lacking []) }
{
    refused(alloc, String::new(alloc), words)
}

// The answer to what was made of a text with this mark.
fn news_by(mark: String, made: Result<Edition, PressFault>) -> News
    ensures { news_of result ≡ news_made (string_bytes mark) (made_of made) }
{
    match made {
        Ok(edition) => News::Next(Candidate { edition, mark }),
        Err(PressFault::Refused(words)) => News::Refused { mark, words },
        Err(PressFault::NoMemory) => News::NoMemory { mark },
    }
}

// The edition of a text that took over.
fn printed<P: Press>(alloc: Global, press: &mut P, on_air: &Edition, filed: &FiledText) -> News
    ensures { Tries P.makes press.old (edition_of on_air.now) filed.now.text.items (news_of result) press.new }
{
    let Ok(mark) = mark_of(alloc, filed.digest.as_str()) else {
        return no_memory(alloc);
    };
    let made = press.edition(alloc, on_air, filed.text.as_slice());
    news_by(mark, made)
}

/// The answer that is recorded.
pub(crate) fn answer<P: Press>(
    alloc: Global,
    press: &mut P,
    on_air: &Edition,
    told: Told<'_>,
) -> News
    ensures { Tells P.makes (edition_of on_air.now) (told_of told.entry) press.old press.new (news_of result) }
{
    match told {
        Told::Changed(filed) => printed(alloc, press, on_air, filed),
        Told::Kept { digest, words } => kept(alloc, digest, words),
        Told::Unread { words } => unread(alloc, words),
    }
}
