//! A newsroom over the text of a service.

ghost use Rattle.std.specs.Prelude.{◌≡◌, ◌⊎◌, [], IfOk, string_bytes};
ghost use Rattle.sha2.specs.Sha256.{sha256};
ghost use Rattle.ttx_playout.specs.Takeovers.{edition_of};
ghost use Rattle.ttx_air.specs.Newsrooms.{Refused, news_of};
ghost use Rattle.ttx_air.specs.TextNewsrooms as rule;
ghost use Rattle.ttx_air.specs.TextNewsrooms.{made_of, news_made, lacking, Tries, IsUnread, IsUnreadNews, Finds};

use crate::candidate::{Candidate, News};
use crate::newsroom::Newsroom;
use crate::press::{Press, PressFault};
use crate::sources::TextSource;
use sha2::{Digest, Sha256};
use std::alloc::{AllocError, Global};
use ttx_cycle::TextFault;
use ttx_playout::Edition;

// How many fields a second has.
const SECOND: usize = 50;

/// A newsroom that looks at the text of a service, at most once a second, and hands out the edition of each new text once. It keeps the
/// text that it tried last; a text that is new counts as tried whatever becomes of it, also if memory ran out.
#[derive(Drop)]
pub struct TextNewsroom<S, P> {
    source: S,
    press: P,
    // The text that was tried last.
    tried: Vec<u8>,
    // Whether the text could not be read the last time.
    unread: bool,
    // The field before which the text is not looked at.
    next: usize,
}

impl<S, P> TextNewsroom<S, P> {
    /// A newsroom over this source and this press, while the edition of the first text is on the air.
    pub fn new(source: S, press: P, first: Vec<u8>) -> TextNewsroom<S, P>
        ensures { rule.IsNew source press first.items result }
    {
        TextNewsroom {
            source,
            press,
            tried: first,
            unread: false,
            next: 0,
        }
    }
}

/// The mark of a text in the log: a space and its SHA-256 in hexadecimal.
pub fn text_mark(alloc: Global, text: &[u8]) -> Result<String, AllocError>
    ensures { IfOk result (λ mark. string_bytes mark ≡ rule.mark_of (sha256 text.now)) }
{
    let digest = Sha256::digest(text);
    let mut mark = String::from_str(alloc, " ")?;
    let digits = hex::encode(alloc, digest.as_slice())?;
    mark.push_str(digits.as_str())?;
    Ok(mark)
}

// The answer to what was made of a text with this mark.
fn news_by(mark: String, made: Result<Edition, PressFault>) -> News
    ensures { news_of result ≡ news_made (string_bytes mark) (made_of made) }
{
    match made {
        Ok(edition) => News::Next(Candidate { edition, mark }),
        Err(PressFault::Refused(words)) => News::Refused { mark, words },
        Err(PressFault::NoMemory) => News::NoMemory { mark },
    }
}

// The answer to a text that is new.
fn tried<P: Press>(alloc: Global, press: &mut P, on_air: &Edition, text: &[u8]) -> News
    ensures { Tries P.makes press.old (edition_of on_air.now) text.now (news_of result) press.new }
{
    let Ok(mark) = text_mark(alloc, text) else {
        return News::NoMemory {
            mark: String::new(alloc),
        };
    };
    let made = press.edition(alloc, on_air, text);
    news_by(mark, made)
}

// These words, without a mark.
fn unmarked(alloc: Global, words: &str) -> News
    ensures { (news_of result ≡ Refused [] words.now) ⊎ (news_of result ≡ lacking []) }
{
    let mark = String::new(alloc);
    match String::from_str(alloc, words) {
        Ok(words) => News::Refused { mark, words },
        Err(_) => News::NoMemory { mark },
    }
}

// The answer if no text was read.
fn unread_news(alloc: Global, fault: TextFault) -> News
    ensures { IsUnreadNews fault (news_of result) }
{
    match fault {
        TextFault::Read => unmarked(alloc, "the text cannot be read"),
        TextFault::TooLong => unmarked(alloc, "the text is too long"),
        TextFault::NoMemory => News::NoMemory {
            mark: String::new(alloc),
        },
    }
}

impl<S: TextSource, P: Press> TextNewsroom<S, P> {
    // The answer if no text was read. It is reported once.
    fn unread(&mut self, alloc: Global, fault: TextFault) -> News
        ensures { IsUnread fault self.old self.new (news_of result) }
    {
        if self.unread {
            return News::Nothing;
        }
        self.unread = true;
        unread_news(alloc, fault)
    }

    // The answer to a text that was read.
    fn read(&mut self, alloc: Global, on_air: &Edition, text: Vec<u8>) -> News
        ensures { rule.IsRead P.makes (edition_of on_air.now) text.items self.old self.new (news_of result) }
    {
        self.unread = false;
        if text.as_slice() == self.tried.as_slice() {
            return News::Nothing;
        }
        let news = tried(alloc, &mut self.press, on_air, text.as_slice());
        self.tried = text;
        news
    }

    // What the text is now.
    fn found(&mut self, alloc: Global, on_air: &Edition) -> News
        ensures { Finds S.reads P.makes (edition_of on_air.now) self.old self.new (news_of result) }
    {
        match self.source.text(alloc) {
            Ok(text) => self.read(alloc, on_air, text),
            Err(fault) => self.unread(alloc, fault),
        }
    }
}

impl<S: TextSource, P: Press> Newsroom for TextNewsroom<S, P> {
    ghost use Rattle.ttx_air.specs.TextNewsrooms.{Looks};

    ghost gives = { λ old on_air field news new. Looks S.reads P.makes on_air field old new news };

    fn next(&mut self, alloc: Global, on_air: &Edition, field: usize) -> News {
        if field < self.next {
            return News::Nothing;
        }
        self.next = field.saturating_add(SECOND);
        self.found(alloc, on_air)
    }
}
