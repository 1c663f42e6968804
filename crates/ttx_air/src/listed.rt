//! A newsroom that answers from a list.

ghost use Rattle.std.specs.Prelude.{◌≡◌, map};
ghost use Rattle.ttx_air.specs.Newsrooms.{news_of};
ghost use Rattle.ttx_air.specs.Listings.{answers_of};

use crate::candidate::News;
use crate::newsroom::Newsroom;
use std::alloc::Global;
use ttx_playout::Edition;

/// A newsroom that gives the answers of a list, from its end to its beginning, and then has nothing new.
#[derive(Drop)]
pub struct Listed {
    news: Vec<News>,
}

impl Listed {
    /// A newsroom with these answers.
    pub fn new(news: Vec<News>) -> Listed
        ensures { answers_of result ≡ map news_of news.items }
    {
        Listed { news }
    }
}

impl Newsroom for Listed {
    ghost use Rattle.ttx_air.specs.Listings.{answers_of, HandsOut};

    ghost gives = { λ old _ _ answer new. HandsOut (answers_of old) answer (answers_of new) };

    fn next(&mut self, _alloc: Global, _on_air: &Edition, _field: usize) -> News {
        match self.news.pop() {
            Some(news) => news,
            None => News::Nothing,
        }
    }
}
