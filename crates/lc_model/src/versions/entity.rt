ghost use Rattle.std.specs.Prelude.{◌≡◌, IfOk, None};
ghost use Rattle.std.specs.Option.{option_copied};

use crate::versions::TripNews;
use crate::{Bytes, Items, NoMemory, PlainData};
use std::alloc::Global;
use std::marker::Model;

/// An entity of a message: its id, and its news where it has some. A contract sees these. The news are apart, since most of
/// a hostile message's entities have none.
#[derive(Drop)]
pub struct EntityNews {
    id: Bytes,
    news: Option<Box<TripNews>>,
}

impl Model for EntityNews {
    ghost use Rattle.std.specs.Option.{option_map};
    ghost use Rattle.lc_model.specs.Versions.News.{EntitySaid};

    ghost Value = { EntitySaid };

    ghost view = { λ e. record { id = e.id; news = option_map (λ news. news.value) e.news } };
}

impl EntityNews {
    /// The entity of this id with these news.
    pub fn new(alloc: Global, id: Bytes, news: Option<TripNews>) -> Result<EntityNews, NoMemory>
        ensures { IfOk result (λ entity. entity ≡ record { id = id; news = news }) }
    {
        let news = match news {
            None => None,
            Some(news) => Some(Box::new(alloc, news)?),
        };
        Ok(EntityNews { id, news })
    }

    /// The entity as one that has no news.
    pub fn without_news(self) -> EntityNews
        ensures { result ≡ record { id = self.id; news = None } }
    {
        EntityNews {
            id: self.id,
            news: None,
        }
    }

    pub fn id(&self) -> &[u8]
        ensures { result.now ≡ self.now.id }
    {
        self.id.as_slice()
    }

    pub fn news(&self) -> Option<&TripNews>
        ensures { option_copied result ≡ self.now.news }
    {
        match &self.news {
            None => None,
            Some(news) => Some(news),
        }
    }
}

impl PlainData for EntityNews {
    fn copy(&self, alloc: Global) -> Result<EntityNews, NoMemory> {
        let news = match &self.news {
            None => None,
            Some(news) => Some(Box::new(alloc, news.copy(alloc)?)?),
        };
        Ok(EntityNews {
            id: self.id.copy(alloc)?,
            news,
        })
    }
}

/// Entities in the order of the message.
pub type EntityList = Items<EntityNews>;
