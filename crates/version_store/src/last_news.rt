ghost use Rattle.std.specs.Prelude.{IfOk, OnOk, map};
ghost use Rattle.version_store.specs.Kept.{news_said};
ghost use Rattle.version_store.specs.LastNews.{HasLast, HasOwn, PutsOwn};

use crate::dated::DatedNews;
use crate::named::named_news;
use lc_model::{NoMemory, RunKey};
use live_calls::added_key;
use std::alloc::Global;
use std::collections::BTreeMap;

/// For each key the last news that name the run of the timetable, and the last ones that have exactly this key.
#[derive(Drop)]
pub(crate) struct LastNews<'a> {
    pub(crate) named: BTreeMap<RunKey, DatedNews<'a>>,
    pub(crate) own: BTreeMap<RunKey, DatedNews<'a>>,
}

/// Puts the news at their own key, if they have one that a run may have.
fn put_own<'a>(
    alloc: Global,
    own: &mut BTreeMap<RunKey, DatedNews<'a>>,
    news: DatedNews<'a>,
) -> Result<(), NoMemory>
    ensures { OnOk result (PutsOwn news.entry own.old own.new) }
{
    let Some(key) = added_key(alloc, news.news, news.date)? else {
        return Ok(());
    };
    own.insert(key, news)?;
    Ok(())
}

/// For each key the last of the news that have exactly this key. Takes the time of a sort of the news.
fn own_news<'a>(
    alloc: Global,
    news: &[DatedNews<'a>],
) -> Result<BTreeMap<RunKey, DatedNews<'a>>, NoMemory>
    ensures { IfOk result (HasOwn (map news_said news.now)) }
{
    let mut own = BTreeMap::new(alloc);
    'news: for dated in news {
        put_own(alloc, &mut own, *dated)?;
    }
    Ok(own)
}

/// The last news of each key. Takes the time of a sort of the news.
pub(crate) fn last_news<'a>(alloc: Global, news: &[DatedNews<'a>]) -> Result<LastNews<'a>, NoMemory>
    ensures { IfOk result (HasLast (map news_said news.now)) }
{
    let named = named_news(alloc, news)?;
    let own = own_news(alloc, news)?;
    Ok(LastNews { named, own })
}
