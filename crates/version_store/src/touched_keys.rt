ghost use Rattle.std.specs.Prelude.{IfOk, OnOk, map};
ghost use Rattle.version_store.specs.Kept.{news_said};
ghost use Rattle.version_store.specs.TouchedKeys.{HasTouched, PutsAllTouched, PutsOwnKey, PutsPlainKey, PutsTouched};

use crate::dated::DatedNews;
use lc_model::{Id, NoMemory, RunKey};
use live_calls::added_key;
use std::alloc::Global;
use std::collections::BTreeSet;

/// Puts the own key of news, if they have one that a run may have.
fn put_own_key(
    alloc: Global,
    keys: &mut BTreeSet<RunKey>,
    news: DatedNews<'_>,
) -> Result<(), NoMemory>
    ensures { OnOk result (PutsOwnKey (news_said news.entry) keys.old keys.new) }
{
    let Some(key) = added_key(alloc, news.news, news.date)? else {
        return Ok(());
    };
    keys.insert(key)?;
    Ok(())
}

/// Puts the key of the trip of news on their date, without a start.
fn put_plain_key(
    alloc: Global,
    keys: &mut BTreeSet<RunKey>,
    news: DatedNews<'_>,
) -> Result<(), NoMemory>
    ensures { OnOk result (PutsPlainKey (news_said news.entry) keys.old keys.new) }
{
    let said = news.news;
    let Some(trip) = Id::new(alloc, said.trip.as_slice())? else {
        return Ok(());
    };
    let key = RunKey {
        trip,
        date: news.date,
        start: None,
    };
    keys.insert(key)?;
    Ok(())
}

/// Puts the keys that news touch.
fn put_touched(
    alloc: Global,
    keys: &mut BTreeSet<RunKey>,
    news: DatedNews<'_>,
) -> Result<(), NoMemory>
    ensures { OnOk result (PutsTouched (news_said news.entry) keys.old keys.new) }
{
    put_own_key(alloc, keys, news)?;
    put_plain_key(alloc, keys, news)
}

/// Puts the keys that some of the news touch. Takes the time of a sort of the news.
fn put_all_touched(
    alloc: Global,
    keys: &mut BTreeSet<RunKey>,
    news: &[DatedNews<'_>],
) -> Result<(), NoMemory>
    ensures { OnOk result (PutsAllTouched (map news_said news.now) keys.old keys.new) }
{
    'news: for dated in news {
        put_touched(alloc, keys, *dated)?;
    }
    Ok(())
}

/// The keys that some of the news touch. Takes the time of a sort of the news.
pub(crate) fn touched_keys(
    alloc: Global,
    news: &[DatedNews<'_>],
) -> Result<BTreeSet<RunKey>, NoMemory>
    ensures { IfOk result (HasTouched (map news_said news.now)) }
{
    let mut keys = BTreeSet::new(alloc);
    put_all_touched(alloc, &mut keys, news)?;
    Ok(keys)
}
