ghost use Rattle.std.specs.Prelude.{◌≡◌, IfOk, OnOk, Some, false, if◌then◌else◌, map};
ghost use Rattle.std.specs.BTreeMap.{get};
ghost use Rattle.lc_model.specs.RunKey.{key_cmp};
ghost use Rattle.lc_model.specs.declared.key.RunKey.{RunKey as StatedKey};
ghost use Rattle.lc_model.specs.Versions.Naming.{is_added as is_of_added};
ghost use Rattle.version_store.specs.Kept.{news_said};
ghost use Rattle.version_store.specs.Named.{HasNamed, PutsNamed, names_started};

use crate::dated::DatedNews;
use lc_model::{Id, NoMemory, PlainData, RunKey, TripKind};
use std::alloc::Global;
use std::collections::BTreeMap;

/// 100 hours in seconds, before which a run starts.
const STARTS_END: u32 = 360_000;

pub(crate) fn is_added(kind: TripKind) -> bool
    ensures { result ≡ is_of_added kind }
{
    match kind {
        TripKind::Added => true,
        TripKind::Scheduled | TripKind::Canceled => false,
    }
}

/// Puts the news at the key of the run of their start, if they say one that a run may have.
fn put_started<'a>(
    alloc: Global,
    named: &mut BTreeMap<RunKey, DatedNews<'a>>,
    trip: &Id,
    news: DatedNews<'a>,
) -> Result<(), NoMemory>
    requires of_timetable { is_of_added news.news.now.kind ≡ false }
    requires trip { trip.now ≡ news.news.now.trip }
    ensures { OnOk result ((key : StatedKey) → get key_cmp named.new key
        ≡ (if names_started key (news_said news.entry) then Some news.entry else get key_cmp named.old key)) }
{
    let said = news.news;
    let Some(start) = said.start else {
        return Ok(());
    };
    if start >= STARTS_END {
        return Ok(());
    }
    let key = RunKey {
        trip: trip.copy(alloc)?,
        date: news.date,
        start: Some(start),
    };
    named.insert(key, news)?;
    Ok(())
}

/// Puts the news at the keys of the runs that they may name: those without a start, and the one of their
/// start.
fn put_named<'a>(
    alloc: Global,
    named: &mut BTreeMap<RunKey, DatedNews<'a>>,
    news: DatedNews<'a>,
) -> Result<(), NoMemory>
    ensures { OnOk result (PutsNamed news.entry named.old named.new) }
{
    let said = news.news;
    if is_added(said.kind) {
        return Ok(());
    }
    let Some(trip) = Id::new(alloc, said.trip.as_slice())? else {
        return Ok(());
    };
    put_started(alloc, named, &trip, news)?;
    let key = RunKey {
        trip,
        date: news.date,
        start: None,
    };
    named.insert(key, news)?;
    Ok(())
}

/// For the key of each run the last of the news that name it. Takes the time of a sort of the news.
pub(crate) fn named_news<'a>(
    alloc: Global,
    news: &[DatedNews<'a>],
) -> Result<BTreeMap<RunKey, DatedNews<'a>>, NoMemory>
    ensures { IfOk result (HasNamed (map news_said news.now)) }
{
    let mut named = BTreeMap::new(alloc);
    'news: for dated in news {
        put_named(alloc, &mut named, *dated)?;
    }
    Ok(named)
}
