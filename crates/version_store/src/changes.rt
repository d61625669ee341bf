ghost use Rattle.std.specs.Prelude.{◌≡◌, ◌⊎◌, All, IfOk, List, OnOk, Some, [], map, true};
ghost use Rattle.lc_model.specs.Run.{InKeyOrder};
ghost use Rattle.lc_model.specs.Text.{IsIdText};
ghost use Rattle.lc_model.specs.declared.run.Run.{Run as StatedRun};
ghost use Rattle.version_store.specs.IndexLaws.Kept.{news_in};
ghost use Rattle.lc_model.specs.Versions.News.{EntitySaid, TripSaid};
ghost use Rattle.version_store.specs.Changes.{AreChangesAt, AreChangesBy, AreNearAt, PutsBegun, PutsChange, PutsEnded, TurnsKey};
ghost use Rattle.version_store.specs.Differing.{DifferBy};
ghost use Rattle.version_store.specs.Filed.{HasBy, spots_at, spots_over};
ghost use Rattle.version_store.specs.Further.{GoForward};
ghost use Rattle.version_store.specs.Kept.{entity_said, news_said};
ghost use Rattle.version_store.specs.LastNews.{HasLastAt, HasLastOf};
ghost use Rattle.version_store.specs.declared.filed.By.TheVariants.{Trip as ByTrip};

use crate::calls_by::calls_by;
use crate::dated::DatedNews;
use crate::kept::Marked;
use crate::last_news::{LastNews, last_news};
use crate::near::{FiledTrips, near_news};
use crate::spots::news_of;
use crate::store::Admission;
use crate::touched_keys::touched_keys;
use crate::trips::trips_of;
use lc_model::{Call, Calls, NoMemory, PlainData, RunKey, Runs, Stops};
use std::alloc::Global;
use std::collections::{BTreeMap, BTreeSet};

/// What changes from one list of news to the next: the keys that end, and by their keys the calls of the runs that begin.
#[derive(Drop)]
pub(crate) struct Changes {
    pub(crate) ended: Vec<RunKey>,
    pub(crate) begun: BTreeMap<RunKey, Calls>,
}

fn are_same(a: &[Call], b: &[Call]) -> bool
    ensures { result ≡ true → a.now ≡ b.now }
{
    a == b
}

/// Whether there was a run with these calls.
fn were(was: &Option<Calls>, calls: &Calls) -> bool
    ensures { result ≡ true → was.now ≡ Some calls.now }
{
    match was {
        Some(was) => are_same(was.as_slice(), calls.as_slice()),
        None => false,
    }
}

/// Ends a key, if it had a run.
fn put_ended(
    alloc: Global,
    ended: &mut Vec<RunKey>,
    key: &RunKey,
    was: &Option<Calls>,
) -> Result<(), NoMemory>
    ensures { OnOk result (PutsEnded key.now was.now ended.old.items ended.new.items) }
{
    match was {
        Some(_) => {
            ended.push(key.copy(alloc)?)?;
            Ok(())
        }
        None => Ok(()),
    }
}

/// Begins the run of a key, if it did not have these calls.
fn put_begun(
    alloc: Global,
    begun: &mut BTreeMap<RunKey, Calls>,
    key: &RunKey,
    was: &Option<Calls>,
    calls: Calls,
) -> Result<(), NoMemory>
    ensures { OnOk result (PutsBegun key.now was.now calls begun.old begun.new) }
{
    if were(was, &calls) {
        return Ok(());
    }
    begun.insert(key.copy(alloc)?, calls)?;
    Ok(())
}

/// Puts what changes at a key, by the calls that it had and those that it has.
fn put_change(
    alloc: Global,
    changes: &mut Changes,
    key: &RunKey,
    was: &Option<Calls>,
    is_now: Option<Calls>,
) -> Result<(), NoMemory>
    ensures { OnOk result (PutsChange key.now was.now is_now changes.old changes.new) }
{
    match is_now {
        Some(calls) => put_begun(alloc, &mut changes.begun, key, was, calls),
        None => put_ended(alloc, &mut changes.ended, key, was),
    }
}

/// Puts what changes at a key from the old news to the new. Takes the logarithm of the runs and of the news, and the time of the calls.
fn put_turn(
    alloc: Global,
    changes: &mut Changes,
    runs: &Runs,
    stops: &Stops,
    old: &LastNews<'_>,
    new: &LastNews<'_>,
    key: &RunKey,
) -> Result<(), NoMemory>
    ensures { OnOk result ((before after : List TripSaid) → HasLastAt key.now before old.now → HasLastAt key.now after new.now →
        TurnsKey runs.now stops.now before after key.now changes.old changes.new) }
{
    let was = calls_by(alloc, runs, stops, old, key)?;
    let is_now = calls_by(alloc, runs, stops, new, key)?;
    put_change(alloc, changes, key, &was, is_now)
}

/// What changes at the keys of a set. Takes the time of `put_turn` for each.
fn changes_at(
    alloc: Global,
    runs: &Runs,
    stops: &Stops,
    old: &LastNews<'_>,
    new: &LastNews<'_>,
    keys: &BTreeSet<RunKey>,
) -> Result<Changes, NoMemory>
    requires { InKeyOrder runs.now }
    ensures { IfOk result (λ changes. (before after : List TripSaid) → HasLastOf keys.now before old.now → HasLastOf keys.now after new.now →
        AreChangesAt runs.now stops.now before after keys.now [] changes) }
{
    let mut changes = Changes {
        ended: Vec::new(alloc),
        begun: BTreeMap::new(alloc),
    };
    for key in keys {
        put_turn(alloc, &mut changes, runs, stops, old, new, key)?;
    }
    Ok(changes)
}

/// What changes at the keys of a set, by news that are all news of these keys. Takes the time of a sort of the news, and that of
/// `changes_at`.
fn changes_by(
    alloc: Global,
    runs: &Runs,
    stops: &Stops,
    old: &[DatedNews<'_>],
    new: &[DatedNews<'_>],
    keys: &BTreeSet<RunKey>,
) -> Result<Changes, NoMemory>
    requires { InKeyOrder runs.now }
    ensures { IfOk result (λ changes. (before after : List TripSaid) → AreNearAt keys.now (map news_said old.now) before → AreNearAt keys.now (map news_said new.now) after →
        AreChangesAt runs.now stops.now before after keys.now [] changes) }
{
    let last_old = last_news(alloc, old)?;
    let last_new = last_news(alloc, new)?;
    changes_at(alloc, runs, stops, &last_old, &last_new, keys)
}

/// What changes at the keys of a set from what was in force before a message to what is after it. It takes the logarithm of the trips in
/// force for each key, that of the runs, and the time of the calls and of the news of its trip.
fn near_changes(
    alloc: Global,
    runs: &Runs,
    stops: &Stops,
    admitted: &[Admission],
    filed: FiledTrips<'_>,
    keys: &BTreeSet<RunKey>,
) -> Result<Changes, NoMemory>
    requires { InKeyOrder runs.now }
    ensures forward { IfOk result (λ changes. GoForward changes.begun) }
    ensures changes { IfOk result (λ changes. (before after : List EntitySaid) → HasBy ByTrip admitted.now (spots_at filed.entry.before.now) before
        → HasBy ByTrip admitted.now (spots_over filed.entry.first.now filed.entry.rest.now) after
        → AreChangesAt runs.now stops.now (news_in before) (news_in after) keys.now [] changes) }
{
    let trips = trips_of(alloc, keys)?;
    let near = near_news(alloc, admitted, filed, trips)?;
    changes_by(
        alloc,
        runs,
        stops,
        near.old.as_slice(),
        near.new.as_slice(),
        keys,
    )
}

/// What changes from what was in force before a message to what is after it, by the entities that it touches. It takes the time of a sort of
/// these. For each key that their news touch it takes the time of `near_changes`.
pub(crate) fn changes_of(
    alloc: Global,
    runs: &Runs,
    stops: &Stops,
    admitted: &[Admission],
    touched: &[Marked<'_>],
    filed: FiledTrips<'_>,
) -> Result<Changes, NoMemory>
    requires in_order { InKeyOrder runs.now }
    requires trips { All (λ (r : StatedRun). IsIdText r.key.trip) runs.now }
    ensures forward { IfOk result (λ changes. GoForward changes.begun) }
    ensures changes { IfOk result (λ changes. (before after : List EntitySaid) → HasBy ByTrip admitted.now (spots_at filed.entry.before.now) before
        → HasBy ByTrip admitted.now (spots_over filed.entry.first.now filed.entry.rest.now) after
        → DifferBy (news_in (map entity_said touched.now)) (news_in before) (news_in after)
        → AreChangesBy runs.now stops.now (news_in before) (news_in after) changes) }
{
    let differing = news_of(alloc, touched)?;
    let keys = touched_keys(alloc, differing.as_slice())?;
    near_changes(alloc, runs, stops, admitted, filed, &keys)
}
