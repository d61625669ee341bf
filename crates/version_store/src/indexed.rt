ghost use Rattle.std.specs.Prelude.{◌≡◌, ◌<◌, [], All, IfOk, List, OnErr, OnOk, Some, map};
ghost use Rattle.std.specs.List.{slice_get};
ghost use Rattle.std.specs.Option.{option_copied};
ghost use Rattle.version_store.specs.IndexLaws.Kept.{news_in};
ghost use Rattle.lc_model.specs.Call.{InSequence};
ghost use Rattle.lc_model.specs.Run.{InKeyOrder};
ghost use Rattle.lc_model.specs.Text.{IsIdText};
ghost use Rattle.lc_model.specs.declared.run.Run.{Run as StatedRun};
ghost use Rattle.lc_model.specs.declared.stop.Stop.{Stop as StatedStop};
ghost use Rattle.lc_model.specs.Versions.History.{filled, kept_after, put_all, with_news};
ghost use Rattle.lc_model.specs.Versions.News.{EntitySaid};
ghost use Rattle.lc_model.specs.Versions.Timetable.{AreLiveRuns};
ghost use Rattle.version_store.specs.Index.Spans.{runs_at};
ghost use Rattle.version_store.specs.Index.Updates.{IsSame};
ghost use Rattle.version_store.specs.Changes.{GoesOn, HasTurned, IsUpdatedBy};
ghost use Rattle.version_store.specs.Dates.{date_in};
ghost use Rattle.version_store.specs.Differing.{DifferBy};
ghost use Rattle.version_store.specs.Filed.{HasBy, spots_at, spots_over};
ghost use Rattle.version_store.specs.Force.{AreInForce, GoesOver, GoesWhole, HasRoomFor, IsForceAlike, IsPatch};
ghost use Rattle.version_store.specs.Further.{GoForward};
ghost use Rattle.version_store.specs.Kept.{entity_said};
ghost use Rattle.version_store.specs.declared.filed.By.TheVariants.{Trip as ByTrip};
ghost use Rattle.version_store.specs.declared.store.Admission.{Admission as StatedAdmission};

use crate::changes::{Changes, changes_of};
use crate::exchange::{make_room, put_patch};
use crate::force::{Force, Step, step_over, step_whole};
use crate::index::Index;
use crate::kept::{Marked, message_date};
use crate::live_runs::{base_runs, runs_in};
use crate::near::FiledTrips;
use crate::store::Admission;
use lc_model::{EntityNews, NoMemory, Runs, ServiceDate, Stops};
use lc_time::Zone;
use std::alloc::Global;

/// The index of the base version alone. Takes the time of a sort of the runs and of their connections.
pub(crate) fn base_index(alloc: Global, runs: &Runs) -> Result<Index, NoMemory>
    ensures newest { IfOk result (λ index. index.newest ≡ 0) }
    ensures runs { IfOk result (λ index. (stops : List StatedStop) → AreLiveRuns runs.now stops [] (runs_at index 0)) }
    ensures trips { OnOk result (All (λ (r : StatedRun). IsIdText r.key.trip) runs.now) }
    ensures calls { OnOk result (All (λ (r : StatedRun). InSequence r.calls) runs.now) }
{
    Index::new(alloc, base_runs(alloc, runs.as_slice())?)
}

/// Adds a version to an index, by these changes of the newest one. After a refusal each version is as it was.
fn update_by(alloc: Global, index: &mut Index, changes: Changes) -> Result<(), NoMemory>
    requires room { index.old.newest < 4_294_967_295 }
    requires forward { GoForward changes.begun }
    ensures ok { OnOk result (IsUpdatedBy changes index.old index.new) }
    ensures err { OnErr result (IsSame index.old index.new) }
{
    let Changes { ended, begun } = changes;
    let begun = runs_in(alloc, begun)?;
    index.update(alloc, ended, begun)
}

/// Adds a version to an index: what changes from what was in force before a message to what is after it, by the entities that it touches.
/// After a refusal each version is as it was.
fn turn(
    alloc: Global,
    index: &mut Index,
    runs: &Runs,
    stops: &Stops,
    admitted: &[Admission],
    touched: &[Marked<'_>],
    filed: FiledTrips<'_>,
) -> Result<(), NoMemory>
    requires room { index.old.newest < 4_294_967_295 }
    requires in_order { InKeyOrder runs.now }
    requires trips { All (λ (r : StatedRun). IsIdText r.key.trip) runs.now }
    ensures ok { OnOk result ((before after : List EntitySaid) → HasBy ByTrip admitted.now (spots_at filed.entry.before.now) before
        → HasBy ByTrip admitted.now (spots_over filed.entry.first.now filed.entry.rest.now) after
        → DifferBy (news_in (map entity_said touched.now)) (news_in before) (news_in after)
        → HasTurned runs.now stops.now (news_in before) (news_in after) index.old index.new) }
    ensures err { OnErr result (IsSame index.old index.new) }
{
    let changes = changes_of(alloc, runs, stops, admitted, touched, filed)?;
    update_by(alloc, index, changes)
}

/// Adds the version of a step to an index, where the step has the lists that change. It takes all memory that the step needs, and the last of it for
/// the index. The spots at each id and each trip are as before, also where memory runs out.
fn turn_over(
    alloc: Global,
    index: &mut Index,
    runs: &Runs,
    stops: &Stops,
    admitted: &[Admission],
    force: &mut Force,
    step: &Step<'_>,
) -> Result<(), NoMemory>
    requires room { index.old.newest < 4_294_967_295 }
    requires in_order { InKeyOrder runs.now }
    requires trips { All (λ (r : StatedRun). IsIdText r.key.trip) runs.now }
    ensures alike { IsForceAlike force.old force.new }
    ensures has { OnOk result (HasRoomFor step.now.patch force.new) }
    ensures ok { OnOk result ((before after : List EntitySaid) → AreInForce admitted.now force.old before → GoesOver admitted.now force.old step.now before after
        → HasTurned runs.now stops.now (news_in before) (news_in after) index.old index.new) }
    ensures err { OnErr result (IsSame index.old index.new) }
{
    make_room(alloc, &mut force.ids, &step.patch.ids)?;
    make_room(alloc, &mut force.trips, &step.patch.trips)?;
    let filed = FiledTrips {
        before: &force.trips,
        first: &step.patch.trips,
        rest: &force.trips,
    };
    turn(
        alloc,
        index,
        runs,
        stops,
        admitted,
        step.touched.as_slice(),
        filed,
    )
}

/// Adds the version of a step to an index, where the step has all that is in force.
fn turn_whole(
    alloc: Global,
    index: &mut Index,
    runs: &Runs,
    stops: &Stops,
    admitted: &[Admission],
    force: &Force,
    step: &Step<'_>,
) -> Result<(), NoMemory>
    requires room { index.old.newest < 4_294_967_295 }
    requires in_order { InKeyOrder runs.now }
    requires trips { All (λ (r : StatedRun). IsIdText r.key.trip) runs.now }
    ensures ok { OnOk result ((before after : List EntitySaid) → AreInForce admitted.now force.now before → GoesWhole admitted.now step.now before after
        → HasTurned runs.now stops.now (news_in before) (news_in after) index.old index.new) }
    ensures err { OnErr result (IsSame index.old index.new) }
{
    let filed = FiledTrips {
        before: &force.trips,
        first: &step.patch.trips,
        rest: &step.patch.trips,
    };
    turn(
        alloc,
        index,
        runs,
        stops,
        admitted,
        step.touched.as_slice(),
        filed,
    )
}

/// Puts the lists of a patch in their places, which takes no memory where there is room for them.
fn put_force(force: &mut Force, patch: Force)
    ensures { HasRoomFor patch force.old → (admitted : List StatedAdmission) (entities : List EntitySaid) → IsPatch admitted force.old patch entities
        → AreInForce admitted force.new entities }
{
    let Force { ids, trips } = patch;
    put_patch(&mut force.ids, ids);
    put_patch(&mut force.trips, trips);
}

/// Adds the version of a differential message to an index, and makes its entities part of what is in force.
fn take_differential(
    alloc: Global,
    index: &mut Index,
    runs: &Runs,
    stops: &Stops,
    admitted: &[Admission],
    force: &mut Force,
    entities: &[EntityNews],
    message: usize,
    date: ServiceDate,
) -> Result<(), NoMemory>
    requires room { index.old.newest < 4_294_967_295 }
    requires in_order { InKeyOrder runs.now }
    requires trips { All (λ (r : StatedRun). IsIdText r.key.trip) runs.now }
    ensures ok { OnOk result ((before : List EntitySaid) (a : StatedAdmission) → AreInForce admitted.now force.old before → slice_get admitted.now message ≡ Some a
        → a.update.entities ≡ entities.now
        → GoesOn runs.now stops.now admitted.now before (put_all before (map (filled date) entities.now)) force.new index.old index.new) }
    ensures alike { OnErr result (IsForceAlike force.old force.new) }
    ensures err { OnErr result (IsSame index.old index.new) }
{
    let step = step_over(alloc, admitted, force, entities, message, date)?;
    turn_over(alloc, index, runs, stops, admitted, force, &step)?;
    put_force(force, step.patch);
    Ok(())
}

/// Adds the version of a full message to an index, and makes its entities all that is in force.
fn take_full(
    alloc: Global,
    index: &mut Index,
    runs: &Runs,
    stops: &Stops,
    admitted: &[Admission],
    force: &mut Force,
    entities: &[EntityNews],
    message: usize,
    date: ServiceDate,
) -> Result<(), NoMemory>
    requires room { index.old.newest < 4_294_967_295 }
    requires in_order { InKeyOrder runs.now }
    requires trips { All (λ (r : StatedRun). IsIdText r.key.trip) runs.now }
    ensures ok { OnOk result ((before : List EntitySaid) (a : StatedAdmission) → AreInForce admitted.now force.old before → slice_get admitted.now message ≡ Some a
        → a.update.entities ≡ entities.now
        → GoesOn runs.now stops.now admitted.now before (with_news (map (filled date) entities.now)) force.new index.old index.new) }
    ensures alike { OnErr result (IsForceAlike force.old force.new) }
    ensures err { OnErr result (IsSame index.old index.new) }
{
    let step = step_whole(alloc, admitted, force, entities, message, date)?;
    turn_whole(alloc, index, runs, stops, admitted, force, &step)?;
    *force = step.patch;
    Ok(())
}

/// The message of a number, if there is one.
fn admission_at<'a>(admitted: &'a [Admission], message: usize) -> Option<&'a Admission>
    ensures { option_copied result ≡ slice_get admitted.now message }
{
    admitted.get(message)
}

/// Adds the version of the message of this number to an index of those before it, and sees to what is in force then. It takes the time of a
/// sort of the message, and for each key that the message touches the logarithm of what is in force and of the runs, and the time of its calls
/// and of the news of its trip. A full message takes the time of what was in force, too. After a refusal each version is as it was.
pub(crate) fn turn_to(
    alloc: Global,
    index: &mut Index,
    runs: &Runs,
    stops: &Stops,
    zone: &Zone,
    admitted: &[Admission],
    force: &mut Force,
    message: usize,
) -> Result<(), NoMemory>
    requires room { index.old.newest < 4_294_967_295 }
    requires in_order { InKeyOrder runs.now }
    requires trips { All (λ (r : StatedRun). IsIdText r.key.trip) runs.now }
    ensures ok { OnOk result ((before : List EntitySaid) (a : StatedAdmission) → AreInForce admitted.now force.old before → slice_get admitted.now message ≡ Some a
        → GoesOn runs.now stops.now admitted.now before (kept_after (date_in zone.now) before a.update) force.new index.old index.new) }
    ensures alike { OnErr result (IsForceAlike force.old force.new) }
    ensures err { OnErr result (IsSame index.old index.new) }
{
    let Some(admission) = admission_at(admitted, message) else {
        return Ok(());
    };
    let update = &admission.update;
    let entities = update.entities.as_slice();
    let date = message_date(zone, update.moment);
    if update.full {
        return take_full(
            alloc, index, runs, stops, admitted, force, entities, message, date,
        );
    }
    take_differential(
        alloc, index, runs, stops, admitted, force, entities, message, date,
    )
}
