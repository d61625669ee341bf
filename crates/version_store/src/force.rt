ghost use Rattle.std.specs.Prelude.{◌≡◌, ◌++◌, [], Bool, ℕ, All, IfOk, List, OnOk, Some, filter, map, true};
ghost use Rattle.std.specs.List.{slice_get};
ghost use Rattle.lc_model.specs.Versions.History.{filled, put_all, with_news};
ghost use Rattle.lc_model.specs.Versions.News.{EntitySaid};
ghost use Rattle.version_store.specs.Filed.{AreOut, HasBy, TakesOut, spots_at, stays};
ghost use Rattle.version_store.specs.Force.{AreInForce, GoesOver, GoesWhole, IsPatch};
ghost use Rattle.version_store.specs.Kept.{entity_said};
ghost use Rattle.version_store.specs.Spots.{IsAtSpot};
ghost use Rattle.version_store.specs.declared.filed.By.{By as StatedBy};
ghost use Rattle.version_store.specs.declared.filed.By.TheVariants.{Id as ById};
ghost use Rattle.version_store.specs.declared.store.Admission.{Admission as StatedAdmission};

use crate::filed::{By, Filed, patch_by};
use crate::kept::Marked;
use crate::store::Admission;
use crate::taken::{all_entities, entities_of_ids, ids_of, own_entities};
use lc_model::{EntityNews, NoMemory, ServiceDate};
use std::alloc::Global;
use std::collections::{BTreeMap, BTreeSet};

/// Where the entities in force are, by their ids and by the trips of their news.
#[derive(Drop)]
pub(crate) struct Force {
    pub(crate) ids: Filed,
    pub(crate) trips: Filed,
}

impl Force {
    /// Where nothing is in force.
    pub(crate) fn new(alloc: Global) -> Force
        ensures ids { (text : List ℕ) → spots_at result.ids text ≡ [] }
        ensures trips { (text : List ℕ) → spots_at result.trips text ≡ [] }
    {
        Force {
            ids: BTreeMap::new(alloc),
            trips: BTreeMap::new(alloc),
        }
    }
}

/// What a message makes of what is in force: the lists that it changes, and the entities that go out or are new.
#[derive(Drop)]
pub(crate) struct Step<'a> {
    pub(crate) patch: Force,
    pub(crate) touched: Vec<Marked<'a>>,
}

/// The lists at the ids and the trips that a message touches, as they are after it.
fn patch_of<'a>(
    alloc: Global,
    admitted: &'a [Admission],
    base: &Force,
    ids: &BTreeSet<&'a [u8]>,
    touched: &[Marked<'a>],
    own: &[Marked<'a>],
) -> Result<Force, NoMemory>
    ensures { IfOk result (λ patch. (out : List ℕ → Bool) (entities : List EntitySaid) → AreOut ids.now out → AreInForce admitted.now base.now entities
        → All (IsAtSpot admitted.now) own.now → with_news (map entity_said own.now) ≡ map entity_said own.now
        → TakesOut out entities (map entity_said touched.now) (map entity_said own.now)
        → IsPatch admitted.now base.now patch (filter (stays out) entities ++ map entity_said own.now)) }
{
    let by_id = patch_by(alloc, admitted, &base.ids, ids, touched, own, By::Id)?;
    let by_trip = patch_by(alloc, admitted, &base.trips, ids, touched, own, By::Trip)?;
    Ok(Force {
        ids: by_id,
        trips: by_trip,
    })
}

/// Adds these at the end.
fn push_marks<'a>(touched: &mut Vec<Marked<'a>>, own: &[Marked<'a>]) -> Result<(), NoMemory>
    ensures { OnOk result (touched.new.items ≡ touched.old.items ++ own.now) }
{
    touched.extend_from_slice(own)?;
    Ok(())
}

/// The entities that a differential message touches: those in force of its ids, and its own. Takes the time of a sort of them.
fn touched_by_ids<'a>(
    alloc: Global,
    admitted: &'a [Admission],
    filed: &Filed,
    ids: &BTreeSet<&[u8]>,
    own: &[Marked<'a>],
) -> Result<Vec<Marked<'a>>, NoMemory>
    ensures { IfOk result (λ touched. (out : List ℕ → Bool) (entities : List EntitySaid) → AreOut ids.now out → HasBy ById admitted.now (spots_at filed.now) entities
        → TakesOut out entities (map entity_said touched.items) (map entity_said own.now)) }
{
    let mut touched = entities_of_ids(alloc, admitted, filed, ids)?;
    push_marks(&mut touched, own)?;
    Ok(touched)
}

/// What the own entities of a differential message make of what is in force, where those of its ids go out.
fn step_by_ids<'a>(
    alloc: Global,
    admitted: &'a [Admission],
    force: &Force,
    ids: &BTreeSet<&'a [u8]>,
    own: &[Marked<'a>],
) -> Result<Step<'a>, NoMemory>
    ensures { IfOk result (λ step. (out : List ℕ → Bool) (entities : List EntitySaid) → AreOut ids.now out → AreInForce admitted.now force.now entities
        → All (IsAtSpot admitted.now) own.now → with_news (map entity_said own.now) ≡ map entity_said own.now
        → GoesOver admitted.now force.now step entities (filter (stays out) entities ++ map entity_said own.now)) }
{
    let touched = touched_by_ids(alloc, admitted, &force.ids, ids, own)?;
    let patch = patch_of(alloc, admitted, force, ids, touched.as_slice(), own)?;
    Ok(Step { patch, touched })
}

/// What a differential message makes of what is in force. Takes the time of a sort of the message, and of the lists at its ids and trips.
pub(crate) fn step_over<'a>(
    alloc: Global,
    admitted: &'a [Admission],
    force: &Force,
    entities: &'a [EntityNews],
    message: usize,
    date: ServiceDate,
) -> Result<Step<'a>, NoMemory>
    ensures { IfOk result (λ step. (before : List EntitySaid) (a : StatedAdmission) → AreInForce admitted.now force.now before → slice_get admitted.now message ≡ Some a
        → a.update.entities ≡ entities.now → GoesOver admitted.now force.now step before (put_all before (map (filled date) entities.now))) }
{
    let ids = ids_of(alloc, entities)?;
    let own = own_entities(alloc, entities, message, date, true)?;
    step_by_ids(alloc, admitted, force, &ids, own.as_slice())
}

/// The entities that a full message touches: all that were in force, and its own. Linear in them.
fn touched_by_all<'a>(
    alloc: Global,
    admitted: &'a [Admission],
    filed: &Filed,
    own: &[Marked<'a>],
) -> Result<Vec<Marked<'a>>, NoMemory>
    ensures { IfOk result (λ touched. (by : StatedBy) (entities : List EntitySaid) → HasBy by admitted.now (spots_at filed.now) entities
        → TakesOut (λ id. true) entities (map entity_said touched.items) (map entity_said own.now)) }
{
    let mut touched = all_entities(alloc, admitted, filed)?;
    push_marks(&mut touched, own)?;
    Ok(touched)
}

/// The lists at the ids and the trips of these entities alone.
fn patch_alone<'a>(
    alloc: Global,
    admitted: &'a [Admission],
    own: &[Marked<'a>],
) -> Result<Force, NoMemory>
    ensures { IfOk result (λ patch. All (IsAtSpot admitted.now) own.now → with_news (map entity_said own.now) ≡ map entity_said own.now
        → AreInForce admitted.now patch (map entity_said own.now)) }
{
    let empty = Force::new(alloc);
    let none = BTreeSet::new(alloc);
    patch_of(alloc, admitted, &empty, &none, own, own)
}

/// What the own entities of a full message make of what is in force, where all that was goes out.
fn step_by_all<'a>(
    alloc: Global,
    admitted: &'a [Admission],
    force: &Force,
    own: &[Marked<'a>],
) -> Result<Step<'a>, NoMemory>
    ensures { IfOk result (λ step. (entities : List EntitySaid) → AreInForce admitted.now force.now entities
        → All (IsAtSpot admitted.now) own.now → with_news (map entity_said own.now) ≡ map entity_said own.now
        → GoesWhole admitted.now step entities (map entity_said own.now)) }
{
    let touched = touched_by_all(alloc, admitted, &force.trips, own)?;
    let patch = patch_alone(alloc, admitted, own)?;
    Ok(Step { patch, touched })
}

/// What a full message makes of what is in force. Takes the time of a sort of the message, and is linear in what is in force.
pub(crate) fn step_whole<'a>(
    alloc: Global,
    admitted: &'a [Admission],
    force: &Force,
    entities: &'a [EntityNews],
    message: usize,
    date: ServiceDate,
) -> Result<Step<'a>, NoMemory>
    ensures { IfOk result (λ step. (before : List EntitySaid) (a : StatedAdmission) → AreInForce admitted.now force.now before → slice_get admitted.now message ≡ Some a
        → a.update.entities ≡ entities.now → GoesWhole admitted.now step before (with_news (map (filled date) entities.now))) }
{
    let own = own_entities(alloc, entities, message, date, false)?;
    step_by_all(alloc, admitted, force, own.as_slice())
}
