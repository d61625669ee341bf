ghost use Rattle.std.specs.Prelude.{◌≡◌, ◌++◌, [], Bool, ℕ, All, IfOk, List, OnOk, Some, filter, map, true};
ghost use Rattle.std.specs.List.{Contains, slice_get};
ghost use Rattle.version_store.specs.IndexLaws.Kept.{has_id};
ghost use Rattle.lc_model.specs.Versions.History.{filled, with_news};
ghost use Rattle.lc_model.specs.Versions.News.{EntitySaid};
ghost use Rattle.version_store.specs.Filed.{AreOut, HasBy, PutsText, is_by, spots_at};
ghost use Rattle.version_store.specs.Kept.{entity_said, then_entities};
ghost use Rattle.version_store.specs.Spots.{IsAtSpot};
ghost use Rattle.version_store.specs.declared.filed.By.{By as StatedBy};
ghost use Rattle.version_store.specs.declared.filed.By.TheVariants.{Id as ById};
ghost use Rattle.version_store.specs.declared.store.Admission.{Admission as StatedAdmission};

use crate::filed::{Filed, spots_at};
use crate::kept::{Marked, push_entities, survivors_of};
use crate::label::Label;
use crate::spots::push_all_spots;
use crate::store::Admission;
use lc_model::{EntityNews, NoMemory, ServiceDate};
use std::alloc::Global;
use std::collections::BTreeSet;

/// Puts the id of an entity.
fn put_id<'a>(ids: &mut BTreeSet<&'a [u8]>, entity: &'a EntityNews) -> Result<(), NoMemory>
    ensures { OnOk result (PutsText entity.now.id ids.old ids.new) }
{
    ids.insert(entity.id())?;
    Ok(())
}

/// The ids of a message. Takes the time of a sort of them.
pub(crate) fn ids_of<'a>(
    alloc: Global,
    entities: &'a [EntityNews],
) -> Result<BTreeSet<&'a [u8]>, NoMemory>
    ensures { IfOk result (λ ids. AreOut ids (λ id. has_id id entities.now)) }
{
    let mut ids = BTreeSet::new(alloc);
    'entities: for entity in entities {
        put_id(&mut ids, entity)?;
    }
    Ok(ids)
}

/// The entities of a message that are in force after it, if those before it are not counted. Takes the time of a sort of them.
pub(crate) fn own_entities<'a>(
    alloc: Global,
    entities: &'a [EntityNews],
    message: usize,
    date: ServiceDate,
    replaces: bool,
) -> Result<Vec<Marked<'a>>, NoMemory>
    ensures said { IfOk result (λ own. map entity_said own.items ≡ then_entities replaces [] (map (filled date) entities.now)) }
    ensures at { IfOk result (λ own. (admitted : List StatedAdmission) (a : StatedAdmission) → slice_get admitted message ≡ Some a → a.update.entities ≡ entities.now → All (IsAtSpot admitted) own.items) }
    ensures news { IfOk result (λ own. with_news (map entity_said own.items) ≡ map entity_said own.items) }
{
    let mut marks = Vec::with_capacity(alloc, entities.len())?;
    push_entities(&mut marks, entities, message, date, replaces)?;
    survivors_of(alloc, marks.as_slice())
}

/// Adds the entities at an id.
fn push_entities_of_id<'a>(
    alloc: Global,
    gone: &mut Vec<Marked<'a>>,
    admitted: &'a [Admission],
    filed: &Filed,
    id: &[u8],
) -> Result<(), NoMemory>
    ensures { OnOk result ((entities : List EntitySaid) → HasBy ById admitted.now (spots_at filed.now) entities
        → map entity_said gone.new.items ≡ map entity_said gone.old.items ++ filter (is_by ById id.now) entities) }
{
    let label = Label::new(alloc, id)?;
    push_all_spots(gone, admitted, spots_at(filed, &label))
}

/// The entities in force of some ids. Takes the logarithm of the ids in force for each id, and the time of the entities.
pub(crate) fn entities_of_ids<'a>(
    alloc: Global,
    admitted: &'a [Admission],
    filed: &Filed,
    ids: &BTreeSet<&[u8]>,
) -> Result<Vec<Marked<'a>>, NoMemory>
    ensures { IfOk result (λ gone. (out : List ℕ → Bool) (entities : List EntitySaid) → AreOut ids.now out → HasBy ById admitted.now (spots_at filed.now) entities
        → (e : EntitySaid) → Contains entities e → out e.id ≡ true → Contains (map entity_said gone.items) e) }
{
    let mut gone = Vec::new(alloc);
    for id in ids {
        push_entities_of_id(alloc, &mut gone, admitted, filed, *id)?;
    }
    Ok(gone)
}

/// All entities in force. Linear in them.
pub(crate) fn all_entities<'a>(
    alloc: Global,
    admitted: &'a [Admission],
    filed: &Filed,
) -> Result<Vec<Marked<'a>>, NoMemory>
    ensures { IfOk result (λ gone. (by : StatedBy) (entities : List EntitySaid) → HasBy by admitted.now (spots_at filed.now) entities
        → (e : EntitySaid) → Contains entities e → Contains (map entity_said gone.items) e) }
{
    let mut gone = Vec::new(alloc);
    for (_, spots) in filed {
        push_all_spots(&mut gone, admitted, spots.as_slice())?;
    }
    Ok(gone)
}
