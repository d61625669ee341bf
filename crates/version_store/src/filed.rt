ghost use Rattle.std.specs.Prelude.{◌≡◌, ◌++◌, ◌∷◌, [], Bool, ℕ, All, IfOk, List, OnOk, filter, map};
ghost use Rattle.lc_model.specs.Versions.News.{EntitySaid};
ghost use Rattle.version_store.specs.Filed.{AreOut, ArePart, HasBy, HasListsBy, HasListsOf, IsSomeAt, PushesAllAt, PushesAt, TakesOut, spots_at, spots_over, stays, stays_at, text_by};
ghost use Rattle.version_store.specs.Kept.{entity_said};
ghost use Rattle.version_store.specs.Spots.{IsAtSpot};
ghost use Rattle.version_store.specs.declared.filed.By.{By as StatedBy};
ghost use Rattle.version_store.specs.declared.filed.By.TheVariants.{Trip as ByTrip};

use crate::kept::{Marked, has_id};
use crate::label::Label;
use crate::spots::{Spot, Spots, entity_at};
use crate::store::Admission;
use lc_model::{EntityNews, NoMemory};
use std::alloc::Global;
use std::collections::{BTreeMap, BTreeSet};

/// Where entities are, by a text of theirs.
pub(crate) type Filed = BTreeMap<Label, Spots>;

/// The text by which entities are filed: their id, or the trip of their news.
#[derive(Clone, Copy)]
pub(crate) enum By {
    Id,
    Trip,
}

/// The trip of the news of an entity. It is empty where there are none.
fn trip_of(entity: &EntityNews) -> &[u8]
    ensures { result.now ≡ text_by ByTrip entity.now }
{
    match entity.news() {
        Some(news) => news.trip.as_slice(),
        None => &[],
    }
}

/// The text of an entity.
fn text_of(by: By, entity: &EntityNews) -> &[u8]
    ensures { result.now ≡ text_by by entity.now }
{
    match by {
        By::Id => entity.id(),
        By::Trip => trip_of(entity),
    }
}

/// The spots at a label. Takes the logarithm of the labels.
pub(crate) fn spots_at<'a>(filed: &'a Filed, label: &Label) -> &'a [Spot]
    ensures { result.now ≡ spots_at filed.now label.now }
{
    match filed.get(label) {
        Some(spots) => spots.as_slice(),
        None => &[],
    }
}

/// The spots at a label: those of the first map, and those of the other one where the first has no list there.
pub(crate) fn spots_over<'a>(first: &'a Filed, base: &'a Filed, label: &Label) -> &'a [Spot]
    ensures { result.now ≡ spots_over first.now base.now label.now }
{
    match first.get(label) {
        Some(spots) => spots.as_slice(),
        None => spots_at(base, label),
    }
}

/// Adds a spot, unless the id of the entity there is one of those that go out.
fn push_staying<'a>(
    kept: &mut Spots,
    admitted: &'a [Admission],
    ids: &BTreeSet<&'a [u8]>,
    spot: Spot,
) -> Result<(), NoMemory>
    ensures { OnOk result ((out : List ℕ → Bool) → AreOut ids.now out → kept.new ≡ kept.old ++ filter (stays_at admitted.now out) (spot ∷ [])) }
{
    let Some(entity) = entity_at(admitted, spot) else {
        return Ok(());
    };
    if has_id(ids, entity.id()) {
        return Ok(());
    }
    kept.push(spot)
}

/// Of these spots those of entities that stay. Each takes the logarithm of the ids that go out.
fn staying<'a>(
    alloc: Global,
    admitted: &'a [Admission],
    spots: &[Spot],
    ids: &BTreeSet<&'a [u8]>,
) -> Result<Spots, NoMemory>
    ensures { IfOk result (λ kept. (out : List ℕ → Bool) → AreOut ids.now out → kept ≡ filter (stays_at admitted.now out) spots.now) }
{
    let mut kept = Spots::new(alloc);
    'spots: for spot in spots {
        push_staying(&mut kept, admitted, ids, *spot)?;
    }
    Ok(kept)
}

/// Puts a list at a text, unless there is one: the spots of that text whose entities stay.
fn put_staying<'a>(
    alloc: Global,
    patch: &mut Filed,
    admitted: &'a [Admission],
    base: &Filed,
    ids: &BTreeSet<&'a [u8]>,
    text: &[u8],
) -> Result<(), NoMemory>
    ensures has { OnOk result (IsSomeAt patch.new text.now) }
    ensures stay { OnOk result (HasListsOf patch.old patch.new) }
    ensures part { OnOk result ((by : StatedBy) (out : List ℕ → Bool) (entities : List EntitySaid) → AreOut ids.now out
        → HasBy by admitted.now (spots_at base.now) entities → ArePart by admitted.now out entities patch.old → ArePart by admitted.now out entities patch.new) }
{
    let label = Label::new(alloc, text)?;
    if patch.contains_key(&label) {
        return Ok(());
    }
    let kept = staying(alloc, admitted, spots_at(base, &label), ids)?;
    patch.insert(label, kept)?;
    Ok(())
}

/// Puts such a list at the text of each of these entities.
fn put_all_staying<'a>(
    alloc: Global,
    patch: &mut Filed,
    admitted: &'a [Admission],
    base: &Filed,
    ids: &BTreeSet<&'a [u8]>,
    touched: &[Marked<'_>],
    by: By,
) -> Result<(), NoMemory>
    ensures has { OnOk result (HasListsBy by (map entity_said touched.now) patch.new) }
    ensures part { OnOk result ((out : List ℕ → Bool) (entities : List EntitySaid) → AreOut ids.now out
        → HasBy by admitted.now (spots_at base.now) entities → ArePart by admitted.now out entities patch.old → ArePart by admitted.now out entities patch.new) }
{
    'touched: for marked in touched {
        put_staying(
            alloc,
            patch,
            admitted,
            base,
            ids,
            text_of(by, marked.entity),
        )?;
    }
    Ok(())
}

/// Adds a spot to the list at a text, if there is one.
fn push_at(alloc: Global, patch: &mut Filed, text: &[u8], spot: Spot) -> Result<(), NoMemory>
    ensures { OnOk result (PushesAt text.now spot patch.old patch.new) }
{
    let label = Label::new(alloc, text)?;
    let Some(spots) = patch.remove(&label) else {
        return Ok(());
    };
    let mut list = spots;
    list.push(spot)?;
    patch.insert(label, list)?;
    Ok(())
}

/// Adds the spots of these entities to the lists at their texts, where there are some.
fn push_all(alloc: Global, patch: &mut Filed, own: &[Marked<'_>], by: By) -> Result<(), NoMemory>
    ensures { OnOk result (PushesAllAt by own.now patch.old patch.new) }
{
    'own: for marked in own {
        push_at(alloc, patch, text_of(by, marked.entity), marked.spot)?;
    }
    Ok(())
}

/// The lists at the texts that a message touches, as they are after it: of those before it the ones that stay, and then its own. It takes the
/// time of these lists, and of a sort of the entities that are touched.
pub(crate) fn patch_by<'a>(
    alloc: Global,
    admitted: &'a [Admission],
    base: &Filed,
    ids: &BTreeSet<&'a [u8]>,
    touched: &[Marked<'_>],
    own: &[Marked<'_>],
    by: By,
) -> Result<Filed, NoMemory>
    ensures { IfOk result (λ patch. (out : List ℕ → Bool) (entities : List EntitySaid) → AreOut ids.now out
        → HasBy by admitted.now (spots_at base.now) entities → All (IsAtSpot admitted.now) own.now
        → TakesOut out entities (map entity_said touched.now) (map entity_said own.now)
        → HasBy by admitted.now (spots_over patch base.now) (filter (stays out) entities ++ map entity_said own.now)) }
{
    let mut patch = BTreeMap::new(alloc);
    put_all_staying(alloc, &mut patch, admitted, base, ids, touched, by)?;
    push_all(alloc, &mut patch, own, by)?;
    Ok(patch)
}
