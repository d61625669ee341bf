ghost use Rattle.std.specs.Prelude.{◌≡◌, ◌&&◌, ◌||◌, [], ℕ, IfOk, List, OnOk, Some, map, not};
ghost use Rattle.lc_time.specs.Zone.{date_shown};
ghost use Rattle.std.specs.Borrow.{Bor};
ghost use Rattle.std.specs.BTreeSet.{contains};
ghost use Rattle.std.specs.Cmp.Lexicographic.{slice_cmp};
ghost use Rattle.std.specs.List.{Contains};
ghost use Rattle.std.specs.Ordering.{nat_cmp};
ghost use Rattle.lc_model.specs.Change.{is_same_id};
ghost use Rattle.lc_model.specs.Versions.History.{filled};
ghost use Rattle.version_store.specs.Dates.{date_in};
ghost use Rattle.version_store.specs.Kept.{PushesKept, entity_said, survivors, then_all, then_entities};
ghost use Rattle.version_store.specs.Spots.{StayAt};
ghost use Rattle.version_store.specs.declared.kept.Marked.{Marked as StatedMarked};

use crate::spots::Spot;
use lc_model::{EntityNews, Moment, NoMemory, ServiceDate};
use lc_time::{Zone, civil_date};
use std::alloc::Global;
use std::collections::BTreeSet;

/// An entity of a message, where it is, and whether it takes the place of those of its id.
#[derive(Clone, Copy)]
pub(crate) struct Marked<'a> {
    pub(crate) entity: &'a EntityNews,
    pub(crate) spot: Spot,
    pub(crate) replaces: bool,
}

/// The date of a message's moment, which its news get where they say none: the one that the zone's clock shows.
pub fn message_date(zone: &Zone, moment: Moment) -> ServiceDate
    ensures date { result ≡ date_in zone.now moment }
    ensures shown { date_shown zone.now moment ≡ Some result }
{
    civil_date(zone, moment)
}

/// Adds the entities of the message of this number.
pub(crate) fn push_entities<'a>(
    marks: &mut Vec<Marked<'a>>,
    entities: &'a [EntityNews],
    message: usize,
    date: ServiceDate,
    replaces: bool,
) -> Result<(), NoMemory>
    ensures all { OnOk result (then_all [] marks.new.items ≡ then_entities replaces (then_all [] marks.old.items) (map (filled date) entities.now)) }
    ensures at { OnOk result (StayAt message entities.now marks.old.items marks.new.items) }
{
    'entities: for number in 0..entities.len() {
        let spot = Spot {
            message,
            entity: number,
            date,
        };
        marks.push(Marked {
            entity: &entities[number],
            spot,
            replaces,
        })?;
    }
    Ok(())
}

/// Whether one of these is the id. Takes the logarithm of their number.
pub(crate) fn has_id<'a>(ids: &BTreeSet<&'a [u8]>, id: &'a [u8]) -> bool
    ensures { result ≡ contains (λ x y. slice_cmp nat_cmp x.now y.now) ids.now id.entry }
{
    ids.contains(&id)
}

/// Notes the id of an entity that takes the place of others.
fn put_later<'a>(later: &mut BTreeSet<&'a [u8]>, marked: Marked<'a>) -> Result<(), NoMemory>
    ensures { OnOk result ((id : Bor (List ℕ)) → contains (λ x y. slice_cmp nat_cmp x.now y.now) later.new id
        ≡ ((marked.entry.replaces && is_same_id id.now marked.entry.entity.now.id) || contains (λ x y. slice_cmp nat_cmp x.now y.now) later.old id)) }
{
    if marked.replaces {
        later.insert(marked.entity.id())?;
    }
    Ok(())
}

/// Adds an entity, if it has news and is not replaced.
fn push_kept<'a>(
    kept: &mut Vec<Marked<'a>>,
    marked: Marked<'a>,
    replaced: bool,
) -> Result<(), NoMemory>
    ensures { OnOk result (PushesKept replaced marked.entry kept.old.items kept.new.items) }
{
    if replaced {
        return Ok(());
    }
    match marked.entity.news() {
        Some(_) => {
            kept.push(marked)?;
            Ok(())
        }
        None => Ok(()),
    }
}

/// The entities with news that no later one takes out. Takes the time of a sort of the entities.
pub(crate) fn survivors_of<'a>(
    alloc: Global,
    marks: &[Marked<'a>],
) -> Result<Vec<Marked<'a>>, NoMemory>
    ensures said { IfOk result (λ kept. map entity_said kept.items ≡ survivors marks.now) }
    ensures of { IfOk result (λ kept. (m : StatedMarked) → Contains kept.items m → Contains marks.now m) }
{
    let mut kept = Vec::with_capacity(alloc, marks.len())?;
    let mut later = BTreeSet::new(alloc);
    'marks: for place in (0..marks.len()).rev() {
        let marked = marks[place];
        let replaced = has_id(&later, marked.entity.id());
        push_kept(&mut kept, marked, replaced)?;
        put_later(&mut later, marked)?;
    }
    kept.reverse();
    Ok(kept)
}
