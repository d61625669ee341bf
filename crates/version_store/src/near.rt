ghost use Rattle.std.specs.Prelude.{◌≡◌, ◌++◌, IfOk, List, OnOk, Some, map, option_to_list};
ghost use Rattle.version_store.specs.IndexLaws.Kept.{news_in};
ghost use Rattle.lc_model.specs.Versions.News.{EntitySaid};
ghost use Rattle.version_store.specs.Filed.{HasBy, spots_at, spots_over};
ghost use Rattle.version_store.specs.Kept.{news_said};
ghost use Rattle.version_store.specs.NearNews.{AreNear, PushesNear};
ghost use Rattle.version_store.specs.Spots.{said_in};
ghost use Rattle.version_store.specs.declared.filed.By.TheVariants.{Trip as ByTrip};

use crate::dated::DatedNews;
use crate::filed::{Filed, spots_at, spots_over};
use crate::label::Label;
use crate::spots::{Spot, marked_at, push_news};
use crate::store::Admission;
use lc_model::NoMemory;
use std::alloc::Global;
use std::collections::BTreeSet;

/// The news of some trips before a message and after it.
#[derive(Drop)]
pub(crate) struct NearNews<'a> {
    pub(crate) old: Vec<DatedNews<'a>>,
    pub(crate) new: Vec<DatedNews<'a>>,
}

/// Where the entities in force are, by the trips of their news. Before a message they are in `before`. After it they are in `first`, and at a trip
/// that `first` does not have in `rest`.
#[derive(Clone, Copy)]
pub(crate) struct FiledTrips<'a> {
    pub(crate) before: &'a Filed,
    pub(crate) first: &'a Filed,
    pub(crate) rest: &'a Filed,
}

/// Adds the news of the entity at a spot, if there are some.
fn push_news_at<'a>(
    news: &mut Vec<DatedNews<'a>>,
    admitted: &'a [Admission],
    spot: Spot,
) -> Result<(), NoMemory>
    ensures { OnOk result (map news_said news.new.items ≡ map news_said news.old.items ++ news_in (option_to_list (said_in admitted.now spot))) }
{
    match marked_at(admitted, spot) {
        Some(marked) => push_news(news, marked),
        None => Ok(()),
    }
}

/// Adds the news of the entities at these spots. Linear in them.
fn push_news_of<'a>(
    news: &mut Vec<DatedNews<'a>>,
    admitted: &'a [Admission],
    spots: &[Spot],
) -> Result<(), NoMemory>
    ensures { OnOk result ((entities : List EntitySaid) → map (said_in admitted.now) spots.now ≡ map Some entities
        → map news_said news.new.items ≡ map news_said news.old.items ++ news_in entities) }
{
    'spots: for spot in spots {
        push_news_at(news, admitted, *spot)?;
    }
    Ok(())
}

/// Adds the news of a trip, those before the message and those after it.
fn push_near<'a>(
    alloc: Global,
    near: &mut NearNews<'a>,
    admitted: &'a [Admission],
    filed: FiledTrips<'_>,
    trip: &[u8],
) -> Result<(), NoMemory>
    ensures { OnOk result ((before after : List EntitySaid) → HasBy ByTrip admitted.now (spots_at filed.entry.before.now) before
        → HasBy ByTrip admitted.now (spots_over filed.entry.first.now filed.entry.rest.now) after → PushesNear trip.now before after near.entry.now near.exit.now) }
{
    let label = Label::new(alloc, trip)?;
    push_news_of(&mut near.old, admitted, spots_at(filed.before, &label))?;
    push_news_of(
        &mut near.new,
        admitted,
        spots_over(filed.first, filed.rest, &label),
    )
}

/// The news of these trips, before a message and after it. Takes the logarithm of the trips in force for each trip, and is linear in the news.
pub(crate) fn near_news<'a>(
    alloc: Global,
    admitted: &'a [Admission],
    filed: FiledTrips<'_>,
    trips: BTreeSet<&[u8]>,
) -> Result<NearNews<'a>, NoMemory>
    ensures { IfOk result (λ near. (before after : List EntitySaid) → HasBy ByTrip admitted.now (spots_at filed.entry.before.now) before
        → HasBy ByTrip admitted.now (spots_over filed.entry.first.now filed.entry.rest.now) after → AreNear trips.entry before after near) }
{
    let mut near = NearNews {
        old: Vec::new(alloc),
        new: Vec::new(alloc),
    };
    let mut trips = trips;
    'trips: while let Some(trip) = trips.pop_first() {
        push_near(alloc, &mut near, admitted, filed, trip)?;
    }
    Ok(near)
}
