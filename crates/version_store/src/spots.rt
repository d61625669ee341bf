ghost use Rattle.std.specs.Prelude.{◌≡◌, ◌++◌, ◌∷◌, [], IfOk, List, OnOk, Some, map, option_map, option_to_list};
ghost use Rattle.std.specs.List.{filter_map};
ghost use Rattle.std.specs.Option.{option_copied};
ghost use Rattle.version_store.specs.IndexLaws.Kept.{news_in};
ghost use Rattle.lc_model.specs.Versions.History.{filled};
ghost use Rattle.version_store.specs.Kept.{entity_said, news_said};
ghost use Rattle.version_store.specs.Spots.{said_in};

use crate::dated::{DatedNews, dated_news};
use crate::kept::Marked;
use crate::store::Admission;
use lc_model::{EntityNews, NoMemory, ServiceDate};
use std::alloc::Global;
use std::marker::Model;

/// Where an entity is: the number of its message, its own number there, and the date of the message.
#[derive(Clone, Copy)]
pub(crate) struct Spot {
    pub(crate) message: usize,
    pub(crate) entity: usize,
    pub(crate) date: ServiceDate,
}

/// Where some entities are. A contract sees the list.
#[derive(Drop)]
pub(crate) struct Spots {
    list: Vec<Spot>,
}

impl Model for Spots {
    ghost use Rattle.std.specs.Prelude.{List};
    ghost use Rattle.version_store.specs.declared.spots.Spot.{Spot};

    ghost Value = { List Spot };

    ghost view = { λ s. s.list.items };
}

impl Spots {
    pub(crate) fn new(alloc: Global) -> Spots
        ensures { result ≡ [] }
    {
        Spots {
            list: Vec::new(alloc),
        }
    }

    pub(crate) fn as_slice(&self) -> &[Spot]
        ensures { result.now ≡ self.now }
    {
        self.list.as_slice()
    }

    pub(crate) fn push(&mut self, spot: Spot) -> Result<(), NoMemory>
        ensures { OnOk result (self.new ≡ self.old ++ spot ∷ []) }
    {
        self.list.push(spot)?;
        Ok(())
    }
}

/// The entity at a spot, if there is one.
pub(crate) fn entity_at<'a>(admitted: &'a [Admission], spot: Spot) -> Option<&'a EntityNews>
    ensures { option_map (filled spot.date) (option_copied result) ≡ said_in admitted.now spot }
{
    match admitted.get(spot.message) {
        Some(admission) => admission.update.entities.as_slice().get(spot.entity),
        None => None,
    }
}

/// The entity at a spot, if there is one, as one that takes the place of no other.
pub(crate) fn marked_at<'a>(admitted: &'a [Admission], spot: Spot) -> Option<Marked<'a>>
    ensures { option_map entity_said result ≡ said_in admitted.now spot }
{
    match entity_at(admitted, spot) {
        Some(entity) => Some(Marked {
            entity,
            spot,
            replaces: false,
        }),
        None => None,
    }
}

/// Adds the entity at a spot, if there is one.
fn push_spot<'a>(
    marks: &mut Vec<Marked<'a>>,
    admitted: &'a [Admission],
    spot: Spot,
) -> Result<(), NoMemory>
    ensures { OnOk result (map entity_said marks.new.items ≡ map entity_said marks.old.items ++ option_to_list (said_in admitted.now spot)) }
{
    match marked_at(admitted, spot) {
        Some(marked) => {
            marks.push(marked)?;
            Ok(())
        }
        None => Ok(()),
    }
}

/// Adds the entities at these spots. Linear in them.
pub(crate) fn push_all_spots<'a>(
    marks: &mut Vec<Marked<'a>>,
    admitted: &'a [Admission],
    spots: &[Spot],
) -> Result<(), NoMemory>
    ensures { OnOk result (map entity_said marks.new.items ≡ map entity_said marks.old.items ++ filter_map (said_in admitted.now) spots.now) }
{
    'spots: for spot in spots {
        push_spot(marks, admitted, *spot)?;
    }
    Ok(())
}

/// Adds the news of an entity, if it has some.
pub(crate) fn push_news<'a>(
    news: &mut Vec<DatedNews<'a>>,
    marked: Marked<'a>,
) -> Result<(), NoMemory>
    ensures { OnOk result (map news_said news.new.items ≡ map news_said news.old.items ++ option_to_list (entity_said marked.entry).news) }
{
    if let Some(said) = marked.entity.news() {
        news.push(dated_news(said, marked.spot.date))?;
    }
    Ok(())
}

/// Adds the news of these. Linear in them.
pub(crate) fn push_all_news<'a>(
    news: &mut Vec<DatedNews<'a>>,
    marks: &[Marked<'a>],
) -> Result<(), NoMemory>
    ensures { OnOk result (map news_said news.new.items ≡ map news_said news.old.items ++ news_in (map entity_said marks.now)) }
{
    'marks: for marked in marks {
        push_news(news, *marked)?;
    }
    Ok(())
}

/// The news of these. Linear in them.
pub(crate) fn news_of<'a>(
    alloc: Global,
    marks: &[Marked<'a>],
) -> Result<Vec<DatedNews<'a>>, NoMemory>
    ensures { IfOk result (λ news. map news_said news.items ≡ news_in (map entity_said marks.now)) }
{
    let mut news = Vec::with_capacity(alloc, marks.len())?;
    push_all_news(&mut news, marks)?;
    Ok(news)
}
