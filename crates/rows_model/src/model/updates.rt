//! What realtime messages say.
use crate::making::bytes;
use lc_model::{
    EntityList, EntityNews, Event, Moment, PlainData, Relation, StopNews, StopNewsList, TripKind,
    TripNews, Update, worked_versions,
};
use rows_common::{Unmade, put_bytes, put_count, put_flag, put_line, put_number};
use std::alloc::Global;

const LATE: Event = Event {
    delay: Some(60),
    time: None,
};

/// The second stop, B, is reached late.
fn late_stop(alloc: Global) -> Result<StopNews, Unmade> {
    let (seq, stop) = (Some(2), Some(bytes(alloc, "B")?));
    match StopNews::new(alloc, seq, stop, Relation::Scheduled, Some(LATE), None) {
        Ok(news) => Ok(news),
        Err(_) => Err(Unmade),
    }
}

/// Of the third stop nothing is said.
fn plain_stop(alloc: Global) -> Result<StopNews, Unmade> {
    match StopNews::new(alloc, Some(3), None, Relation::Scheduled, None, None) {
        Ok(news) => Ok(news),
        Err(_) => Err(Unmade),
    }
}

fn stops(alloc: Global) -> Result<Vec<StopNews>, Unmade> {
    let second = late_stop(alloc)?;
    let third = plain_stop(alloc)?;
    Ok(vec![in alloc; second, third]?)
}

fn news(alloc: Global) -> Result<TripNews, Unmade> {
    let trip = bytes(alloc, "T1")?;
    let stops = stops(alloc)?;
    Ok(TripNews {
        trip,
        date: None,
        start: Some(28_800),
        kind: TripKind::Scheduled,
        stops: StopNewsList::from_list(stops),
    })
}

fn late_entity(alloc: Global) -> Result<EntityNews, Unmade> {
    let id = bytes(alloc, "1")?;
    let news = news(alloc)?;
    Ok(EntityNews::new(alloc, id, Some(news))?)
}

fn empty_entity(alloc: Global) -> Result<EntityNews, Unmade> {
    let id = bytes(alloc, "2")?;
    Ok(EntityNews::new(alloc, id, None)?)
}

fn entities(alloc: Global) -> Result<Vec<EntityNews>, Unmade> {
    let first = late_entity(alloc)?;
    let second = empty_entity(alloc)?;
    Ok(vec![in alloc; first, second]?)
}

fn update(alloc: Global) -> Result<Update, Unmade> {
    let Some(moment) = Moment::new(1_714_546_800) else {
        return Err(Unmade);
    };
    let entities = entities(alloc)?;
    Ok(Update {
        moment,
        full: true,
        entities: EntityList::from_list(entities),
        passed: 3,
    })
}

/// The copy of an update with one late trip and an entity without news.
pub(super) fn put_updates(alloc: Global, text: &mut String) -> Result<(), Unmade> {
    worked_versions();
    let update = update(alloc)?;
    put_copied(alloc, text, &update)
}

fn put_copied(alloc: Global, text: &mut String, update: &Update) -> Result<(), Unmade> {
    match update.copy(alloc) {
        Ok(copy) => put_update(text, &copy),
        Err(_) => Err(Unmade),
    }
}

fn put_update(text: &mut String, update: &Update) -> Result<(), Unmade> {
    put_number(text, "moment of the update", update.moment.seconds())?;
    put_flag(text, "full", update.full)?;
    put_number(text, "passed over", u64::from(update.passed))?;
    put_entities(text, update.entities.as_slice())
}

fn put_entities(text: &mut String, entities: &[EntityNews]) -> Result<(), Unmade> {
    put_count(text, "number of entities", entities.len())?;
    for entity in entities {
        put_entity(text, entity)?;
    }
    Ok(())
}

fn put_entity(text: &mut String, entity: &EntityNews) -> Result<(), Unmade> {
    put_bytes(text, "entity", entity.id())?;
    match entity.news() {
        Some(news) => put_news(text, news),
        None => put_line(text, "news", "none"),
    }
}

fn put_news(text: &mut String, news: &TripNews) -> Result<(), Unmade> {
    put_bytes(text, "news of the trip", news.trip.as_slice())?;
    put_stops(text, news.stops.as_slice())
}

fn put_stops(text: &mut String, stops: &[StopNews]) -> Result<(), Unmade> {
    put_count(text, "number of stops", stops.len())?;
    for stop in stops {
        put_stop(text, stop)?;
    }
    Ok(())
}

/// The sequence and the stop, and whether it is served as planned.
fn put_stop(text: &mut String, stop: &StopNews) -> Result<(), Unmade> {
    put_seq(text, stop.seq())?;
    put_bytes(text, "stop", stop.stop().unwrap_or(b"none"))?;
    put_flag(text, "scheduled", stop.relation() == Relation::Scheduled)?;
    put_events(text, stop)
}

/// Whether the arrival is the late one, and whether nothing is said of the departure.
fn put_events(text: &mut String, stop: &StopNews) -> Result<(), Unmade> {
    put_flag(text, "late arrival", stop.arr() == Some(LATE))?;
    put_flag(text, "no departure", stop.dep().is_none())
}

fn put_seq(text: &mut String, seq: Option<u32>) -> Result<(), Unmade> {
    match seq {
        Some(seq) => put_number(text, "sequence", u64::from(seq)),
        None => put_line(text, "sequence", "none"),
    }
}
