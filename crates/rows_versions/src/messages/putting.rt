//! The line of a message of trip updates: all that it says, or its fault.
use lc_model::{EntityNews, Event, Relation, ServiceDate, StopNews, TripKind, TripNews, Update};
use rows_common::Unmade;
use std::alloc::Global;
use std::{fmt, str};
use trip_updates::{RtFault, read_message};

/// A line for each name and message.
pub(super) fn put_each(
    alloc: Global,
    text: &mut String,
    messages: &[(&str, &[u8])],
) -> Result<(), Unmade> {
    for &(name, bytes) in messages {
        put_message(alloc, text, name, bytes)?;
    }
    Ok(())
}

/// The line of a message.
pub(super) fn put_message(
    alloc: Global,
    text: &mut String,
    name: &str,
    bytes: &[u8],
) -> Result<(), Unmade> {
    match read_message(alloc, bytes) {
        Ok(update) => put_update(text, name, &update),
        Err(fault) => put_fault(text, name, fault),
    }
}

pub(super) fn put_fault(text: &mut String, name: &str, fault: RtFault) -> Result<(), Unmade> {
    writeln!(text, "{name}: {fault}")?;
    Ok(())
}

/// The moment of an update, whether it is full, how many trip updates were passed over, and its entities.
fn put_update(text: &mut String, name: &str, update: &Update) -> Result<(), Unmade> {
    put_head(text, name, update)?;
    for entity in update.entities.as_slice() {
        put_entity(text, entity)?;
    }
    text.push_str("\n")?;
    Ok(())
}

fn put_head(text: &mut String, name: &str, update: &Update) -> Result<(), Unmade> {
    let kind = if update.full { "full" } else { "differential" };
    let (moment, passed) = (update.moment.seconds(), update.passed);
    write!(text, "{name}: {moment} {kind} passed {passed}")?;
    Ok(())
}

fn word(bytes: &[u8]) -> Result<&str, Unmade> {
    match str::from_utf8(bytes) {
        Ok(word) => Ok(word),
        Err(_) => Err(Unmade),
    }
}

/// The id of an entity, and its news.
fn put_entity(text: &mut String, entity: &EntityNews) -> Result<(), Unmade> {
    let id = word(entity.id())?;
    match entity.news() {
        Some(trip) => put_trip(text, id, trip),
        None => put_none(text, id),
    }
}

fn put_none(text: &mut String, id: &str) -> Result<(), Unmade> {
    write!(text, "; {id} none")?;
    Ok(())
}

/// A number, or a dash where none is said.
#[derive(Clone, Copy)]
struct Number(Option<i64>);

impl fmt::Display for Number {
    fn fmt<W: fmt::Write>(&self, f: &mut fmt::Formatter<W>) -> fmt::Result {
        match self.0 {
            Some(number) => write!(f, "{number}"),
            None => f.write_str("-"),
        }
    }
}

/// A date, or a dash where none is said.
#[derive(Clone, Copy)]
struct Day(Option<ServiceDate>);

impl fmt::Display for Day {
    fn fmt<W: fmt::Write>(&self, f: &mut fmt::Formatter<W>) -> fmt::Result {
        match self.0 {
            Some(date) => write!(f, "{}-{}-{}", date.year, date.month, date.day),
            None => f.write_str("-"),
        }
    }
}

/// The delay and the time of an event, where there is one.
#[derive(Clone, Copy)]
struct Stated(Option<Event>);

impl fmt::Display for Stated {
    fn fmt<W: fmt::Write>(&self, f: &mut fmt::Formatter<W>) -> fmt::Result {
        match self.0 {
            Some(event) => write!(
                f,
                "{} {}",
                Number(event.delay.map(i64::from)),
                Number(event.time)
            ),
            None => f.write_str("none"),
        }
    }
}

/// The entity of a trip: the trip in quotes, its date, its start, its kind, and its stops.
fn put_trip(text: &mut String, id: &str, trip: &TripNews) -> Result<(), Unmade> {
    put_trip_head(text, id, trip)?;
    for stop in trip.stops.as_slice() {
        put_stop(text, stop)?;
    }
    Ok(())
}

fn put_trip_head(text: &mut String, id: &str, trip: &TripNews) -> Result<(), Unmade> {
    let name = word(trip.trip.as_slice())?;
    let (day, start) = (Day(trip.date), Number(trip.start.map(i64::from)));
    let kind = kind_word(trip.kind);
    write!(text, "; {id} \"{name}\" {day} {start} {kind}")?;
    Ok(())
}

/// The sequence and the stop, or dashes; the relation; and what is said of the arrival and of the departure.
fn put_stop(text: &mut String, stop: &StopNews) -> Result<(), Unmade> {
    let id = word(stop.stop().unwrap_or(b"-"))?;
    let seq = Number(stop.seq().map(i64::from));
    let relation = relation_word(stop.relation());
    let (arr, dep) = (Stated(stop.arr()), Stated(stop.dep()));
    write!(text, ", {seq} {id} {relation} {arr} {dep}")?;
    Ok(())
}

fn kind_word(kind: TripKind) -> &'static str {
    match kind {
        TripKind::Scheduled => "scheduled",
        TripKind::Added => "added",
        TripKind::Canceled => "canceled",
    }
}

fn relation_word(relation: Relation) -> &'static str {
    match relation {
        Relation::Scheduled => "scheduled",
        Relation::Skipped => "skipped",
        Relation::NoData => "no data",
    }
}

/// The moment of an update, how many trip updates were passed over, and how many of its entities have news.
pub(super) fn put_counts(text: &mut String, name: &str, update: &Update) -> Result<(), Unmade> {
    let moment = update.moment.seconds();
    let passed = update.passed;
    let entities = update.entities.as_slice().iter();
    let news = entities.filter(|entity| entity.news().is_some()).count();
    writeln!(text, "{name}: {moment} passed {passed} with news {news}")?;
    Ok(())
}
