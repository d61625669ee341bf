ghost use Rattle.std.specs.Prelude.{◌≡◌, ℕ, ◌≤◌, List, length, Ok, slice_range, IfOk, Option, Some, unwrap_or};
ghost use Rattle.rt_protobuf.specs.Message.{field_of};
ghost use Rattle.trip_updates.specs.Tree.{Tree};
ghost use Rattle.trip_updates.specs.Table.{trip_update, stop_time_update, lacks};
ghost use Rattle.trip_updates.specs.Faults.{Reader, step, complete, read};
ghost use Rattle.trip_updates.specs.Shows.{Answers, SpanEnds, ShowsNews, ShowsTrip, ShowsDescriptor, ShowsSaid};
ghost use Rattle.std.specs.Option.{option_copied};
ghost use Rattle.trip_updates.specs.Meaning.{if_said, kind_of as kind_said, passed_or, trip_news_of};
ghost use Rattle.lc_time.specs.Clock.{gtfs_time_said};
ghost use Rattle.lc_time.specs.Date.{date_said};

use crate::descriptor::{Descriptor, read_descriptor};
use crate::fault::{Part, RtFault};
use crate::stop::{read_stop, stop_news};
use lc_model::{Bytes, ServiceDate, StopNews, StopNewsList, TripKind, TripNews};
use lc_time::{read_date, read_gtfs_time};
use rt_protobuf::{Field, Value, next_field};
use std::alloc::{AllocError, Global};

/// What a trip update says.
#[derive(Drop)]
pub(crate) enum TripSaid {
    /// It is passed over: it names no trip, or its relationship, date or start is not read.
    Passed,
    News(TripNews),
}

/// What the fields of a TripUpdate say so far.
#[derive(Drop)]
pub(crate) struct TripFields<'a> {
    pub(crate) descriptor: Option<Descriptor<'a>>,
    pub(crate) stops: Vec<StopNews>,
}

fn kind_of(relationship: u32) -> Option<TripKind>
    ensures { result ≡ kind_said relationship }
{
    match relationship {
        0 => Some(TripKind::Scheduled),
        1 => Some(TripKind::Added),
        3 => Some(TripKind::Canceled),
        _ => None,
    }
}

// The date that a text says, or that it says nothing where it is empty.
fn date_in(text: &[u8]) -> Option<Option<ServiceDate>>
    ensures { result ≡ if_said date_said (Some text.now) }
{
    if text.is_empty() {
        return Some(None);
    }
    let date = read_date(text)?;
    Some(Some(date))
}

fn date_of(text: Option<&[u8]>) -> Option<Option<ServiceDate>>
    ensures { result ≡ if_said date_said (option_copied text.entry) }
{
    match text {
        None => Some(None),
        Some(text) => date_in(text),
    }
}

// The start that a text says, or that it says nothing where it is empty.
fn start_in(text: &[u8]) -> Option<Option<u32>>
    ensures { result ≡ if_said gtfs_time_said (Some text.now) }
{
    if text.is_empty() {
        return Some(None);
    }
    let start = read_gtfs_time(text)?;
    Some(Some(start))
}

fn start_of(text: Option<&[u8]>) -> Option<Option<u32>>
    ensures { result ≡ if_said gtfs_time_said (option_copied text.entry) }
{
    match text {
        None => Some(None),
        Some(text) => start_in(text),
    }
}

// The news of a trip, or that it is passed over.
fn said(
    alloc: Global,
    descriptor: Descriptor<'_>,
    stops: Vec<StopNews>,
) -> Result<TripSaid, AllocError>
    ensures { IfOk result (λ said. (tree : Tree) → ShowsDescriptor descriptor.entry tree →
        said ≡ passed_or (trip_news_of tree stops.items)) }
{
    let Some(trip) = descriptor.trip else {
        return Ok(TripSaid::Passed);
    };
    let Some(kind) = kind_of(descriptor.relationship) else {
        return Ok(TripSaid::Passed);
    };
    let Some(date) = date_of(descriptor.start_date) else {
        return Ok(TripSaid::Passed);
    };
    let Some(start) = start_of(descriptor.start_time) else {
        return Ok(TripSaid::Passed);
    };
    Ok(TripSaid::News(TripNews {
        trip: Bytes::from_list(Vec::from_slice(alloc, trip)?),
        date,
        start,
        kind,
        stops: StopNewsList::from_list(stops),
    }))
}

// The news of the stop that the StopTimeUpdate between two places says.
fn read_news(alloc: Global, bytes: &[u8], from: usize, to: usize) -> Result<StopNews, RtFault>
    requires order { from ≤ to }
    requires within { to ≤ length bytes.now }
    ensures { Answers ShowsNews result (read 1 stop_time_update from (slice_range bytes.now from to)) }
{
    let stop = read_stop(bytes, from, to)?;
    Ok(stop_news(alloc, stop)?)
}

// The trip update with what one field more says.
fn with_field<'a>(
    alloc: Global,
    mut trip: TripFields<'a>,
    bytes: &'a [u8],
    field: Field,
) -> Result<TripFields<'a>, RtFault>
    requires { SpanEnds (length bytes.now) field.next field.value }
    ensures { (before : Tree) → ShowsTrip trip.entry before →
        Answers ShowsTrip result (step (read 1) trip_update before field.next (field_of bytes.now field)) }
{
    match (field.number, field.value) {
        (1, Value::Span { from, to }) => {
            if trip.descriptor.is_some() {
                return Err(RtFault::Repeated { field: Part::Trip });
            }
            trip.descriptor = Some(read_descriptor(bytes, from, to)?);
            Ok(trip)
        }
        (2, Value::Span { from, to }) => {
            let news = read_news(alloc, bytes, from, to)?;
            trip.stops.push(news)?;
            Ok(trip)
        }
        _ => Ok(trip),
    }
}

// What a trip update says in which nothing is lacking.
fn whole(alloc: Global, trip: TripFields<'_>) -> Result<TripSaid, RtFault>
    ensures { (tree : Tree) → ShowsTrip trip.entry tree →
        Answers ShowsSaid result (complete (lacks trip_update tree) tree) }
{
    let TripFields { descriptor, stops } = trip;
    match descriptor {
        Some(descriptor) => Ok(said(alloc, descriptor, stops)?),
        None => Err(RtFault::Missing { field: Part::Trip }),
    }
}

/// What the TripUpdate between two places says.
pub(crate) fn read_trip(
    alloc: Global,
    bytes: &[u8],
    from: usize,
    to: usize,
) -> Result<TripSaid, RtFault>
    requires order { from ≤ to }
    requires within { to ≤ length bytes.now }
    ensures { Answers ShowsSaid result (read 2 trip_update from (slice_range bytes.now from to)) }
{
    let mut trip = TripFields {
        descriptor: None,
        stops: Vec::new(alloc),
    };
    let mut at = from;
    while let Some(field) = next_field(bytes, at, to)? {
        trip = with_field(alloc, trip, bytes, field)?;
        at = field.next;
    }
    whole(alloc, trip)
}
