ghost use Rattle.std.specs.Prelude.{◌≡◌, ℕ, ◌≤◌, List, length, Ok, slice_range, IfOk, Option, option_and_then};
ghost use Rattle.rt_protobuf.specs.Message.{field_of};
ghost use Rattle.trip_updates.specs.Tree.{Tree};
ghost use Rattle.trip_updates.specs.Table.{stop_time_update, lacks};
ghost use Rattle.trip_updates.specs.Faults.{Reader, step, complete, read};
ghost use Rattle.trip_updates.specs.Shows.{Answers, SpanEnds, ShowsStop};
ghost use Rattle.trip_updates.specs.Meaning.{if_any as any_of, relation_of as relation_said, stop_news_of};

use crate::event::{low_32, read_event};
use crate::fault::{Part, RtFault};
use lc_model::{Bytes, Event, NoMemory, Relation, StopNews};
use rt_protobuf::{Field, Value, next_field};
use std::alloc::Global;

/// What the fields of a StopTimeUpdate say so far.
#[derive(Clone, Copy)]
pub(crate) struct StopFields<'a> {
    pub(crate) seq: Option<u32>,
    pub(crate) stop: Option<&'a [u8]>,
    pub(crate) relation: Relation,
    pub(crate) arrival: Option<Event>,
    pub(crate) departure: Option<Event>,
}

fn relation_of(number: u32) -> Relation
    ensures { result ≡ relation_said number }
{
    match number {
        1 => Relation::Skipped,
        2 => Relation::NoData,
        _ => Relation::Scheduled,
    }
}

// An event that says anything.
fn if_any(event: Option<Event>) -> Option<Event>
    ensures { result ≡ option_and_then any_of event }
{
    match event {
        Some(event) if event.delay.is_some() || event.time.is_some() => Some(event),
        _ => None,
    }
}

// The news with what one field more says.
fn with_field<'a>(
    stop: StopFields<'a>,
    bytes: &'a [u8],
    field: Field,
) -> Result<StopFields<'a>, RtFault>
    requires { SpanEnds (length bytes.now) field.next field.value }
    ensures { (before : Tree) → ShowsStop stop.entry before →
        Answers ShowsStop result (step (read 0) stop_time_update before field.next (field_of bytes.now field)) }
{
    match (field.number, field.value) {
        (1, Value::Varint(seq)) => Ok(StopFields {
            seq: Some(low_32(seq)),
            ..stop
        }),
        (2, Value::Span { from, to }) => {
            if stop.arrival.is_some() {
                return Err(RtFault::Repeated {
                    field: Part::Arrival,
                });
            }
            let arrival = read_event(bytes, from, to)?;
            Ok(StopFields {
                arrival: Some(arrival),
                ..stop
            })
        }
        (3, Value::Span { from, to }) => {
            if stop.departure.is_some() {
                return Err(RtFault::Repeated {
                    field: Part::Departure,
                });
            }
            let departure = read_event(bytes, from, to)?;
            Ok(StopFields {
                departure: Some(departure),
                ..stop
            })
        }
        (4, Value::Span { from, to }) => Ok(StopFields {
            stop: Some(&bytes[from..to]),
            ..stop
        }),
        (5, Value::Varint(relation)) => Ok(StopFields {
            relation: relation_of(low_32(relation)),
            ..stop
        }),
        _ => Ok(stop),
    }
}

/// The StopTimeUpdate between two places.
pub(crate) fn read_stop(bytes: &[u8], from: usize, to: usize) -> Result<StopFields<'_>, RtFault>
    requires order { from ≤ to }
    requires within { to ≤ length bytes.now }
    ensures { Answers ShowsStop result (read 1 stop_time_update from (slice_range bytes.now from to)) }
{
    let mut stop = StopFields {
        seq: None,
        stop: None,
        relation: Relation::Scheduled,
        arrival: None,
        departure: None,
    };
    let mut at = from;
    while let Some(field) = next_field(bytes, at, to)? {
        stop = with_field(stop, bytes, field)?;
        at = field.next;
    }
    Ok(stop)
}

/// The news of a stop that the fields say.
pub(crate) fn stop_news(alloc: Global, stop: StopFields<'_>) -> Result<StopNews, NoMemory>
    ensures { IfOk result (λ news. (tree : Tree) → ShowsStop stop.entry tree → news ≡ stop_news_of tree) }
{
    let name = match stop.stop {
        Some(name) => Some(Bytes::from_list(Vec::from_slice(alloc, name)?)),
        None => None,
    };
    StopNews::new(
        alloc,
        stop.seq,
        name,
        stop.relation,
        if_any(stop.arrival),
        if_any(stop.departure),
    )
}
