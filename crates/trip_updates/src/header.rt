ghost use Rattle.std.specs.Prelude.{◌≡◌, ℕ, ◌≤◌, List, length, Ok, slice_range, IfOk, Option};
ghost use Rattle.rt_protobuf.specs.Message.{field_of};
ghost use Rattle.trip_updates.specs.Tree.{Tree};
ghost use Rattle.trip_updates.specs.Table.{feed_header, lacks};
ghost use Rattle.trip_updates.specs.Faults.{Reader, step, complete, read};
ghost use Rattle.trip_updates.specs.Shows.{Answers, SpanEnds, ShowsHead, ShowsHeader};

use crate::event::low_32;
use crate::fault::{Part, RtFault};
use lc_model::Moment;
use rt_protobuf::{Field, Value, next_field};

/// What a FeedHeader says: the moment of the message, and whether it is full.
#[derive(Clone, Copy)]
pub(crate) struct Head {
    pub(crate) moment: Moment,
    pub(crate) full: bool,
}

/// What the fields of a FeedHeader say so far.
#[derive(Clone, Copy)]
pub(crate) struct HeaderFields {
    pub(crate) has_version: bool,
    pub(crate) incrementality: u32,
    pub(crate) timestamp: Option<u64>,
}

// The header with what one field more says.
fn with_field(header: HeaderFields, field: Field) -> HeaderFields
    ensures { (message : List ℕ) (inner : Reader) (before : Tree) → ShowsHeader header before →
        Answers ShowsHeader (Ok result) (step inner feed_header before field.next (field_of message field)) }
{
    match (field.number, field.value) {
        (1, Value::Span { .. }) => HeaderFields {
            has_version: true,
            ..header
        },
        (2, Value::Varint(incrementality)) => HeaderFields {
            incrementality: low_32(incrementality),
            ..header
        },
        (3, Value::Varint(timestamp)) => HeaderFields {
            timestamp: Some(timestamp),
            ..header
        },
        _ => header,
    }
}

// A header in which nothing is lacking.
fn whole(header: HeaderFields) -> Result<Head, RtFault>
    ensures { (tree : Tree) → ShowsHeader header tree →
        Answers ShowsHead result (complete (lacks feed_header tree) tree) }
{
    if !header.has_version {
        return Err(RtFault::Missing {
            field: Part::Version,
        });
    }
    let Some(timestamp) = header.timestamp else {
        return Err(RtFault::NoMoment);
    };
    let Some(moment) = Moment::new(timestamp) else {
        return Err(RtFault::NoMoment);
    };
    Ok(Head {
        moment,
        full: header.incrementality != 1,
    })
}

/// The FeedHeader between two places.
pub(crate) fn read_header(bytes: &[u8], from: usize, to: usize) -> Result<Head, RtFault>
    requires order { from ≤ to }
    requires within { to ≤ length bytes.now }
    ensures { Answers ShowsHead result (read 3 feed_header from (slice_range bytes.now from to)) }
{
    let mut header = HeaderFields {
        has_version: false,
        incrementality: 0,
        timestamp: None,
    };
    let mut at = from;
    while let Some(field) = next_field(bytes, at, to)? {
        header = with_field(header, field);
        at = field.next;
    }
    whole(header)
}
