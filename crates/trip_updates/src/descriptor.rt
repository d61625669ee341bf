ghost use Rattle.std.specs.Prelude.{◌≡◌, ℕ, ◌≤◌, List, length, Ok, slice_range, IfOk, Option};
ghost use Rattle.rt_protobuf.specs.Message.{field_of};
ghost use Rattle.trip_updates.specs.Tree.{Tree};
ghost use Rattle.trip_updates.specs.Table.{trip_descriptor, lacks};
ghost use Rattle.trip_updates.specs.Faults.{Reader, step, complete, read};
ghost use Rattle.trip_updates.specs.Shows.{Answers, SpanEnds, ShowsDescriptor};

use crate::event::low_32;
use crate::fault::RtFault;
use rt_protobuf::{Field, Value, next_field};

/// What the fields of a TripDescriptor say.
#[derive(Clone, Copy)]
pub(crate) struct Descriptor<'a> {
    pub(crate) trip: Option<&'a [u8]>,
    pub(crate) start_time: Option<&'a [u8]>,
    pub(crate) start_date: Option<&'a [u8]>,
    pub(crate) relationship: u32,
}

// The descriptor with what one field more says.
fn with_field<'a>(descriptor: Descriptor<'a>, bytes: &'a [u8], field: Field) -> Descriptor<'a>
    requires { SpanEnds (length bytes.now) field.next field.value }
    ensures { (inner : Reader) (before : Tree) → ShowsDescriptor descriptor.entry before →
        Answers ShowsDescriptor (Ok result) (step inner trip_descriptor before field.next (field_of bytes.now field)) }
{
    match (field.number, field.value) {
        (1, Value::Span { from, to }) => Descriptor {
            trip: Some(&bytes[from..to]),
            ..descriptor
        },
        (2, Value::Span { from, to }) => Descriptor {
            start_time: Some(&bytes[from..to]),
            ..descriptor
        },
        (3, Value::Span { from, to }) => Descriptor {
            start_date: Some(&bytes[from..to]),
            ..descriptor
        },
        (4, Value::Varint(relationship)) => Descriptor {
            relationship: low_32(relationship),
            ..descriptor
        },
        _ => descriptor,
    }
}

/// The TripDescriptor between two places.
pub(crate) fn read_descriptor(
    bytes: &[u8],
    from: usize,
    to: usize,
) -> Result<Descriptor<'_>, RtFault>
    requires order { from ≤ to }
    requires within { to ≤ length bytes.now }
    ensures { Answers ShowsDescriptor result (read 1 trip_descriptor from (slice_range bytes.now from to)) }
{
    let mut descriptor = Descriptor {
        trip: None,
        start_time: None,
        start_date: None,
        relationship: 0,
    };
    let mut at = from;
    while let Some(field) = next_field(bytes, at, to)? {
        descriptor = with_field(descriptor, bytes, field);
        at = field.next;
    }
    Ok(descriptor)
}
