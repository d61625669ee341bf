ghost use Rattle.std.specs.Prelude.{◌≡◌, ℕ, ◌≤◌, List, length, Ok, slice_range};
ghost use Rattle.rt_protobuf.specs.Message.{field_of};
ghost use Rattle.trip_updates.specs.Tree.{Tree};
ghost use Rattle.trip_updates.specs.Table.{low_32 as low_bits, stop_time_event};
ghost use Rattle.trip_updates.specs.Faults.{Reader, step, read};
ghost use Rattle.trip_updates.specs.Shows.{Answers, ShowsEvent};

use crate::fault::RtFault;
use lc_model::Event;
use rt_protobuf::{Field, Value, next_field};

// The low 32 bits.
pub(crate) fn low_32(value: u64) -> u32
    ensures { result ≡ low_bits value }
{
    (value % (1 << 32)) as u32
}

// The event with what one field more says.
fn with_field(event: Event, field: Field) -> Event
    ensures { (message : List ℕ) (inner : Reader) (before : Tree) → ShowsEvent event before →
        Answers ShowsEvent (Ok result) (step inner stop_time_event before field.next (field_of message field)) }
{
    match (field.number, field.value) {
        (1, Value::Varint(delay)) => Event {
            delay: Some(low_32(delay).cast_signed()),
            time: event.time,
        },
        (2, Value::Varint(time)) => Event {
            delay: event.delay,
            time: Some(time.cast_signed()),
        },
        _ => event,
    }
}

/// The StopTimeEvent between two places.
pub(crate) fn read_event(bytes: &[u8], from: usize, to: usize) -> Result<Event, RtFault>
    requires order { from ≤ to }
    requires within { to ≤ length bytes.now }
    ensures { Answers ShowsEvent result (read 0 stop_time_event from (slice_range bytes.now from to)) }
{
    let mut event = Event {
        delay: None,
        time: None,
    };
    let mut at = from;
    while let Some(field) = next_field(bytes, at, to)? {
        event = with_field(event, field);
        at = field.next;
    }
    Ok(event)
}
