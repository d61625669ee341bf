ghost use Rattle.std.specs.Prelude.{◌≡◌, ◌≤◌, ◌<◌, ◌++◌, IfOk, OnOk};
ghost use Rattle.rt_protobuf.specs.Grammar.{text};
ghost use Rattle.rt_protobuf.specs.Writing.{field_text, fields_text};
ghost use Rattle.cli_drill.specs.Draws.{AreBits};
ghost use Rattle.cli_drill.specs.Messages.{descriptor_fields, entity_fields, event_fields, header_fields, late_at, message_of, stop_fields, trip_fields};
ghost use Rattle.cli_drill.specs.Network.{side_of};

use crate::draws::{DRAWS, draw};
use crate::names::{push_number, push_trip_name};
use crate::network::side_of;
use lc_model::NoMemory;
use rt_protobuf::{put_bytes, put_varint};
use std::alloc::Global;

/// A trip of 2024-05-01 that departs from its first stop so many seconds late.
#[derive(Clone, Copy)]
pub(crate) struct Late {
    pub(crate) trip: u32,
    pub(crate) delay: u32,
}

/// The bytes of the message of this number. Linear in its entities, twenty.
pub(crate) fn message_of(
    alloc: Global,
    seed: u32,
    bits: &[u32],
    message: u32,
) -> Result<Vec<u8>, NoMemory>
    requires bits { AreBits seed DRAWS bits.now }
    requires message { message < 10 }
    ensures { IfOk result (λ bytes. bytes.items ≡ message_of seed message) }
{
    let mut bytes = Vec::new(alloc);
    put_header(
        alloc,
        &mut bytes,
        1_714_543_200 + 600 * u64::from(message + 1),
    )?;
    'entities: for entity in 0..20 {
        put_entity(
            alloc,
            &mut bytes,
            entity,
            late_at(seed, bits, message, entity),
        )?;
    }
    Ok(bytes)
}

/// The trip of an entity of a message, and how late it is.
fn late_at(seed: u32, bits: &[u32], message: u32, entity: u32) -> Late
    requires bits { AreBits seed DRAWS bits.now }
    requires message { message < 10 }
    requires entity { entity < 20 }
    ensures { result ≡ late_at seed message entity }
{
    let place = (40 * message + 2 * entity) as usize;
    Late {
        trip: draw(seed, bits, place, 432 * side_of(seed)),
        delay: draw(seed, bits, place + 1, 900),
    }
}

/// Adds the header of a message.
fn put_header(alloc: Global, bytes: &mut Vec<u8>, moment: u64) -> Result<(), NoMemory>
    ensures { OnOk result (bytes.new.items ≡ bytes.old.items ++ field_text (record { number = 1; content = text (fields_text (header_fields moment)) })) }
{
    let header = header_text(alloc, moment)?;
    put_bytes(bytes, 1, header.as_slice())
}

fn header_text(alloc: Global, moment: u64) -> Result<Vec<u8>, NoMemory>
    ensures { IfOk result (λ bytes. bytes.items ≡ fields_text (header_fields moment)) }
{
    let mut bytes = Vec::new(alloc);
    put_bytes(&mut bytes, 1, b"2.0")?;
    put_varint(&mut bytes, 2, 0)?;
    put_varint(&mut bytes, 3, moment)?;
    Ok(bytes)
}

/// Adds an entity of a message.
fn put_entity(alloc: Global, bytes: &mut Vec<u8>, id: u32, late: Late) -> Result<(), NoMemory>
    ensures { OnOk result (bytes.new.items ≡ bytes.old.items ++ field_text (record { number = 2; content = text (fields_text (entity_fields id late)) })) }
{
    let entity = entity_text(alloc, id, late)?;
    put_bytes(bytes, 2, entity.as_slice())
}

fn entity_text(alloc: Global, id: u32, late: Late) -> Result<Vec<u8>, NoMemory>
    ensures { IfOk result (λ bytes. bytes.items ≡ fields_text (entity_fields id late)) }
{
    let mut name = Vec::new(alloc);
    push_number(&mut name, id)?;
    let trip = trip_text(alloc, late)?;
    let mut bytes = Vec::new(alloc);
    put_bytes(&mut bytes, 1, name.as_slice())?;
    put_bytes(&mut bytes, 3, trip.as_slice())?;
    Ok(bytes)
}

fn trip_text(alloc: Global, late: Late) -> Result<Vec<u8>, NoMemory>
    ensures { IfOk result (λ bytes. bytes.items ≡ fields_text (trip_fields late)) }
{
    let descriptor = descriptor_text(alloc, late)?;
    let stop = stop_text(alloc, late)?;
    let mut bytes = Vec::new(alloc);
    put_bytes(&mut bytes, 1, descriptor.as_slice())?;
    put_bytes(&mut bytes, 2, stop.as_slice())?;
    Ok(bytes)
}

fn descriptor_text(alloc: Global, late: Late) -> Result<Vec<u8>, NoMemory>
    ensures { IfOk result (λ bytes. bytes.items ≡ fields_text (descriptor_fields late)) }
{
    let mut name = Vec::new(alloc);
    push_trip_name(&mut name, late.trip)?;
    let mut bytes = Vec::new(alloc);
    put_bytes(&mut bytes, 1, name.as_slice())?;
    put_bytes(&mut bytes, 3, b"20240501")?;
    Ok(bytes)
}

fn stop_text(alloc: Global, late: Late) -> Result<Vec<u8>, NoMemory>
    ensures { IfOk result (λ bytes. bytes.items ≡ fields_text (stop_fields late)) }
{
    let event = event_text(alloc, late)?;
    let mut bytes = Vec::new(alloc);
    put_varint(&mut bytes, 1, 1)?;
    put_bytes(&mut bytes, 3, event.as_slice())?;
    Ok(bytes)
}

fn event_text(alloc: Global, late: Late) -> Result<Vec<u8>, NoMemory>
    ensures { IfOk result (λ bytes. bytes.items ≡ fields_text (event_fields late)) }
{
    let mut bytes = Vec::new(alloc);
    put_varint(&mut bytes, 1, u64::from(late.delay))?;
    Ok(bytes)
}
