ghost use Rattle.std.specs.Prelude.{◌≡◌, ℕ, ◌≤◌, List, length, Ok, slice_range, IfOk, Option};
ghost use Rattle.rt_protobuf.specs.Message.{field_of};
ghost use Rattle.trip_updates.specs.Tree.{Tree};
ghost use Rattle.trip_updates.specs.Table.{feed_entity, lacks};
ghost use Rattle.trip_updates.specs.Faults.{Reader, step, complete, read};
ghost use Rattle.trip_updates.specs.Meaning.{is_passed, news_said};
ghost use Rattle.trip_updates.specs.Shows.{Answers, SpanEnds, ShowsEntity, ShowsEntityFields};

use crate::fault::{Part, RtFault};
use crate::trip::{TripSaid, read_trip};
use lc_model::{Bytes, EntityNews, NoMemory};
use rt_protobuf::{Field, Value, next_field};
use std::alloc::Global;

/// What an entity says: its id and its news, whether it is deleted, and whether it has a trip update that is passed over.
#[derive(Drop)]
pub(crate) struct Entity {
    pub(crate) news: EntityNews,
    pub(crate) deleted: bool,
    pub(crate) passed: bool,
}

/// What the fields of a FeedEntity say so far.
#[derive(Drop)]
pub(crate) struct EntityFields<'a> {
    pub(crate) id: Option<&'a [u8]>,
    pub(crate) deleted: bool,
    pub(crate) said: Option<TripSaid>,
}

// The entity with what one field more says.
fn with_field<'a>(
    alloc: Global,
    mut entity: EntityFields<'a>,
    bytes: &'a [u8],
    field: Field,
) -> Result<EntityFields<'a>, RtFault>
    requires { SpanEnds (length bytes.now) field.next field.value }
    ensures { (before : Tree) → ShowsEntityFields entity.entry before →
        Answers ShowsEntityFields result (step (read 2) feed_entity before field.next (field_of bytes.now field)) }
{
    match (field.number, field.value) {
        (1, Value::Span { from, to }) => {
            entity.id = Some(&bytes[from..to]);
            Ok(entity)
        }
        (2, Value::Varint(deleted)) => {
            entity.deleted = deleted != 0;
            Ok(entity)
        }
        (3, Value::Span { from, to }) => {
            if entity.said.is_some() {
                return Err(RtFault::Repeated {
                    field: Part::TripUpdate,
                });
            }
            entity.said = Some(read_trip(alloc, bytes, from, to)?);
            Ok(entity)
        }
        _ => Ok(entity),
    }
}

// The entity of this id that says this of a trip.
fn entity_with(
    alloc: Global,
    id: Bytes,
    deleted: bool,
    said: Option<TripSaid>,
) -> Result<Entity, NoMemory>
    ensures { IfOk result (λ entity. entity ≡ record {
      news = record { id = id; news = news_said said };
      deleted = deleted;
      passed = is_passed said;
    }) }
{
    let (news, passed) = match said {
        None => (None, false),
        Some(TripSaid::Passed) => (None, true),
        Some(TripSaid::News(news)) => (Some(news), false),
    };
    Ok(Entity {
        news: EntityNews::new(alloc, id, news)?,
        deleted,
        passed,
    })
}

// The entity, if nothing is lacking.
fn whole(alloc: Global, fields: EntityFields<'_>) -> Result<Entity, RtFault>
    ensures { (tree : Tree) → ShowsEntityFields fields.entry tree →
        Answers ShowsEntity result (complete (lacks feed_entity tree) tree) }
{
    let EntityFields { id, deleted, said } = fields;
    match id {
        Some(id) => {
            let id = Bytes::from_list(Vec::from_slice(alloc, id)?);
            Ok(entity_with(alloc, id, deleted, said)?)
        }
        None => Err(RtFault::Missing { field: Part::Id }),
    }
}

/// The FeedEntity between two places.
pub(crate) fn read_entity(
    alloc: Global,
    bytes: &[u8],
    from: usize,
    to: usize,
) -> Result<Entity, RtFault>
    requires order { from ≤ to }
    requires within { to ≤ length bytes.now }
    ensures { Answers ShowsEntity result (read 3 feed_entity from (slice_range bytes.now from to)) }
{
    let mut entity = EntityFields {
        id: None,
        deleted: false,
        said: None,
    };
    let mut at = from;
    while let Some(field) = next_field(bytes, at, to)? {
        entity = with_field(alloc, entity, bytes, field)?;
        at = field.next;
    }
    whole(alloc, entity)
}
