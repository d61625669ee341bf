ghost use Rattle.std.specs.Prelude.{◌≡◌, ℕ, ◌≤◌, ◌++◌, [], ◌∷◌, List, OnOk, length, Ok, slice_range, IfOk, IfErr, Option, Some, None, Err, ◌⊎◌, ◌+◌, if◌then◌else◌};
ghost use Rattle.rt_protobuf.specs.Message.{field_of};
ghost use Rattle.trip_updates.specs.Tree.{Tree};
ghost use Rattle.trip_updates.specs.Table.{feed_message, lacks};
ghost use Rattle.trip_updates.specs.Faults.{Reader, step, complete, read, fault_of};
ghost use Rattle.trip_updates.specs.Shows.{Answers, SpanEnds, ShowsFeed, ShowsUpdate};
ghost use Rattle.trip_updates.specs.Meaning.{update_with, stated as stated_of, counts};
ghost use Rattle.trip_updates.specs.Message.{IsMessage};
ghost use Rattle.lc_model.specs.declared.versions.update.Update.{Update as Said};
ghost use Rattle.trip_updates.specs.declared.fault.RtFault.TheVariants.{NoMemory};

use crate::entity::{Entity, read_entity};
use crate::fault::{Part, RtFault};
use crate::header::{Head, read_header};
use lc_model::{EntityList, EntityNews, Update};
use rt_protobuf::{Field, Value, next_field};
use std::alloc::Global;

/// What the fields of a FeedMessage say so far.
#[derive(Drop)]
pub(crate) struct FeedFields {
    pub(crate) head: Option<Head>,
    pub(crate) entities: Vec<Entity>,
}

// The message with what one field more says.
fn with_field(
    alloc: Global,
    mut feed: FeedFields,
    bytes: &[u8],
    field: Field,
) -> Result<FeedFields, RtFault>
    requires { SpanEnds (length bytes.now) field.next field.value }
    ensures { (before : Tree) → ShowsFeed feed before →
        Answers ShowsFeed result (step (read 3) feed_message before field.next (field_of bytes.now field)) }
{
    match (field.number, field.value) {
        (1, Value::Span { from, to }) => {
            if feed.head.is_some() {
                return Err(RtFault::Repeated {
                    field: Part::Header,
                });
            }
            feed.head = Some(read_header(bytes, from, to)?);
            Ok(feed)
        }
        (2, Value::Span { from, to }) => {
            let entity = read_entity(alloc, bytes, from, to)?;
            feed.entities.push(entity)?;
            Ok(feed)
        }
        _ => Ok(feed),
    }
}

// What an entity says in a message that is full or not.
fn stated(full: bool, entity: Entity) -> EntityNews
    ensures { result ≡ stated_of full entity }
{
    if !full && entity.deleted {
        entity.news.without_news()
    } else {
        entity.news
    }
}

// Whether the entity's trip update is passed over and counts.
fn is_counted(full: bool, entity: &Entity) -> bool
    ensures { result ≡ counts full entity.now }
{
    (full || !entity.deleted) && entity.passed
}

// The count with one more that is passed over, if it is.
fn count(passed: u32, one_more: bool) -> Result<u32, RtFault>
    ensures passed { IfOk result (λ count. count ≡ passed + (if one_more then 1 else 0)) }
    ensures err { IfErr result (λ fault. fault ≡ NoMemory) }
{
    if !one_more {
        return Ok(passed);
    }
    match passed.checked_add(1) {
        Some(passed) => Ok(passed),
        None => Err(RtFault::NoMemory),
    }
}

// Adds what an entity says in a message that is full or not. How many are passed over then, of so many before.
fn push_stated(
    said: &mut Vec<EntityNews>,
    passed: u32,
    full: bool,
    entity: Entity,
) -> Result<u32, RtFault>
    ensures said { OnOk result (said.new.items ≡ said.old.items ++ stated_of full entity ∷ []) }
    ensures passed { IfOk result (λ count. count ≡ passed + (if counts full entity then 1 else 0)) }
    ensures err { IfErr result (λ fault. fault ≡ NoMemory) }
{
    let passed = count(passed, is_counted(full, &entity))?;
    said.push(stated(full, entity))?;
    Ok(passed)
}

// The update that entities say. Out of memory also where more than 2^32 - 1 of them are passed over.
fn update(alloc: Global, head: Head, entities: Vec<Entity>) -> Result<Update, RtFault>
    ensures ok { IfOk result (λ update. update ≡ update_with head entities.items) }
    ensures err { IfErr result (λ fault. fault ≡ NoMemory) }
{
    let mut said = Vec::with_capacity(alloc, entities.len())?;
    let mut passed: u32 = 0;
    for entity in entities {
        passed = push_stated(&mut said, passed, head.full, entity)?;
    }
    Ok(Update {
        moment: head.moment,
        full: head.full,
        entities: EntityList::from_list(said),
        passed,
    })
}

// The update of a message in which nothing is lacking.
fn whole(alloc: Global, feed: FeedFields) -> Result<Update, RtFault>
    ensures { (tree : Tree) → ShowsFeed feed tree →
        Answers ShowsUpdate result (complete (lacks feed_message tree) tree) }
{
    let FeedFields { head, entities } = feed;
    match head {
        Some(head) => update(alloc, head, entities),
        None => Err(RtFault::Missing {
            field: Part::Header,
        }),
    }
}

// The update of the FeedMessage between two places.
fn read_feed(alloc: Global, bytes: &[u8], from: usize, to: usize) -> Result<Update, RtFault>
    requires order { from ≤ to }
    requires within { to ≤ length bytes.now }
    ensures { Answers ShowsUpdate result (read 4 feed_message from (slice_range bytes.now from to)) }
{
    let mut feed = FeedFields {
        head: None,
        entities: Vec::new(alloc),
    };
    let mut at = from;
    while let Some(field) = next_field(bytes, at, to)? {
        feed = with_field(alloc, feed, bytes, field)?;
        at = field.next;
    }
    whole(alloc, feed)
}

/// The update that a message says (GTFS Realtime Reference, FeedMessage), or the first fault of its bytes. It takes time
/// and memory in proportion to the bytes.
///
/// Out of memory also answers a message of which more than 2^32 - 1 trip updates are passed over.
pub fn read_message(alloc: Global, bytes: &[u8]) -> Result<Update, RtFault>
    ensures message { IfOk result (IsMessage bytes.now) }
    ensures only_message { (update : Said) → IsMessage bytes.now update →
        (result ≡ Ok update) ⊎ (result ≡ Err NoMemory) }
    ensures fault { IfErr result (λ fault. (fault ≡ NoMemory) ⊎ (fault_of bytes.now ≡ Some fault)) }
{
    read_feed(alloc, bytes, 0, bytes.len())
}
