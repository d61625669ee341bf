ghost use Rattle.std.specs.Prelude.{◌≡◌, IfErr, IfOk};
ghost use Rattle.cli_ask.specs.Admission.{IsFaulty};
ghost use Rattle.cli_ask.specs.Publishing.{PublishesAfter, held_for, held_with, store_of};

use crate::admission::admit;
use cli_words::Publishing;
use fragmenter::Cutting;
use lc_io::File;
use lc_model::NoMemory;
use publisher::{Options, Publisher};
use std::alloc::Global;
use timetable::Timetable;
use version_store::MessageFault;

/// The publisher of a timetable, to which no message was admitted. It takes none from its clients.
pub fn publisher_of(
    alloc: Global,
    made: Timetable,
    publishing: Publishing,
) -> Result<Publisher<Cutting>, NoMemory>
    ensures { IfOk result (λ publisher. publisher ≡ held_with made publishing (store_of made publishing.base_moment)) }
{
    publisher_for(alloc, made, publishing, false)
}

/// The publisher of a timetable that received the message of a file, if there is one, and the line that says what became of it. Its
/// clients may send it messages, or not.
pub fn serving_publisher(
    alloc: Global,
    made: Timetable,
    publishing: Publishing,
    accept_updates: bool,
    file: &Option<File>,
) -> Result<(Publisher<Cutting>, Vec<u8>), MessageFault>
    ensures publishes { IfOk result (λ served. PublishesAfter made publishing accept_updates file.now served.0 served.1.items) }
    ensures faulty { IfErr result (IsFaulty file.now) }
{
    let mut publisher = publisher_for(alloc, made, publishing, accept_updates)?;
    let line = admit(alloc, &mut publisher, file)?;
    Ok((publisher, line))
}

/// The publisher of a timetable, to which no message was admitted. It takes messages from its clients, or not.
fn publisher_for(
    alloc: Global,
    made: Timetable,
    publishing: Publishing,
    accept_updates: bool,
) -> Result<Publisher<Cutting>, NoMemory>
    ensures { IfOk result (λ publisher. publisher ≡ held_for made publishing (store_of made publishing.base_moment) accept_updates) }
{
    let Timetable {
        zone,
        runs,
        doc,
        ..
    } = made;
    let Publishing {
        base,
        base_moment,
        cutting,
    } = publishing;
    let options = Options {
        base,
        accept_updates,
    };
    Publisher::new(alloc, runs, doc, zone, base_moment, cutting, options)
}
