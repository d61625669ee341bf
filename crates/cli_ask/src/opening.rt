ghost use Rattle.std.specs.Prelude.{◌≡◌, IfErr, IfOk};
ghost use Rattle.cli_ask.specs.Admission.{IsFaulty};
ghost use Rattle.cli_ask.specs.Opening.{IsAtHome, IsOpened, IsPrepared};
ghost use Rattle.fragmenter.specs.Cutting.{chosen_cuts};
ghost use Rattle.publisher.specs.Held.{side_of};
ghost use Rattle.lc_world.specs.Sides.Side.{IsValidSide};
ghost use Rattle.version_store.specs.declared.message_fault.MessageFault.TheVariants.{NoMemory as OutOfMemory};

use crate::publishing::serving_publisher;
use cli_words::Publishing;
use connection_uri::Base;
use fragmenter::Cutting;
use lc_io::File;
use lc_links::{HomeLink, LocalLink};
use lc_model::{NoMemory, PlainData};
use lc_world::Link;
use publisher::Publisher;
use std::alloc::Global;
use timetable::Timetable;
use version_store::MessageFault;

/// A link at home to a publisher that has got its message, with the line of the message, and the base again.
#[derive(Drop)]
pub struct Opened<L: Link> {
    pub line: Vec<u8>,
    pub base: Base,
    pub home: HomeLink<Cutting, L>,
}

/// Why there is no publisher to ask, and the link as it was.
#[derive(Drop)]
pub struct Unopened<L: Link> {
    pub fault: MessageFault,
    pub link: L,
}

/// A publisher that has got its message, the base again, and the line of the message.
#[derive(Drop)]
struct Prepared {
    publisher: Publisher<Cutting>,
    base: Base,
    line: Vec<u8>,
}

/// Publishes a timetable, and gives the publisher the message of a file, if there is one. Whoever asks over the link at home asks this
/// publisher, and each reply is handed on over the outer link.
pub fn open_home<L: Link>(
    alloc: Global,
    made: Timetable,
    publishing: Publishing,
    file: &Option<File>,
    link: L,
) -> Result<Opened<L>, Unopened<L>>
    ensures opened { IfOk result (λ opened. IsOpened made publishing file.now link opened.line.items opened.base opened.home) }
    ensures faulty { IfErr result (λ unopened. IsFaulty file.now unopened.fault) }
    ensures link_back { IfErr result (λ unopened. unopened.link ≡ link) }
{
    match prepare(alloc, made, publishing, file) {
        Ok(prepared) => at_home(alloc, prepared, link),
        Err(fault) => Err(Unopened { fault, link }),
    }
}

/// The publisher of the timetable, after its message.
fn prepare(
    alloc: Global,
    made: Timetable,
    publishing: Publishing,
    file: &Option<File>,
) -> Result<Prepared, MessageFault>
    ensures prepared { IfOk result (λ prepared. IsPrepared made publishing file.now prepared.publisher prepared.base prepared.line.items) }
    ensures faulty { IfErr result (IsFaulty file.now) }
{
    let base = publishing.base.copy(alloc)?;
    prepare_under(alloc, base, made, publishing, file)
}

/// The publisher of the timetable, after its message, with a copy of the base at hand.
fn prepare_under(
    alloc: Global,
    base: Base,
    made: Timetable,
    publishing: Publishing,
    file: &Option<File>,
) -> Result<Prepared, MessageFault>
    requires { base ≡ publishing.base }
    ensures prepared { IfOk result (λ prepared. IsPrepared made publishing file.now prepared.publisher prepared.base prepared.line.items) }
    ensures faulty { IfErr result (IsFaulty file.now) }
{
    let (publisher, line) = serving_publisher(alloc, made, publishing, false, file)?;
    Ok(Prepared {
        publisher,
        base,
        line,
    })
}

/// A link at home to the publisher.
fn at_home<L: Link>(alloc: Global, prepared: Prepared, link: L) -> Result<Opened<L>, Unopened<L>>
    ensures home { IfOk result (λ opened. IsAtHome prepared.publisher prepared.base prepared.line.items link opened.line.items opened.base opened.home) }
    ensures valid { IsValidSide (side_of chosen_cuts prepared.publisher) }
    ensures memory { IfErr result (λ unopened. unopened.fault ≡ OutOfMemory) }
    ensures link_back { IfErr result (λ unopened. unopened.link ≡ link) }
{
    let Prepared {
        publisher,
        base,
        line,
    } = prepared;
    publisher.side_is_valid();
    match LocalLink::new(alloc, publisher) {
        Ok(local) => Ok(Opened {
            line,
            base,
            home: HomeLink::new(local, link),
        }),
        Err(NoMemory) => Err(Unopened {
            fault: MessageFault::NoMemory,
            link,
        }),
    }
}
