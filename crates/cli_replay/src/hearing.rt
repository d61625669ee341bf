ghost use Rattle.std.specs.Prelude.{◌≡◌, ◌+◌, Some, IfOk, OnOk, length};
ghost use Rattle.cli_ask.specs.Admission.{IsBehind};
ghost use Rattle.fragmenter.specs.Cutting.{chosen_cuts};
ghost use Rattle.lc_world.specs.GoneOn.{IsLeftByPasses};
ghost use Rattle.publisher.specs.Held.{side_of};
ghost use Rattle.lc_world.specs.Sides.Side.{IsValidSide};
ghost use Rattle.cli_replay.specs.ReplayLaws.Played.{IsGiven};
ghost use Rattle.cli_replay.specs.Home.{admitted_at, home_seen};

use crate::replay_laws::Message;
use cli_ask::{Heard, give};
use fragmenter::Cutting;
use lc_links::HomeLink;
use lc_model::NoMemory;
use lc_world::Link;
use publisher::Publisher;
use std::alloc::Global;
use version_store::MessageFault;

/// Gives a message to the publisher at home, and says in a line what became of it. It counts it where it is admitted.
pub fn hear<L: Link>(
    alloc: Global,
    message: &Message,
    home: &mut HomeLink<Cutting, L>,
) -> Result<Heard, NoMemory>
    ensures given { IfOk result (λ heard. IsGiven (home_seen L.seen home.old) (home_seen L.seen home.new) message.now.file heard.lines.items) }
    ensures admitted { IfOk result (λ heard. admitted_at home.new ≡ admitted_at home.old + heard.admitted) }
    ensures outer { IsLeftByPasses (L.seen home.old.outer) (L.seen home.new.outer) }
{
    heard(alloc, message, home.publisher())
}

/// Gives a message to a publisher. It is one, so that nothing but memory can lack.
fn heard(
    alloc: Global,
    message: &Message,
    publisher: &mut Publisher<Cutting>,
) -> Result<Heard, NoMemory>
    ensures same { publisher.new ≡ record publisher.old { store = publisher.new.store } }
    ensures line { IfOk result (λ heard. IsBehind (Some message.now.file) publisher.old.store publisher.new.store heard.lines.items) }
    ensures admitted { IfOk result (λ heard. length publisher.new.store.history ≡ length publisher.old.store.history + heard.admitted) }
    ensures stops { publisher.old.store.stops ≡ publisher.old.doc.stops }
    ensures valid { IsValidSide (side_of chosen_cuts publisher.new) }
{
    publisher.side_is_valid();
    let given = give(alloc, publisher, &message.file);
    publisher.side_is_valid();
    match given {
        Ok(heard) => Ok(heard),
        Err(MessageFault::NoMemory) => Err(NoMemory),
        Err(MessageFault::TooLong { .. } | MessageFault::Broken(_)) => unreachable!(),
    }
}
