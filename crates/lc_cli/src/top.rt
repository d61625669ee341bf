ghost use Rattle.std.specs.Prelude.{◌≡◌, ◌⊎◌};
ghost use Rattle.cli_words.specs.Line.{texts_of};
ghost use Rattle.cli_words.specs.Words.{SaysCommand};
ghost use Rattle.cli_words.specs.declared.command.Check.{Check};
ghost use Rattle.cli_words.specs.declared.command.Command.{Command};
ghost use Rattle.cli_words.specs.declared.command.Command.TheVariants as commands;
ghost use Rattle.cli_words.specs.declared.command.Serve.{Serve as Served};
ghost use Rattle.cli_serve.specs.Serve.{DoorNeverFell};
ghost use Rattle.gtfs_tables.specs.Reading.{Keeps};
ghost use Rattle.lc_world.specs.GoneOn.{HasGoneOn};
ghost use Rattle.lc_cli.specs.Clear.{IsAnswered, IsClear};
ghost use Rattle.lc_cli.specs.Command.{LeavesLink};
ghost use Rattle.lc_cli.specs.Top.{IsEarlyRefusal, IsRight};
ghost use Rattle.cli_serve.specs.Written.{SinkNeverFell};

use crate::block::write_block;
use crate::command::outcome;
use crate::refusal::refuse;
use crate::serve::serve;
use crate::status::Status;
use crate::work::Work;
use cli_replay::relays_plan_right;
use cli_words::one_command;
use journey_text::one_script;
use lc_io::{Door, Folder, Sink};
use lc_world::Link;
use std::alloc::Global;
use timetable::one_timetable;
use version_store::one_outcome;

/// Runs the command of these arguments, over a directory, a link, a door and a sink, and gives the link back.
///
/// `check FEED FIRST` reads the GTFS feed of that name in the directory and prints its counts, or the first rule that it breaks.
/// `ask FEED FROM TO MOMENT` publishes its timetable as pages, with the realtime message of a file where `--update` names one. It lets a
/// client ask this publisher and prints a best journey, or that there is none. The journey leaves at the moment or later, and arrives
/// within the horizon. The timetable is the one that was known then. Each reply is handed on over the link.
/// `replay FEED FIRST SCRIPT` plays the day of a script to such a publisher. Messages come in between the exchanges of many clients that share a
/// cache of pages. Each client's answer is best by the timetable as it was known when it first asked.
/// `serve FEED FIRST --port P --connections N` publishes a timetable at the door. It answers the requests of this many connections, one
/// after the other, and prints how many there were. With `--accept-updates` clients may post messages.
/// `plan URL ASKS` lets the clients of a script ask the publisher under the URL, over the link handed in, and prints their answers.
/// `drill N` is `replay` over files that are generated from the number, and prints sums over the clients.
/// `fewest FEED FROM TO MOMENT` is `ask` for a best journey that has the fewest rides of all best ones.
/// `arrive FEED FROM TO MOMENT` is `ask` for a journey that arrives by the moment and leaves as late as any. Its client asks for pages back.
/// `relay URL ASKS` is `plan` through a relay that keeps documents, and prints how many exchanges it handed on over the link.
pub fn run<F: Folder, L: Link, D: Door, S: Sink>(
    alloc: Global,
    words: &[String],
    folder: &mut F,
    link: L,
    door: &mut D,
    out: &mut S,
) -> (Status, L)
    ensures status { IsRight L.seen (record {
      words = texts_of words.now;
      folder_before = F.seen folder.old;
      folder_after = F.seen folder.new;
      link_before = link;
      link_after = result.1;
      door_before = D.seen door.old;
      door_after = D.seen door.new;
      sink_before = S.seen out.old;
      sink_after = S.seen out.new;
    }) result.0 }

    // Usage comes wherever the arguments say no command, memory apart.
    ensures usage_only { ((command : Command) → SaysCommand (texts_of words.now) command → ⊥)
        → (result.0 ≡ Status.Usage) ⊎ (result.0 ≡ Status.NoMemory) }

    // Nothing but memory keeps the output from being printed where no rule refuses the feed, the script and the messages, and no fault is
    // counted. Clients have a clear link, or those of `plan` and `relay` an honest one. What fails on a connection of `serve` does not hinder it.
    ensures complete { IsClear L.seen (record {
      words = texts_of words.now;
      folder_before = F.seen folder.old;
      folder_after = F.seen folder.new;
      link_before = link;
      link_after = result.1;
      door_before = D.seen door.old;
      door_after = D.seen door.new;
      sink_before = S.seen out.old;
      sink_after = S.seen out.new;
    }) → IsAnswered result.0 }

    // The directory has the same files, and no count has fallen. The door is as it was, but for `serve`.
    ensures folder { Keeps (F.seen folder.old) (F.seen folder.new) }
    ensures sink { SinkNeverFell (S.seen out.old) (S.seen out.new) }
    ensures door { ((serve : Served) → SaysCommand (texts_of words.now) (commands.Serve serve) → ⊥) → door.new ≡ door.old }
    ensures door_counts { DoorNeverFell (D.seen door.old) (D.seen door.new) }

    // However it ended, the count of the link has not fallen, and nothing is lost of what it recorded. `ask`, `fewest`, `arrive`, `replay` and
    // `drill` hand answers on over it, and its side stays. `plan` and `relay` leave an honest link honest.
    ensures link { HasGoneOn (L.seen link) (L.seen result.1) }
    ensures command_leaves_link { (command : Command) → SaysCommand (texts_of words.now) command → LeavesLink command (L.seen link) (L.seen result.1) }

    // `check` and `serve` ask nothing of the link, and nor does what is refused before its client asks.
    ensures check_leaves_link { (check : Check) → SaysCommand (texts_of words.now) (commands.Check check) → result.1 ≡ link }
    ensures serve_leaves_link { (serve : Served) → SaysCommand (texts_of words.now) (commands.Serve serve) → result.1 ≡ link }
    ensures refusal_leaves_link { IsEarlyRefusal result.0 → result.1 ≡ link }
{
    one_command();
    one_timetable();
    one_outcome();
    one_script();
    relays_plan_right::<L>();
    let (came, link) = outcome(alloc, words, folder, link);
    match came {
        Ok(Work::Print(block)) => (write_block(block, out), link),
        Ok(Work::Serve(server)) => (serve(alloc, server, door, out), link),
        Err(refusal) => (refuse(alloc, refusal, out), link),
    }
}
