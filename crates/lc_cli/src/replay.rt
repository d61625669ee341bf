ghost use Rattle.std.specs.Prelude.{◌≡◌, ◌≢◌, IfErr, IfOk};
ghost use Rattle.cli_replay.specs.Inputs.Script.{IsReplayRefused};
ghost use Rattle.cli_replay.specs.declared.inputs.refusal.Refusal.TheVariants.{Load};
ghost use Rattle.gtfs_tables.specs.Reading.{Keeps};
ghost use Rattle.cli_replay.specs.ReplayLaws.Replayed.{IsReplayed};
ghost use Rattle.cli_replay.specs.ReplayLaws.Versions.{HaveAdmitted};
ghost use Rattle.lc_world.specs.GoneOn.{IsLeftByPasses};
ghost use Rattle.timetable.specs.declared.fault.LoadFault.TheVariants.{NoMemory as OutOfMemory};
ghost use Rattle.lc_cli.specs.Replay.{IsCourse, IsReplayBlock};
ghost use Rattle.lc_cli.specs.Scope.{scope_of};

use crate::block::Block;
use crate::course::Course;
use crate::scope::scope_of;
use cli_replay::{Refusal, ReplayInputs, Replayed, read_replay};
use cli_words::Replay;
use lc_io::Folder;
use lc_model::NoMemory;
use lc_world::Link;
use std::alloc::Global;

/// Reads what an event sequence is played from, and plays it.
pub(crate) fn replay_block<F: Folder, L: Link>(
    alloc: Global,
    folder: &mut F,
    replay: Replay,
    link: L,
) -> (Result<Block, Refusal>, L)
    ensures block { IfOk result.0 (IsReplayBlock replay (F.seen folder.old) (F.seen folder.new) (L.seen link) (L.seen result.1)) }
    ensures refused { IfErr result.0 (IsReplayRefused (scope_of replay.window) replay.script (F.seen folder.old) (F.seen folder.new)) }
    ensures kept { Keeps (F.seen folder.old) (F.seen folder.new) }
    ensures refusal_leaves_link { IfErr result.0 (λ refusal. refusal ≢ Load OutOfMemory → result.1 ≡ link) }
    ensures left { IsLeftByPasses (L.seen link) (L.seen result.1) }
{
    match read_course(alloc, folder, replay) {
        Ok(course) => {
            let (played, link) = play_course(alloc, course, link);
            match played {
                Ok(replayed) => (Ok(course_block(replayed)), link),
                Err(NoMemory) => (Err(Refusal::from(NoMemory)), link),
            }
        }
        Err(refusal) => (Err(refusal), link),
    }
}

/// The output of an event sequence that was played.
fn course_block(replayed: Replayed) -> Block
    ensures text { result.text ≡ replayed.text }
    ensures ends { result.ends ≡ replayed.ends }
{
    let Replayed { text, ends, .. } = replayed;
    Block { text, ends }
}

/// Reads what an event sequence is played from: the script, the timetable and the messages.
pub(crate) fn read_course<F: Folder>(
    alloc: Global,
    folder: &mut F,
    replay: Replay,
) -> Result<Course, Refusal>
    ensures course { IfOk result (IsCourse replay (F.seen folder.old) (F.seen folder.new)) }
    ensures refused { IfErr result (IsReplayRefused (scope_of replay.window) replay.script (F.seen folder.old) (F.seen folder.new)) }
    ensures kept { Keeps (F.seen folder.old) (F.seen folder.new) }
{
    let Replay {
        window,
        publishing,
        cache,
        script,
        ..
    } = replay;
    let scope = scope_of(window);
    match read_replay(alloc, folder, &scope, script) {
        Ok(ReplayInputs { made, events }) => Ok(Course {
            made,
            events,
            publishing,
            cache,
        }),
        Err(refusal) => Err(refusal),
    }
}

/// Plays an event sequence. Each reply is handed on over the link, which is given back.
pub(crate) fn play_course<L: Link>(
    alloc: Global,
    course: Course,
    link: L,
) -> (Result<Replayed, NoMemory>, L)
    ensures replayed { IfOk result.0 (λ replayed. IsReplayed course.made course.publishing course.events.items course.cache (L.seen link) (L.seen result.1) replayed.text.items replayed.ends.items) }
    ensures admitted { IfOk result.0 (λ replayed. HaveAdmitted course.made course.publishing course.events.items replayed.admitted) }
    ensures left { IsLeftByPasses (L.seen link) (L.seen result.1) }
{
    let Course {
        made,
        events,
        publishing,
        cache,
        ..
    } = course;
    cli_replay::replay(alloc, made, publishing, events, cache as usize, link)
}
