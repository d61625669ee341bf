ghost use Rattle.std.specs.Prelude.{◌≡◌, ◌≢◌, ◌++◌, IfErr, IfOk, OnOk};
ghost use Rattle.cli_replay.specs.Summary.{leaves_in, summary_of};
ghost use Rattle.cli_replay.specs.ReplayLaws.Events.{messages_in};
ghost use Rattle.lc_world.specs.GoneOn.{IsLeftByPasses};
ghost use Rattle.cli_replay.specs.declared.inputs.refusal.Refusal.TheVariants.{Load};
ghost use Rattle.timetable.specs.declared.fault.LoadFault.TheVariants.{NoMemory as OutOfMemory};
ghost use Rattle.lc_cli.specs.Drill.{IsDrillBlock, IsDrillRefused, IsDrilled, IsSummed, drill_folder, drill_line_of, size_line_of};

use crate::block::Block;
use crate::course::Course;
use crate::replay::{play_course, read_course};
use cli_drill::drill_files;
use cli_replay::{Measures, Refusal, Replayed, measures_of, summary_text};
use cli_words::{Drill, Replay, drilled_replay};
use lc_io::SureFolder;
use lc_model::NoMemory;
use lc_world::Link;
use std::alloc::Global;
use timetable::Timetable;

/// What a drill is played from: its files, and the replay of them.
#[derive(Drop)]
struct Drilled {
    folder: SureFolder,
    replay: Replay,
}

/// What a summary says of an event sequence before it is played: its first line, and what it measures.
#[derive(Drop)]
struct Opening {
    line: Vec<u8>,
    measures: Measures,
}

/// Generates files and plays their event sequence. It says the sums over the clients.
pub(crate) fn drill_block<L: Link>(
    alloc: Global,
    drill: Drill,
    link: L,
) -> (Result<Block, Refusal>, L)
    ensures block { IfOk result.0 (IsDrillBlock drill (L.seen link) (L.seen result.1)) }
    ensures refused { IfErr result.0 (IsDrillRefused drill) }
    ensures refusal_leaves_link { IfErr result.0 (λ refusal. refusal ≢ Load OutOfMemory → result.1 ≡ link) }
    ensures left { IsLeftByPasses (L.seen link) (L.seen result.1) }
{
    match generate(alloc, &drill) {
        Ok(drilled) => play_drilled(alloc, &drill, drilled, link),
        Err(NoMemory) => (Err(Refusal::from(NoMemory)), link),
    }
}

/// The generated files, and the replay of them.
fn generate(alloc: Global, drill: &Drill) -> Result<Drilled, NoMemory>
    ensures folder { IfOk result (λ drilled. drilled.folder ≡ drill_folder drill.now) }
    ensures replay { IfOk result (λ drilled. IsDrilled drill.now drilled.replay) }
{
    let files = drill_files(alloc, drill.seed, drill.days)?;
    let folder = SureFolder::new(alloc, files)?;
    let replay = drilled_replay(alloc, drill)?;
    Ok(Drilled { folder, replay })
}

/// Reads the generated files, and plays their event sequence.
fn play_drilled<L: Link>(
    alloc: Global,
    drill: &Drill,
    drilled: Drilled,
    link: L,
) -> (Result<Block, Refusal>, L)
    requires folder { drilled.folder ≡ drill_folder drill.now }
    requires replay { IsDrilled drill.now drilled.replay }
    ensures block { IfOk result.0 (IsDrillBlock drill.now (L.seen link) (L.seen result.1)) }
    ensures refused { IfErr result.0 (IsDrillRefused drill.now) }
    ensures refusal_leaves_link { IfErr result.0 (λ refusal. refusal ≢ Load OutOfMemory → result.1 ≡ link) }
    ensures left { IsLeftByPasses (L.seen link) (L.seen result.1) }
{
    let Drilled { mut folder, replay } = drilled;
    match read_course(alloc, &mut folder, replay) {
        Ok(course) => {
            let (block, link) = play_to_sums(alloc, drill.seed, course, link);
            match block {
                Ok(block) => (Ok(block), link),
                Err(NoMemory) => (Err(Refusal::from(NoMemory)), link),
            }
        }
        Err(refusal) => (Err(refusal), link),
    }
}

/// Plays an event sequence, and says the sums over its clients.
fn play_to_sums<L: Link>(
    alloc: Global,
    seed: u32,
    course: Course,
    link: L,
) -> (Result<Block, NoMemory>, L)
    ensures block { IfOk result.0 (IsSummed seed course (L.seen link) (L.seen result.1)) }
    ensures left { IsLeftByPasses (L.seen link) (L.seen result.1) }
{
    match opening_of(alloc, seed, &course) {
        Ok(opening) => {
            let (played, link) = play_course(alloc, course, link);
            match played {
                Ok(replayed) => (summed_block(alloc, opening, replayed), link),
                Err(NoMemory) => (Err(NoMemory), link),
            }
        }
        Err(NoMemory) => (Err(NoMemory), link),
    }
}

/// What a summary says of an event sequence before it is played.
fn opening_of(alloc: Global, seed: u32, course: &Course) -> Result<Opening, NoMemory>
    ensures line { IfOk result (λ opening. opening.line.items ≡ drill_line_of seed course.now.made) }
    ensures messages { IfOk result (λ opening. opening.measures.messages ≡ messages_in course.now.events.items) }
    ensures leaves { IfOk result (λ opening. opening.measures.leaves.items ≡ leaves_in course.now.events.items) }
{
    let line = drill_line(alloc, seed, &course.made)?;
    let measures = measures_of(alloc, course.events.as_slice())?;
    Ok(Opening { line, measures })
}

/// The first line of a summary: the number, and how large the timetable is.
fn drill_line(alloc: Global, seed: u32, made: &Timetable) -> Result<Vec<u8>, NoMemory>
    ensures { IfOk result (λ line. line.items ≡ drill_line_of seed made.now) }
{
    let stops = made.doc.stops.as_slice().len();
    let trips = u128::from(made.trips) + u128::from(made.left_out);
    size_line(alloc, seed, stops, trips, made.connections)
}

fn size_line(
    alloc: Global,
    seed: u32,
    stops: usize,
    trips: u128,
    connections: u64,
) -> Result<Vec<u8>, NoMemory>
    ensures { IfOk result (λ line. line.items ≡ size_line_of seed stops trips connections) }
{
    let line = format!(in alloc;
        "drill {seed} stops {stops} trips {trips} connections {connections}\n"
    )?;
    Ok(line.into_bytes())
}

/// The lines of a summary, with how the clients ended.
fn summed_block(alloc: Global, opening: Opening, replayed: Replayed) -> Result<Block, NoMemory>
    ensures text { IfOk result (λ block. block.text.items ≡ opening.line.items
        ++ summary_of replayed.admitted opening.measures.messages opening.measures.leaves.items replayed.ends.items) }
    ensures ends { IfOk result (λ block. block.ends ≡ replayed.ends) }
{
    let text = summed_text(alloc, &opening, &replayed)?;
    Ok(Block {
        text,
        ends: replayed.ends,
    })
}

fn summed_text(alloc: Global, opening: &Opening, replayed: &Replayed) -> Result<Vec<u8>, NoMemory>
    ensures { IfOk result (λ text. text.items ≡ opening.now.line.items
        ++ summary_of replayed.now.admitted opening.now.measures.messages opening.now.measures.leaves.items replayed.now.ends.items) }
{
    let summary = summary_text(alloc, &opening.measures, replayed)?;
    let mut text = Vec::from_slice(alloc, opening.line.as_slice())?;
    text.extend_from_slice(summary.as_slice())?;
    Ok(text)
}
