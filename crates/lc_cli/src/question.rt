ghost use Rattle.std.specs.Prelude.{◌≡◌, ◌≢◌, [], ◌∷◌, IfErr, IfOk};
ghost use Rattle.cli_ask.specs.Admission.{IsFaulty};
ghost use Rattle.cli_replay.specs.Inputs.Inputs.{IsMessageRefusal, IsRefusedFor};
ghost use Rattle.cli_replay.specs.declared.inputs.refusal.Refusal.TheVariants.{Load};
ghost use Rattle.gtfs_tables.specs.Reading.{Keeps};
ghost use Rattle.lc_world.specs.GoneOn.{IsLeftByPasses};
ghost use Rattle.timetable.specs.declared.fault.LoadFault.TheVariants.{NoMemory as OutOfMemory};
ghost use Rattle.version_store.specs.declared.message_fault.MessageFault.TheVariants as messages;
ghost use Rattle.lc_cli.specs.Command.{IsQuestionBlock};
ghost use Rattle.lc_cli.specs.Question.{CachesPages, IsAskedSo, IsEndBlock, IsUnasked};
ghost use Rattle.lc_cli.specs.Scope.{scope_of};

use crate::block::Block;
use crate::refusal::message_refusal;
use crate::scope::scope_of;
use back_scan::ArriveQuery;
use cli_ask::Asked;
use cli_replay::{Inputs, Refusal, read_inputs};
use cli_words::{Published, Publishing};
use lc_io::{File, Folder};
use lc_model::{NoMemory, Query};
use lc_world::Link;
use std::alloc::Global;
use timetable::Timetable;
use version_store::MessageFault;

/// What a client asks an in-process publisher.
#[derive(Drop)]
pub enum Asking {
    /// For the earliest arrival, with so many pages cached at most.
    Earliest { query: Query, cache: u32 },
    /// For the fewest rides among the earliest arrivals.
    Fewest(Query),
    /// For the latest departure.
    Latest(ArriveQuery),
}

/// Reads what a question is asked of, and lets a client ask it.
pub(crate) fn question_block<F: Folder, L: Link>(
    alloc: Global,
    folder: &mut F,
    published: Published,
    asking: Asking,
    link: L,
) -> (Result<Block, Refusal>, L)
    requires { CachesPages asking }
    ensures block { IfOk result.0 (IsQuestionBlock published asking (F.seen folder.old) (F.seen folder.new) (L.seen link) (L.seen result.1)) }
    ensures refused { IfErr result.0 (IsRefusedFor (scope_of published.window) published.update (F.seen folder.old) (F.seen folder.new)) }
    ensures kept { Keeps (F.seen folder.old) (F.seen folder.new) }
    ensures refusal_leaves_link { IfErr result.0 (λ refusal. refusal ≢ Load OutOfMemory → result.1 ≡ link) }
    ensures left { IsLeftByPasses (L.seen link) (L.seen result.1) }
{
    let Published {
        window,
        publishing,
        update,
    } = published;
    let scope = scope_of(window);
    match read_inputs(alloc, folder, &scope, update) {
        Ok(Inputs { made, file }) => {
            let (ended, link) = ask_publisher(alloc, made, publishing, &file, asking, link);
            (ended_block(alloc, ended, file), link)
        }
        Err(refusal) => (Err(refusal), link),
    }
}

/// Publishes a timetable, gives the publisher the message of a file, if there is one, and lets a client ask it.
fn ask_publisher<L: Link>(
    alloc: Global,
    made: Timetable,
    publishing: Publishing,
    file: &Option<File>,
    asking: Asking,
    link: L,
) -> (Result<Asked, MessageFault>, L)
    requires { CachesPages asking }
    ensures asked { IfOk result.0 (λ asked. IsAskedSo asking made publishing file.now (L.seen link) (L.seen result.1) asked.text.items asked.end) }
    ensures faulty { IfErr result.0 (IsFaulty file.now) }
    ensures unasked { IfErr result.0 (λ fault. fault ≢ messages.NoMemory → result.1 ≡ link) }
    ensures left { IsLeftByPasses (L.seen link) (L.seen result.1) }
{
    match asking {
        Asking::Earliest { query, cache } => cli_ask::ask(
            alloc,
            made,
            publishing,
            file,
            query,
            cache as usize,
            link,
        ),
        Asking::Fewest(query) => { cli_ask::ask_fewest(alloc, made, publishing, file, query, link) }
        Asking::Latest(query) => { cli_ask::ask_arrive(alloc, made, publishing, file, query, link) }
    }
}

/// What is printed of a question that ended so, or why the file is no message.
fn ended_block(
    alloc: Global,
    ended: Result<Asked, MessageFault>,
    file: Option<File>,
) -> Result<Block, Refusal>
    requires { IfErr ended (IsFaulty file) }
    ensures block { IfOk result (IsEndBlock ended) }
    ensures refused { IfErr result (IsMessageRefusal file) }
    ensures unasked { IfErr result (λ refusal. refusal ≢ Load OutOfMemory → IsUnasked ended) }
{
    match ended {
        Ok(asked) => match client_block(alloc, asked) {
            Ok(block) => Ok(block),
            Err(NoMemory) => Err(Refusal::from(NoMemory)),
        },
        Err(fault) => Err(message_refusal(fault, file)),
    }
}

/// What is printed of a question.
fn client_block(alloc: Global, asked: Asked) -> Result<Block, NoMemory>
    ensures text { IfOk result (λ block. block.text ≡ asked.text) }
    ensures ends { IfOk result (λ block. block.ends.items ≡ asked.end ∷ []) }
{
    let Asked { text, end } = asked;
    let mut ends = Vec::new(alloc);
    match ends.push(end) {
        Ok(()) => Ok(Block { text, ends }),
        Err(_) => Err(NoMemory),
    }
}
