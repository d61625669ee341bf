ghost use Rattle.std.specs.Prelude.{◌≡◌};
ghost use Rattle.lc_cli.specs.Status.{code_of};

use gtfs_tables::What;
use lc_model::{Bytes, NoMemory, PlainData, Text};
use page_client::{PeerFault, QueryFault};
use std::alloc::Global;
use trip_updates::RtFault;

/// How a run ended.
#[derive(Drop)]
pub enum Status {
    /// All inputs were read to their end, and all output was written.
    Done,
    /// The arguments are none that a command has.
    Usage,
    /// A file of the feed breaks a rule in a row, or as a whole in row 0. By rule 15 the word of the zone says none.
    FeedBroken {
        rule: u8,
        file: Text,
        row: u64,
    },
    /// The file of this name is no realtime message.
    UpdateBroken {
        name: Text,
        fault: RtFault,
    },
    /// The directory failed: its count of faults before and after.
    FolderFault {
        before: u64,
        after: u64,
    },
    /// The sink failed: its count of faults before and after.
    SinkFault {
        before: u64,
        after: u64,
    },
    /// An exchange of a client, counted from 1, failed: the link's count of faults before and after.
    LinkFault {
        client: usize,
        before: u64,
        after: u64,
    },
    /// This reply to a client fails a test.
    PeerWrong {
        client: usize,
        reply: Bytes,
        fault: PeerFault,
    },
    /// The question of a client is refused.
    QueryRefused {
        client: usize,
        fault: QueryFault,
    },
    /// The door failed to open, or to take the next client: its count of faults before and after.
    DoorFault {
        before: u64,
        after: u64,
    },
    /// This row of the script is wrong, or names a file that is absent. Row 0: the script itself is absent, or the file of `--update`.
    ScriptWrong {
        row: u64,
    },
    NoMemory,
    /// The feed, its timetable or a message has more of something than is taken: so much of it.
    TooLarge {
        what: What,
        count: u64,
    },
}

impl PlainData for Status {
    fn copy(&self, alloc: Global) -> Result<Status, NoMemory> {
        Ok(match self {
            Status::Done => Status::Done,
            Status::Usage => Status::Usage,
            Status::FeedBroken { rule, file, row } => Status::FeedBroken {
                rule: *rule,
                file: file.copy(alloc)?,
                row: *row,
            },
            Status::UpdateBroken { name, fault } => Status::UpdateBroken {
                name: name.copy(alloc)?,
                fault: *fault,
            },
            Status::PeerWrong {
                client,
                reply,
                fault,
            } => Status::PeerWrong {
                client: *client,
                reply: reply.copy(alloc)?,
                fault: fault.copy(alloc)?,
            },
            Status::FolderFault { before, after } => Status::FolderFault {
                before: *before,
                after: *after,
            },
            Status::SinkFault { before, after } => Status::SinkFault {
                before: *before,
                after: *after,
            },
            Status::LinkFault {
                client,
                before,
                after,
            } => Status::LinkFault {
                client: *client,
                before: *before,
                after: *after,
            },
            Status::QueryRefused { client, fault } => Status::QueryRefused {
                client: *client,
                fault: *fault,
            },
            Status::DoorFault { before, after } => Status::DoorFault {
                before: *before,
                after: *after,
            },
            Status::ScriptWrong { row } => Status::ScriptWrong { row: *row },
            Status::NoMemory => Status::NoMemory,
            Status::TooLarge { what, count } => Status::TooLarge {
                what: *what,
                count: *count,
            },
        })
    }
}

/// The exit status of the program.
pub fn code(status: &Status) -> u8
    ensures { result ≡ code_of status.now }
{
    match status {
        Status::Done => 0,
        Status::Usage => 2,
        Status::FeedBroken { .. } => 3,
        Status::UpdateBroken { .. } => 4,
        Status::FolderFault { .. } => 5,
        Status::SinkFault { .. } => 6,
        Status::LinkFault { .. } => 7,
        Status::PeerWrong { .. } => 8,
        Status::QueryRefused { .. } => 9,
        Status::DoorFault { .. } => 10,
        Status::ScriptWrong { .. } => 11,
        Status::NoMemory => 12,
        Status::TooLarge { .. } => 13,
    }
}
