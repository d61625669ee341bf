//! Links to a publisher as a trait with the meanings that contracts cite and a count of its faults, with a form in memory. It hands on
//! the rest of the outside: the directories, sinks, doors and talks of `lc_io`. What a link may have at its other end is in `sides`. It builds
//! on `lc_io`, and on `http_text` for requests.
#![tactic(auto)]

mod entry;
mod link;
mod list_link;
mod sides;

pub use entry::{Entry, RecordedReply};
pub use lc_io::{
    Door, DoorFail, EchoTalk, File, Folder, FolderFail, MemDoor, MemFolder, MemSink, Next, Pieces,
    Served, Sink, SinkFail, SureDoor, SureFolder, SureSink, Talk, put_all, serve_one,
};
pub use link::{Link, LinkFail};
pub use list_link::ListLink;
pub use sides::{
    Asked, Response, mementos_stay, near_replies, near_values, next_is_later, one_reply,
    worked_sides,
};
