//! Directories to read, sinks to write and the door of a server as traits, with the meanings that contracts cite and counts of their
//! faults. It has forms of each in memory, and says how one connection is served. It builds on `lc_model`.
#![tactic(auto)]

mod door;
mod echo_talk;
mod file;
mod folder;
mod laws;
mod mem_door;
mod mem_folder;
mod mem_sink;
mod mem_wire;
mod mem_wires;
mod pieces;
mod serving;
mod sink;
mod sure_door;
mod sure_folder;
mod sure_sink;
mod talk;

pub use door::{Door, DoorFail, Next};
pub use echo_talk::EchoTalk;
pub use file::File;
pub use folder::{Folder, FolderFail};
pub use laws::{near_values, one_step};
pub use mem_door::MemDoor;
pub use mem_folder::MemFolder;
pub use mem_sink::MemSink;
pub use pieces::Pieces;
pub use serving::{Served, serve_one};
pub use sink::{Sink, SinkFail, put_all};
pub use sure_door::SureDoor;
pub use sure_folder::SureFolder;
pub use sure_sink::SureSink;
pub use talk::Talk;
