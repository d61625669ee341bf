//! The edges of this machine: its files, its standard output and its sockets, as a door and as a link. It builds on `lc_world`.
#![tactic(auto)]

mod authority;
mod bounded;
mod caller;
mod dir_folder;
mod std_sink;
mod tcp_door;
mod tcp_link;

pub use dir_folder::DirFolder;
pub use std_sink::StdSink;
pub use tcp_door::TcpDoor;
pub use tcp_link::TcpLink;
