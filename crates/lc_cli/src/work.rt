use crate::block::Block;
use crate::server::Server;

/// What a command results in before anything is written.
#[derive(Drop)]
pub enum Work {
    /// A text to print.
    Print(Block),
    /// A publisher to serve.
    Serve(Server),
}
