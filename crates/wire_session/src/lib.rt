//! The session of one HTTP connection: it is fed bytes in pieces, however they were cut, and gives the replies to the requests in
//! them. It builds on `publisher`, which answers each request, and on `http_text`, which takes the requests from the bytes.
#![tactic(auto)]

mod answering;
mod fed;
mod hearing;
mod laws;
mod next;
mod output;
mod phase;
mod replies;
mod session;

pub use fed::Fed;
pub use laws::{near_outputs, one_output, stands_means};
pub use session::Session;
