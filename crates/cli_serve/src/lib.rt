//! What `serve` does with a publisher: it listens, serves one connection after the other, and writes what came of it. A connection is answered
//! by a session, which keeps the publisher for the next one. It builds on `wire_session`, which says what is replied, on `lc_io`, by whose trait
//! a connection is served.
#![tactic(auto)]

mod clients;
mod command;
mod fault;
mod laws;
mod lines;
mod serving;
mod stop;
mod tally;
mod visit;

pub use command::serve;
pub use fault::ServeFault;
pub use laws::{near_servings, near_sides, one_over_bytes, one_serving};
