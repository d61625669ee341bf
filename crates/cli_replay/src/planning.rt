//! Plans: clients that share a cache of pages ask a publisher over the link handed in, in turn, or over a relay of it. What is printed of them,
//! and how many of their exchanges a relay handed on. It builds on `plan_laws` and `page_relay`.
mod events;
mod laws;
mod planning;
mod relaying;

pub use laws::{counts_are_growth, relays_plan_right, worked_counts};
pub use planning::{Planned, plan};
pub use relaying::relay;
