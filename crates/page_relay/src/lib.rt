//! A link over a link that keeps replies: pages at their versions and the stops document, which never change. It answers from bounded memory
//! what it keeps, and hands on the rest. It builds on `lc_world`, on `http_text`, and on `lru` and the log for proofs of `http_server` of the kit.
#![tactic(auto)]

mod exchanger;
mod keeper;
mod keeping;
mod laws;
mod memory;
mod near;
mod recorded;
mod relay;
mod sent;
mod transcript;
mod worked;

pub use laws::{
    clients_are_kept, counts_are_since, kept_replies_stay, new_relays_are_honest, one_memory,
    relays_leave_below,
};
pub use near::{near_memories, near_relays};
pub use relay::{MOST_ENTRIES, Relay};
pub use sent::SentRequest;
pub use worked::{worked_memories, worked_relays};
