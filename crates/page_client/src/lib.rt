//! One client: it asks the time gate, the stops document and page after page, until no later page can be better. It
//! knows nothing but the bytes of replies. Its requests and its tests of replies serve other clients too. Clients share a bounded
//! cache of pages, by their names, in the order of their last use. It builds on `csa_scan`, `page_json`, `http_text`, `memento` and
//! `lru` of the kit.
#![tactic(auto)]

mod beginning;
mod cache;
mod client;
mod fault;
mod gate;
mod laws;
mod outcome;
mod page_reply;
mod phase;
mod replied;
mod request;
mod step;
mod stops_reply;
mod want;

pub use cache::{MOST_PAGES, PageCache};
pub use client::Client;
pub use fault::{PeerFault, QueryFault};
pub use gate::gate_said;
pub use laws::one_reply;
pub use outcome::{Outcome, answered, wrong};
pub use page_reply::{last_departure, page_of};
pub use request::{ask_gate, ask_page, ask_stops};
pub use stops_reply::stops_said;
pub use want::Want;
