//! Many clients that share one bounded cache of pages, over any link. Beside the clients are their laws: of pages, of
//! one client over the replies of a publisher, of clients that agree with it turn after turn, and of what any replies mean.
//! It builds on `page_client` and `lc_world`.
#![tactic(auto)]

mod agreement;
mod client_laws;
mod convoy;
mod exchange;
mod member;
mod page_laws;
mod replies;
mod steps;
mod turn;
mod turning;

pub use agreement::{agreement_begins, one_client, turns_keep_agreement, worked_names};
pub use client_laws::{
    clients_end_right, gate_is_stated, links_lead_on, one_answer, one_published, pages_are_stated,
    replies_are_read, steps_keep_agreement, stops_are_stated, versions_stay,
};
pub use convoy::Convoy;
pub use exchange::exchanged;
pub use member::Member;
pub use page_laws::{
    chains_are_journeys, early_may_go, journeys_along_next, legs_along_next, needed_are_taken,
    needed_of_journeys, no_journey_arrives_earlier, one_list_of_needed, page_of_a_moment,
    pages_in_a_row, some_least_arrival, stop_is_right, worked_pages,
};
pub use replies::{
    alone_asks_all, alone_over_any_link, cached_pages, faults_are_around_last, one_end,
    one_recorded_end,
};
pub use turn::Turn;
