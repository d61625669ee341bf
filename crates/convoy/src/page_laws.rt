//! The laws of pages and of their connections. A list in departure order has the journeys of the timetable that it comes from, and a least
//! arrival of them. Along the links of pages the order of departures goes on, and rides are legs from the page asked for on. They say
//! where a page may be last and which are needed. It builds on `lc_model`.
mod chain;
mod journeys;
mod needed;
mod rides;
mod stop;
mod worked;

pub use chain::{page_of_a_moment, pages_in_a_row};
pub use journeys::{chains_are_journeys, some_least_arrival};
pub use needed::{needed_are_taken, needed_of_journeys, one_list_of_needed};
pub use rides::{early_may_go, journeys_along_next, legs_along_next};
pub use stop::{no_journey_arrives_earlier, stop_is_right};
pub use worked::worked_pages;
