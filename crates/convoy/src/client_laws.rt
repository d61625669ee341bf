//! When a client agrees with the publisher's side that it asks, as definitions with their laws. The side's replies say the page to which the
//! time gate sends, the stops document and the pages. The client ends with an answer by the timetable of its version, after exactly the
//! needed pages. It builds on `page_client`, on `page_laws` and on the sides of `lc_world`.
mod laws;
mod sides;
mod steps;

pub use laws::{links_lead_on, one_answer, one_published, versions_stay};
pub use sides::{gate_is_stated, pages_are_stated, replies_are_read, stops_are_stated};
pub use steps::{clients_end_right, steps_keep_agreement};
