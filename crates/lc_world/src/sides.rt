//! What a publisher's side is and what it replies, as definitions with their laws. It builds on `lc_model` for what was known
//! when, on `trip_updates` for messages, on `memento`, and on `page_json` and `http_text` for the texts.
mod asked;
mod laws;
mod response;
mod worked;

pub use asked::Asked;
pub use laws::{mementos_stay, near_replies, near_values, next_is_later, one_reply};
pub use response::Response;
pub use worked::worked_sides;
