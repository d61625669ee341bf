//! That clients which take turns over an honest link agree with the publisher's side at its other end, turn after turn, as laws. What
//! one client alone asks and finds. It builds on `client_laws`.
mod laws;
mod worked;

pub use laws::{agreement_begins, one_client, turns_keep_agreement};
pub use worked::worked_names;
