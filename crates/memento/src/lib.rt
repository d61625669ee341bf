//! Which version of a timetable is meant by what is known (RFC 7089), and the URLs that name versions and ask for them. It
//! builds on `connection_uri`, `lc_time` and the definitions of `lc_model`.
#![tactic(auto)]

mod gate;
mod negotiation;

pub use connection_uri::{page_url, read_page_url};
pub use gate::{gate_target, gate_url};
pub use negotiation::{negotiate, version_among};
