//! The wire format of Protocol Buffers: which field of a message comes next, or which fault its bytes have, and how a field is
//! written. It builds on `lc_model` for running out of memory.
#![tactic(auto)]

mod fault;
mod field;
mod parting;
mod reading;
mod writing;

pub use fault::WireFault;
pub use field::{Field, Value};
pub use parting::one_parting;
pub use reading::next_field;
pub use writing::{put_bytes, put_varint, written_fields};
