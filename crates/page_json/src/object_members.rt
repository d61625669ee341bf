//! Members of JSON objects as they are read, step by step: lists, texts, ids, numbers and moments, or the first fault.
//! Texts, numbers and moments as they are written. A text is read as a tree of `json`, which is seen as `serde_json`'s data. It
//! builds on these two, on `lc_model`, on `lc_time`, on `fast_float` and on `simdutf8`.
mod fault;
mod json_reading;
mod member_writing;
mod members;
mod number;
mod tree;
mod values;

pub use fault::PageFault;
pub use json_reading::json_in;
pub use member_writing::{write_moment, write_number, write_text};
pub use members::{
    bad_member, delay_at, needed_list, needed_text, no_member, object_under, or_bad, text_under,
};
pub use tree::{member_at, text_in};
pub use values::{id_at, id_if_there, moment_at, seconds_at, text_if_there};
