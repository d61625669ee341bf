//! The names of connections and the URLs of pages under a base, each with one spelling that is read back exactly. It
//! builds on `lc_model`, on `lc_time`, on `url` and on `percent_encoding`.
#![tactic(auto)]

mod base;
mod encoding;
mod names;
mod pages;
mod parts;

pub use base::{Base, base_is_cut_once, bases_are_read, bases_are_written, one_base};
pub use encoding::{append_encoded, decode, encode};
pub use names::{append_run, fill_name, name, names_differ, read_name};
pub use pages::{
    append_moment, fill_page_url, page_targets_join, page_url, page_urls_differ, page_urls_join,
    read_page_url,
};
pub use parts::{behind, behind_base, read_decimal, read_start_part};
