//! Messages of HTTP/1.1: requests and replies taken from bytes, refused, read and written exactly. It builds on the
//! grammar of `httparse`, on `form_urlencoded` for queries, on `connection_uri` for bases and on `lc_time` for dates.
#![tactic(auto)]

mod answering;
mod asking;
mod connection;
mod field;
mod front;
mod head;
mod laws;
mod length;
mod line;
mod member;
mod named;
mod open_target;
mod reading;
mod reply;
mod reply_fault;
mod reply_parts;
mod reply_reading;
mod request;
mod room;
mod start;
mod taken;
mod taken_laws;
mod target;

pub use answering::reply_text;
pub use asking::request_text;
pub use field::{Field, Fields};
pub use laws::{one_message, some_reply, targets_are_good, targets_are_read};
pub use member::{Member, Members};
pub use reading::read_request;
pub use reply::Reply;
pub use reply_fault::ReplyFault;
pub use reply_parts::{Allow, BodyKind, ReplyParts};
pub use reply_reading::read_reply;
pub use request::Request;
pub use room::{HeadRoom, take_request};
pub use taken::Taken;
pub use taken_laws::{one_taking, taking_stays};
