use http_text::Allow;
use lc_model::{Moment, PageName};
use page_json::Page;

/// What a publisher says to a request, before it is written as a reply.
#[derive(Drop)]
pub enum Response {
    /// A status alone.
    Status(u16),
    /// The resource has these methods only.
    OtherMethod(Allow),
    /// The page for departures from this moment on.
    Found { page: PageName, departs: Moment },
    Page(Page),
    /// The stops document.
    Stops,
}
