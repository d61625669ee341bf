use lc_model::StopsDoc;
use page_json::Page;

/// What a client was given: the stops document, once it took that, and the pages that it took, one after the other.
#[derive(Drop)]
pub struct Given {
    pub doc: Option<StopsDoc>,
    pub pages: Vec<Page>,
}
