use lc_model::{Connections, NoMemory, PageName, PlainData};
use std::alloc::Global;

/// A page of a version of the timetable: its connections, and its neighbours where it has them.
#[derive(Drop)]
pub struct Page {
    pub name: PageName,
    pub next: Option<PageName>,
    pub previous: Option<PageName>,
    pub list: Connections,
}

impl PlainData for Page {
    fn copy(&self, alloc: Global) -> Result<Page, NoMemory> {
        Ok(Page {
            name: self.name,
            next: self.next,
            previous: self.previous,
            list: self.list.copy(alloc)?,
        })
    }
}
