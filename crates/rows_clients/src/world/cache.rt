//! Pages in the order of their use.
use crate::said::put_named;
use lc_model::{Connections, Moment, NoMemory, PageName};
use page_client::PageCache;
use page_json::Page;
use rows_common::{Draft, Unmade};
use std::alloc::Global;

/// What is done with a cache.
#[derive(Clone, Copy)]
enum Step {
    /// The page of a version and a departure is put, with this departure of its next page.
    Put(u64, u64, u64),
    /// The page of a version and a departure is got.
    Get(u64, u64),
}

/// One page, which another version of the same departure displaces.
static ONE: [Step; 7] = [
    Step::Get(0, 5),
    Step::Put(0, 5, 6),
    Step::Get(0, 5),
    Step::Get(1, 5),
    Step::Put(1, 5, 7),
    Step::Get(1, 5),
    Step::Get(0, 5),
];

/// Two pages: one that was got again stays where another goes, and so does one that was put again, with what was put last.
static TWO: [Step; 12] = [
    Step::Put(0, 1, 11),
    Step::Put(0, 2, 12),
    Step::Get(0, 1),
    Step::Put(1, 1, 13),
    Step::Get(0, 2),
    Step::Get(0, 1),
    Step::Get(1, 1),
    Step::Put(0, 1, 14),
    Step::Put(0, 3, 15),
    Step::Get(1, 1),
    Step::Get(0, 3),
    Step::Get(0, 1),
];

fn page_name(version: u64, departs: u64) -> Result<PageName, Unmade> {
    match (Moment::new(version), Moment::new(departs)) {
        (Some(version), Some(departs)) => Ok(PageName { version, departs }),
        _ => Err(Unmade),
    }
}

/// A line for each step of a cache of one page, and of one of two.
pub(super) fn put_caches(alloc: Global, draft: &mut Draft) {
    put_steps(alloc, draft, PageCache::with_capacity(alloc, 1), &ONE);
    put_steps(alloc, draft, PageCache::with_capacity(alloc, 2), &TWO);
}

fn put_steps(alloc: Global, draft: &mut Draft, made: Result<PageCache, NoMemory>, steps: &[Step]) {
    let Ok(mut cache) = made else {
        return draft.lose();
    };
    put_named(draft, "pages kept: ", &cache.len());
    draft.put("\n");
    for step in steps {
        put_step(alloc, draft, &mut cache, *step);
    }
    put_named(draft, "pages kept: ", &cache.len());
    draft.put("\n");
}

fn put_step(alloc: Global, draft: &mut Draft, cache: &mut PageCache, step: Step) {
    match step {
        Step::Put(version, departs, next) => {
            let made = put_page(alloc, cache, version, departs, next);
            draft.put_part("put a page before: ", made);
            draft.put_shown(&next);
        }
        Step::Get(version, departs) => {
            draft.put("got the page before: ");
            match page_name(version, departs) {
                Ok(name) => put_next(draft, next_of(cache, name)),
                Err(Unmade) => draft.lose(),
            }
        }
    }
    draft.put("\n");
}

/// Puts the page of a version and a departure, with this departure of its next page.
fn put_page(
    alloc: Global,
    cache: &mut PageCache,
    version: u64,
    departs: u64,
    next: u64,
) -> Result<(), Unmade> {
    let page = Page {
        name: page_name(version, departs)?,
        next: Some(page_name(version, next)?),
        previous: None,
        list: Connections::from_list(Vec::new(alloc)),
    };
    Ok(cache.put(page)?)
}

/// The departure of the next page of the page of this name, if it is cached.
fn next_of(cache: &mut PageCache, name: PageName) -> Option<u64> {
    Some(cache.get(name)?.next?.departs.seconds())
}

fn put_next(draft: &mut Draft, next: Option<u64>) {
    match next {
        Some(next) => draft.put_shown(&next),
        None => draft.put("none"),
    }
}
