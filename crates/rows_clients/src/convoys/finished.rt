//! Two clients, one after the other: the second one finds both pages in the cache. A third one's question is refused.
use super::linked::link_of;
use super::{ADDRESS, LEAVE, ask_each, put_outcome};
use crate::making::{ask, begun};
use crate::said::put_named;
use convoy::Convoy;
use lc_world::{Link, ListLink};
use rows_common::{Draft, Unmade};
use std::alloc::Global;

/// The lines of a convoy that is finished.
pub(super) fn put_finished(alloc: Global, draft: &mut Draft) {
    let Ok(mut link) = link_of(alloc, draft, "gate stops 0/1 1/ gate stops") else {
        return draft.lose();
    };
    match begun(alloc, ADDRESS, 2) {
        Ok(convoy) => put_convoy(alloc, draft, convoy, &mut link),
        Err(Unmade) => draft.lose(),
    }
}

fn put_convoy(alloc: Global, draft: &mut Draft, mut convoy: Convoy, link: &mut ListLink) {
    put_asked(alloc, draft, &mut convoy);
    put_before(draft, &convoy);
    draft.need(convoy.finish(alloc, link));
    put_after(draft, &convoy, link);
    put_kept(draft, convoy);
}

/// The number of the third client.
fn put_asked(alloc: Global, draft: &mut Draft, convoy: &mut Convoy) {
    ask_each(alloc, draft, convoy, 2, 3_600);
    match ask(alloc, convoy, "E", "F", LEAVE, 0) {
        Ok(number) => put_named(draft, "asked: ", &number),
        Err(Unmade) => draft.lose(),
    }
    draft.put("\n");
}

/// That client 1 has no version and no outcome yet.
fn put_before(draft: &mut Draft, convoy: &Convoy) {
    let clients = convoy.clients();
    if clients < 1 {
        return draft.lose();
    }
    put_named(draft, "before: clients ", &clients);
    put_named(draft, ", no version ", &convoy.version(1).is_none());
    put_named(draft, ", no outcome ", &convoy.outcome(1).is_none());
    draft.put("\n");
}

/// How many clients there are, client 2's version by the time gate, how many exchanges each made, and what the link recorded.
fn put_after(draft: &mut Draft, convoy: &Convoy, link: &ListLink) {
    let clients = convoy.clients();
    if clients < 3 {
        return draft.lose();
    }
    let Some(version) = convoy.version(2) else {
        return draft.lose();
    };
    put_named(draft, "after: clients ", &clients);
    put_named(draft, ", version ", &version.seconds());
    put_named(draft, ", exchanges ", &convoy.exchanges(1));
    put_named(draft, " ", &convoy.exchanges(2));
    put_named(draft, " ", &convoy.exchanges(3));
    put_named(draft, "\nlink: recorded ", &link.recorded().len());
    put_named(draft, ", faults ", &link.faults());
    draft.put("\n");
}

/// How client 2 ended, taken out of the convoy.
fn put_kept(draft: &mut Draft, convoy: Convoy) {
    if convoy.clients() < 2 {
        return draft.lose();
    }
    let outcome = convoy.into_outcome(2);
    draft.put("kept: ");
    put_outcome(draft, outcome.as_ref());
    draft.put("\n");
    drop(outcome);
}
