//! Ids, bytes, questions, convoys and links that more cases have.
use connection_uri::Base;
use convoy::Convoy;
use lc_model::{Bytes, FIRST_LEAVE, Id, LAST_LEAVE, Moment, Query};
use lc_world::ListLink;
use rows_common::Unmade;
use std::alloc::Global;

/// 2024-05-01T00:00:00Z, from which the tables count their seconds.
pub(crate) const MIDNIGHT: u64 = 1_714_521_600;

/// The text of the base of the publishers.
pub(crate) const ADDRESS: &[u8] = b"http://lc.example/";

/// The reply that there is no such resource.
pub(crate) const NOT_FOUND: &str = "HTTP/1.1 404 Not Found\r\nContent-Length: 0\r\n\r\n";

/// The front of the reply with a page of the first moment of all.
pub(crate) const MEMENTO: &str =
    "HTTP/1.1 200 OK\r\nMemento-Datetime: Thu, 01 Jan 1970 00:00:00 GMT\r\n\r\n{";

/// The base of the publishers.
pub(crate) fn base(alloc: Global) -> Result<Base, Unmade> {
    match Base::read(alloc, ADDRESS) {
        Ok(Some(base)) => Ok(base),
        _ => Err(Unmade),
    }
}

pub(crate) fn id(alloc: Global, text: &str) -> Result<Id, Unmade> {
    match Id::new(alloc, text.as_bytes()) {
        Ok(Some(id)) => Ok(id),
        _ => Err(Unmade),
    }
}

pub(crate) fn bytes(alloc: Global, text: &str) -> Result<Bytes, Unmade> {
    Ok(Bytes::from_list(text.as_bytes().to_vec(alloc)?))
}

/// A question from a stop to a stop, leaving at this second since 1970.
pub(crate) fn question(
    alloc: Global,
    from: &str,
    to: &str,
    leave: u64,
    known: Option<Moment>,
    horizon: u32,
) -> Result<Query, Unmade> {
    if leave < FIRST_LEAVE || leave > LAST_LEAVE {
        return Err(Unmade);
    }
    let Some(leave) = Moment::new(leave) else {
        return Err(Unmade);
    };
    let from = id(alloc, from)?;
    let to = id(alloc, to)?;
    Ok(Query {
        from,
        to,
        leave,
        known,
        horizon,
    })
}

/// No client yet, with a cache of so many pages.
pub(crate) fn begun(alloc: Global, address: &[u8], cache: usize) -> Result<Convoy, Unmade> {
    if cache < 1 || cache > 10_000 {
        return Err(Unmade);
    }
    match Base::read(alloc, address) {
        Ok(Some(base)) => Ok(Convoy::new(alloc, base, cache)?),
        _ => Err(Unmade),
    }
}

/// A client more, with such a question. Gives its number.
pub(crate) fn ask(
    alloc: Global,
    convoy: &mut Convoy,
    from: &str,
    to: &str,
    leave: u64,
    horizon: u32,
) -> Result<usize, Unmade> {
    let query = question(alloc, from, to, leave, None, horizon)?;
    Ok(convoy.ask(query)?)
}

/// A link that gives these replies, and fails then.
pub(crate) fn list_link(alloc: Global, replies: &[&str]) -> Result<ListLink, Unmade> {
    let mut list = Vec::new(alloc);
    for reply in replies {
        list.push(bytes(alloc, *reply)?)?;
    }
    Ok(ListLink::new(list)?)
}
