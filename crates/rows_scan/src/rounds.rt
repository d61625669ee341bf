//! Rounds over small feeds, of which the journeys were worked out by hand.
mod feeds;

use crate::feeds::{Row, SIX_STOPS};
use crate::making::{connections, question};
use crate::said::put_parts;
use change_rounds::fewest_of;
use feeds::{
    MORNING, ONLY_THREE, SOONER_BY_MORE, THREE_ARE_EARLIER, TWO_OR_THREE, WITH_T8, WITH_T8_LATER,
    WITH_WALKS,
};
use lc_model::{Connections, Journey, Query, StopsDoc, first_disorder};
use page_json::read_stops;
use rows_common::{Draft, Unmade};
use std::alloc::Global;

/// The name of a case, its connections, the ends of its question, the second at which it leaves, and its horizon.
type Case = (
    &'static str,
    &'static [Row],
    &'static str,
    &'static str,
    u32,
    u32,
);

const OF_SIX_STOPS: &[Case] = &[
    ("at once and in time", WITH_T8, "A", "D", 28_800, 86_400),
    ("no other way", MORNING, "A", "D", 28_800, 86_400),
    (
        "at once, but later",
        WITH_T8_LATER,
        "A",
        "D",
        28_800,
        86_400,
    ),
    ("a second late", MORNING, "A", "D", 28_801, 86_400),
    ("no connection", &[], "A", "D", 28_800, 86_400),
    ("on in one run", MORNING, "A", "C", 28_800, 86_400),
    (
        "two in place of three",
        TWO_OR_THREE,
        "A",
        "D",
        28_800,
        86_400,
    ),
    ("no time to change", ONLY_THREE, "A", "D", 28_800, 86_400),
    (
        "three are earlier",
        THREE_ARE_EARLIER,
        "A",
        "D",
        28_800,
        86_400,
    ),
    (
        "sooner by more rides",
        SOONER_BY_MORE,
        "A",
        "D",
        28_800,
        86_400,
    ),
    ("at the horizon", TWO_OR_THREE, "A", "D", 28_800, 1_860),
    ("after the horizon", TWO_OR_THREE, "A", "D", 28_800, 1_859),
];

const OF_WALKS: &[Case] = &[
    ("a walk before", MORNING, "B", "F", 31_800, 86_400),
    ("a walk after", WITH_T8, "A", "F", 28_800, 86_400),
    ("a walk after two", WITH_T8_LATER, "A", "F", 28_800, 86_400),
    ("a walk alone", MORNING, "D", "F", 28_800, 86_400),
];

/// A line for each case.
pub(crate) fn put_rounds(alloc: Global, draft: &mut Draft) {
    let mut text = String::new(alloc);
    let made = put_all(alloc, &mut text);
    draft.put_part(text.as_str(), made);
}

fn put_all(alloc: Global, text: &mut String) -> Result<(), Unmade> {
    put_over(alloc, text, SIX_STOPS, OF_SIX_STOPS)?;
    put_over(alloc, text, WITH_WALKS, OF_WALKS)
}

fn put_over(alloc: Global, text: &mut String, doc: &str, cases: &[Case]) -> Result<(), Unmade> {
    let doc = read_stops(alloc, doc.as_bytes())?;
    put_each(alloc, text, &doc, cases)
}

fn put_each(
    alloc: Global,
    text: &mut String,
    doc: &StopsDoc,
    cases: &[Case],
) -> Result<(), Unmade> {
    for case in cases {
        put_case(alloc, text, doc, case)?;
    }
    Ok(())
}

fn put_case(alloc: Global, text: &mut String, doc: &StopsDoc, case: &Case) -> Result<(), Unmade> {
    let &(name, rows, from, to, leave, horizon) = case;
    write!(text, "{name}: ")?;
    let query = question(alloc, from, to, leave, horizon)?;
    put_rows(alloc, text, doc, rows, &query)
}

fn put_rows(
    alloc: Global,
    text: &mut String,
    doc: &StopsDoc,
    rows: &[Row],
    query: &Query,
) -> Result<(), Unmade> {
    let list = connections(alloc, rows)?;
    put_fewest(alloc, text, doc, &list, query)
}

/// The journey of the fewest rides, or that there is none.
fn put_fewest(
    alloc: Global,
    text: &mut String,
    doc: &StopsDoc,
    list: &Connections,
    query: &Query,
) -> Result<(), Unmade> {
    if query.horizon < 1 || query.horizon > 604_800 {
        return Err(Unmade);
    }
    if !doc.stops.has(&query.from) || !doc.stops.has(&query.to) {
        return Err(Unmade);
    }
    if first_disorder(list.as_slice()).is_some() {
        return Err(Unmade);
    }
    match fewest_of(alloc, query, doc, list)? {
        Some(journey) => put_journey(text, &journey),
        None => Ok(text.push_str("no journey\n")?),
    }
}

/// How many rides the journey has, and its parts.
fn put_journey(text: &mut String, journey: &Journey) -> Result<(), Unmade> {
    let count = journey.rides.as_slice().len();
    write!(text, "rides {count}")?;
    put_parts(text, journey)
}
