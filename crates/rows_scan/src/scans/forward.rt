//! Scans that go forward over small feeds, of which the journeys were worked out by hand.
use super::feeds::{
    CHANGING, LATER, MORNING, WITH_A_CHILD, WITH_B_TO_E, WITH_D_TO_F, WITH_THREE_CHILDREN,
};
use super::said::{put_best, put_done, put_journey};
use crate::feeds::{Row, SIX_STOPS};
use crate::making::{connections, question};
use csa_scan::Scan;
use lc_model::{Query, StopsDoc};
use page_json::read_stops;
use rows_common::Unmade;
use std::alloc::Global;

/// The name of a case, the ends of its question, the second at which it leaves, and its horizon. The second from which on no
/// departure changes its answer.
type Case = (&'static str, &'static str, &'static str, u32, u32, u32);

const IN_THE_MORNING: &[Case] = &[
    ("in time", "A", "D", 28_800, 86_400, 30_660),
    ("a second late", "A", "D", 28_801, 86_400, 115_201),
    ("at the horizon", "A", "D", 28_800, 1_860, 30_660),
    ("behind the horizon", "A", "D", 28_800, 1_859, 30_659),
];

const CHANGES_AND_CHILDREN: &[Case] = &[
    ("to a child", "A", "P", 28_800, 86_400, 29_400),
    ("on in one run", "X", "Z", 32_400, 86_400, 32_700),
    ("by a change of stops", "A", "F", 28_800, 86_400, 33_000),
];

const BY_A_WALK: &[Case] = &[
    ("early for a walk before", "B", "F", 31_800, 86_400, 33_000),
    ("in time for it", "B", "F", 32_100, 86_400, 33_000),
    ("a second late for it", "B", "F", 32_101, 86_400, 36_600),
];

const TO_A_WALK: &[Case] = &[
    ("a walk after", "A", "F", 28_800, 86_400, 30_720),
    ("a walk alone", "D", "F", 28_800, 86_400, 115_200),
];

const FROM_A_PARENT: &[Case] = &[("from the nearest stop", "P", "F", 32_100, 86_400, 33_000)];

/// Of two unknown stops the first one is reported. No scan is begun, thus the last number of a row is not read.
const UNKNOWN: &[Case] = &[
    ("an unknown first stop", "Q", "D", 28_800, 60, 0),
    ("two unknown stops", "Q", "R", 28_800, 60, 0),
    ("an unknown last stop", "A", "R", 28_800, 60, 0),
];

/// A document, lists of connections, and the questions to a scan over them.
type Over = (&'static str, &'static [&'static [Row]], &'static [Case]);

/// A loop over this keeps the proof short: six calls that may fail, each with a table, would make it long.
static OVER: [Over; 6] = [
    (SIX_STOPS, &[MORNING, LATER], IN_THE_MORNING),
    (WITH_A_CHILD, &[CHANGING], CHANGES_AND_CHILDREN),
    (WITH_B_TO_E, &[MORNING, LATER], BY_A_WALK),
    (WITH_D_TO_F, &[MORNING, LATER], TO_A_WALK),
    (WITH_THREE_CHILDREN, &[LATER], FROM_A_PARENT),
    (SIX_STOPS, &[], UNKNOWN),
];

/// A line for each case.
pub(super) fn put_forward(alloc: Global, text: &mut String) -> Result<(), Unmade> {
    for &(doc, lists, cases) in &OVER {
        put_over(alloc, text, doc, lists, cases)?;
    }
    Ok(())
}

/// A line for each question to a scan over a document and lists of connections.
fn put_over(
    alloc: Global,
    text: &mut String,
    doc: &str,
    lists: &[&[Row]],
    cases: &[Case],
) -> Result<(), Unmade> {
    let doc = read_stops(alloc, doc.as_bytes())?;
    put_each(alloc, text, &doc, lists, cases)
}

fn put_each(
    alloc: Global,
    text: &mut String,
    doc: &StopsDoc,
    lists: &[&[Row]],
    cases: &[Case],
) -> Result<(), Unmade> {
    for case in cases {
        put_case(alloc, text, doc, lists, case)?;
    }
    Ok(())
}

fn put_case(
    alloc: Global,
    text: &mut String,
    doc: &StopsDoc,
    lists: &[&[Row]],
    case: &Case,
) -> Result<(), Unmade> {
    let &(name, from, to, leave, horizon, over) = case;
    write!(text, "{name}: ")?;
    let query = question(alloc, from, to, leave, horizon)?;
    put_answer(alloc, text, doc, lists, &query, over)
}

fn put_answer(
    alloc: Global,
    text: &mut String,
    doc: &StopsDoc,
    lists: &[&[Row]],
    query: &Query,
    over: u32,
) -> Result<(), Unmade> {
    if query.horizon < 1 || query.horizon > 604_800 {
        return Err(Unmade);
    }
    match Scan::begin(alloc, query, doc) {
        Ok(mut scan) => put_scan(alloc, text, lists, &mut scan, over),
        Err(fault) => Ok(writeln!(text, "{fault}")?),
    }
}

/// Takes all lists, one after the other, and adds what the scan answers then.
fn put_scan(
    alloc: Global,
    text: &mut String,
    lists: &[&[Row]],
    scan: &mut Scan,
    over: u32,
) -> Result<(), Unmade> {
    for rows in lists {
        take(alloc, scan, rows)?;
    }
    put_best(text, scan)?;
    put_done(text, scan, over.saturating_sub(1))?;
    put_done(text, scan, over)?;
    put_found(alloc, text, scan)
}

fn put_found(alloc: Global, text: &mut String, scan: &Scan) -> Result<(), Unmade> {
    let journey = scan.journey(alloc)?;
    put_journey(text, journey.as_ref())
}

fn take(alloc: Global, scan: &mut Scan, rows: &[Row]) -> Result<(), Unmade> {
    let list = connections(alloc, rows)?;
    Ok(scan.take_all(alloc, &list)?)
}
