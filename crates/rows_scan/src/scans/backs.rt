//! Scans that go backwards over small feeds, of which the journeys were worked out by hand.
use super::feeds::{
    BESIDE, CHANGING, LATER, MISSED, MORNING, WITH_A_CHILD, WITH_B_TO_E, WITH_D_TO_F,
    WITH_THREE_CHILDREN,
};
use super::said::{put_journey, put_latest, put_over};
use crate::feeds::{Row, SIX_STOPS};
use crate::making::{connections, id, moment};
use back_scan::{ArriveQuery, BackScan, LONGEST_HORIZON};
use lc_model::StopsDoc;
use page_json::read_stops;
use rows_common::Unmade;
use std::alloc::Global;

/// The name of a case, the ends of its question, the second by which one is to arrive, and its horizon. The second before
/// which no departure changes its answer.
type Case = (&'static str, &'static str, &'static str, u32, u32, u32);

const IN_THE_MORNING: &[Case] = &[
    ("back, in time", "A", "D", 30_660, 86_400, 28_800),
    ("back, a second early", "A", "D", 30_659, 3_600, 27_059),
    ("back, at the horizon", "A", "D", 30_660, 1_860, 28_800),
    ("back, behind the horizon", "A", "D", 30_660, 1_859, 28_801),
    (
        "back, by the earlier trip",
        "E",
        "F",
        36_599,
        86_400,
        32_400,
    ),
    ("back, by the later trip", "E", "F", 36_600, 86_400, 36_000),
];

const CHANGES_AND_CHILDREN: &[Case] = &[
    ("back, to a child", "A", "P", 29_400, 86_400, 28_800),
    ("back, on in one run", "X", "Z", 32_700, 86_400, 32_400),
    (
        "back, by a change of stops",
        "A",
        "F",
        33_000,
        86_400,
        28_800,
    ),
];

const AFTER_A_MISS: &[Case] = &[
    ("back, the change missed", "A", "D", 30_660, 3_600, 27_060),
    (
        "back, the change made later",
        "A",
        "D",
        31_200,
        86_400,
        28_801,
    ),
];

const BY_A_WALK: &[Case] = &[
    ("back, a walk before", "B", "F", 33_000, 86_400, 32_100),
    ("back, too early for it", "B", "F", 32_999, 3_600, 29_399),
];

const BESIDE_A_WALK: &[Case] = &[(
    "back, later than the walk",
    "B",
    "F",
    33_000,
    86_400,
    32_200,
)];

const TO_A_WALK: &[Case] = &[
    ("back, a walk after", "A", "F", 30_720, 86_400, 28_800),
    (
        "back, too early for the walk",
        "A",
        "F",
        30_719,
        3_600,
        27_119,
    ),
    ("back, a walk alone", "D", "F", 32_400, 3_600, 28_800),
];

const FROM_A_PARENT: &[Case] = &[(
    "back, from the nearest stop",
    "P",
    "F",
    33_000,
    86_400,
    32_100,
)];

/// Of two unknown stops the first one is reported. No scan is begun, thus the last number of a row is not read.
const UNKNOWN: &[Case] = &[
    ("back, an unknown first stop", "Q", "D", 28_800, 60, 0),
    ("back, two unknown stops", "Q", "R", 28_800, 60, 0),
    ("back, an unknown last stop", "A", "R", 28_800, 60, 0),
];

/// A document, lists of connections, and the questions to a scan over them.
type Over = (&'static str, &'static [&'static [Row]], &'static [Case]);

/// A loop over this keeps the proof short: eight calls that may fail, each with a table, would make it long.
static OVER: [Over; 8] = [
    (SIX_STOPS, &[LATER, MORNING], IN_THE_MORNING),
    (WITH_A_CHILD, &[CHANGING], CHANGES_AND_CHILDREN),
    (SIX_STOPS, &[MISSED], AFTER_A_MISS),
    (WITH_B_TO_E, &[LATER, MORNING], BY_A_WALK),
    (WITH_B_TO_E, &[BESIDE], BESIDE_A_WALK),
    (WITH_D_TO_F, &[LATER, MORNING], TO_A_WALK),
    (WITH_THREE_CHILDREN, &[LATER], FROM_A_PARENT),
    (SIX_STOPS, &[], UNKNOWN),
];

/// A line for each case.
pub(super) fn put_backs(alloc: Global, text: &mut String) -> Result<(), Unmade> {
    for &(doc, lists, cases) in &OVER {
        put_over_doc(alloc, text, doc, lists, cases)?;
    }
    Ok(())
}

/// A line for each question to a scan over a document and lists of connections, of which the last ones come first.
fn put_over_doc(
    alloc: Global,
    text: &mut String,
    doc: &str,
    lists: &[&[Row]],
    cases: &[Case],
) -> Result<(), Unmade> {
    let doc = read_stops(alloc, doc.as_bytes())?;
    put_each(alloc, text, &doc, lists, cases)
}

fn put_each(
    alloc: Global,
    text: &mut String,
    doc: &StopsDoc,
    lists: &[&[Row]],
    cases: &[Case],
) -> Result<(), Unmade> {
    for case in cases {
        put_case(alloc, text, doc, lists, case)?;
    }
    Ok(())
}

fn put_case(
    alloc: Global,
    text: &mut String,
    doc: &StopsDoc,
    lists: &[&[Row]],
    case: &Case,
) -> Result<(), Unmade> {
    let &(name, from, to, arrive, horizon, over) = case;
    write!(text, "{name}: ")?;
    let query = question(alloc, from, to, arrive, horizon)?;
    put_answer(alloc, text, doc, lists, &query, over)
}

fn question(
    alloc: Global,
    from: &str,
    to: &str,
    arrive: u32,
    horizon: u32,
) -> Result<ArriveQuery, Unmade> {
    let arrive = moment(arrive)?;
    Ok(ArriveQuery {
        from: id(alloc, from)?,
        to: id(alloc, to)?,
        arrive,
        known: None,
        horizon,
    })
}

fn put_answer(
    alloc: Global,
    text: &mut String,
    doc: &StopsDoc,
    lists: &[&[Row]],
    query: &ArriveQuery,
    over: u32,
) -> Result<(), Unmade> {
    if query.horizon < 1 || query.horizon > LONGEST_HORIZON {
        return Err(Unmade);
    }
    match BackScan::begin(alloc, query, doc) {
        Ok(mut scan) => put_scan(alloc, text, lists, &mut scan, over),
        Err(fault) => Ok(writeln!(text, "{fault}")?),
    }
}

/// Takes all lists, one after the other, and adds what the scan answers then.
fn put_scan(
    alloc: Global,
    text: &mut String,
    lists: &[&[Row]],
    scan: &mut BackScan,
    over: u32,
) -> Result<(), Unmade> {
    for rows in lists {
        take(alloc, scan, rows)?;
    }
    put_latest(text, scan)?;
    put_over(text, scan, over)?;
    put_over(text, scan, over.saturating_add(1))?;
    put_found(alloc, text, scan)
}

fn put_found(alloc: Global, text: &mut String, scan: &BackScan) -> Result<(), Unmade> {
    let journey = scan.journey(alloc)?;
    put_journey(text, journey.as_ref())
}

fn take(alloc: Global, scan: &mut BackScan, rows: &[Row]) -> Result<(), Unmade> {
    let list = connections(alloc, rows)?;
    Ok(scan.take_back(alloc, &list)?)
}
