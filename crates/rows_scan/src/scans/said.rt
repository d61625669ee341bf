//! What a scan answers, as a piece of a line each.
use crate::making::moment;
use crate::said::{put_parts, second};
use back_scan::BackScan;
use csa_scan::Scan;
use lc_model::Journey;
use rows_common::Unmade;

/// The second of the best arrival, or that there is none.
pub(super) fn put_best(text: &mut String, scan: &Scan) -> Result<(), Unmade> {
    match scan.best() {
        Some(best) => {
            let best = second(best);
            write!(text, "best {best}")?;
        }
        None => text.push_str("best none")?,
    }
    Ok(())
}

/// Whether departures at the second or later change nothing any more.
pub(super) fn put_done(text: &mut String, scan: &Scan, last: u32) -> Result<(), Unmade> {
    let is_done = scan.done(moment(last)?);
    write!(text, ", done at {last} {is_done}")?;
    Ok(())
}

/// The second of the latest departure, or that there is none.
pub(super) fn put_latest(text: &mut String, scan: &BackScan) -> Result<(), Unmade> {
    match scan.latest() {
        Some(latest) => {
            let latest = second(latest);
            write!(text, "latest {latest}")?;
        }
        None => text.push_str("latest none")?,
    }
    Ok(())
}

/// Whether departures before the second change nothing any more.
pub(super) fn put_over(text: &mut String, scan: &BackScan, first: u32) -> Result<(), Unmade> {
    let is_done = scan.done(moment(first)?);
    write!(text, ", done at {first} {is_done}")?;
    Ok(())
}

/// The journey, or that there is none, up to the end of the line.
pub(super) fn put_journey(text: &mut String, journey: Option<&Journey>) -> Result<(), Unmade> {
    match journey {
        Some(journey) => put_parts(text, journey),
        None => Ok(text.push_str(", no journey\n")?),
    }
}
