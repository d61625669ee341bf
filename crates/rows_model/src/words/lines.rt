//! Lines of what a text is read as.
use lc_model::Moment;
use rows_common::{Unmade, put_line};

/// Adds the name of a case and the text that is read, in brackets, in front of the rest of the line.
pub(super) fn put_input(text: &mut String, name: &str, input: &str) -> Result<(), Unmade> {
    write!(text, "{name} [{input}]")?;
    Ok(())
}

pub(super) fn put_number(text: &mut String, number: u64) -> Result<(), Unmade> {
    writeln!(text, ": {number}")?;
    Ok(())
}

/// A line with the number that a text is read as, or that it is none.
pub(super) fn put_read(
    text: &mut String,
    name: &str,
    input: &str,
    number: Option<u64>,
) -> Result<(), Unmade> {
    put_input(text, name, input)?;
    match number {
        Some(number) => put_number(text, number),
        None => put_line(text, "", "none"),
    }
}

/// Whether it is so.
pub(super) fn put_flag(
    text: &mut String,
    name: &str,
    input: &str,
    flag: bool,
) -> Result<(), Unmade> {
    put_input(text, name, input)?;
    put_line(text, "", if flag { "true" } else { "false" })
}

pub(super) fn seconds_of(moment: Option<Moment>) -> Option<u64> {
    match moment {
        Some(moment) => Some(moment.seconds()),
        None => None,
    }
}

pub(super) fn wide(number: Option<u32>) -> Option<u64> {
    match number {
        Some(number) => Some(u64::from(number)),
        None => None,
    }
}

pub(super) fn moment(seconds: u64) -> Result<Moment, Unmade> {
    match Moment::new(seconds) {
        Some(moment) => Ok(moment),
        None => Err(Unmade),
    }
}
