use jiff_tz::{Tzif, posix};

/// The rules of a place's clock: UTC, a rule as in the POSIX variable TZ, or the table of a file. The file is of the
/// Time Zone Database (RFC 9636), and may end in such a rule.
#[derive(Drop)]
pub enum Zone {
    Utc,
    Posix(posix::TimeZone),
    File(Tzif),
}
