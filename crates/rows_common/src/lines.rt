//! Lines with one value each.
use crate::Unmade;

/// Adds the line of a case: its name and what came out.
pub fn put_line(text: &mut String, name: &str, line: &str) -> Result<(), Unmade> {
    writeln!(text, "{name}: {line}")?;
    Ok(())
}

pub fn put_number(text: &mut String, name: &str, number: u64) -> Result<(), Unmade> {
    writeln!(text, "{name}: {number}")?;
    Ok(())
}

pub fn put_count(text: &mut String, name: &str, count: usize) -> Result<(), Unmade> {
    put_number(text, name, count as u64)
}

/// Whether it is so.
pub fn put_flag(text: &mut String, name: &str, flag: bool) -> Result<(), Unmade> {
    put_line(text, name, if flag { "true" } else { "false" })
}

/// The bytes of a text.
pub fn put_bytes(text: &mut String, name: &str, bytes: &[u8]) -> Result<(), Unmade> {
    match std::str::from_utf8(bytes) {
        Ok(line) => put_line(text, name, line),
        Err(_) => Err(Unmade),
    }
}
