ghost use Rattle.std.specs.Prelude.{◌≤◌, length, OnOk};

use std::io::{self, ErrorKind, Read};

/// Adds what comes until the end. Where that makes more than so many bytes it is an error, and one byte more is read at most.
pub(crate) fn read_at_most<S: Read + Drop>(
    source: S,
    most: usize,
    bytes: &mut Vec<u8>,
) -> io::Result<()>
    ensures { OnOk result (length bytes.new.items ≤ most) }
{
    source
        .take((most as u64).saturating_add(1))
        .read_to_end(bytes)?;
    if bytes.len() <= most {
        Ok(())
    } else {
        Err(io::Error::from(ErrorKind::FileTooLarge))
    }
}
