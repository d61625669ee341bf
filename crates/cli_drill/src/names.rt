ghost use Rattle.std.specs.Prelude.{◌≡◌, ◌++◌, OnOk, decimal};
ghost use Rattle.cli_drill.specs.Rows.{stop_name, trip_name};

use itoa::Buffer;
use lc_model::NoMemory;

/// Adds a number.
pub(crate) fn push_number(text: &mut Vec<u8>, number: u32) -> Result<(), NoMemory>
    ensures { OnOk result (text.new.items ≡ text.old.items ++ decimal number) }
{
    let mut buffer = Buffer::new();
    text.extend_from_slice(buffer.format(number).as_bytes())?;
    Ok(())
}

/// Adds the name of a stop.
pub(crate) fn push_stop_name(text: &mut Vec<u8>, stop: u32) -> Result<(), NoMemory>
    ensures { OnOk result (text.new.items ≡ text.old.items ++ stop_name stop) }
{
    text.extend_from_slice(b"s")?;
    push_number(text, stop)
}

/// Adds the name of a trip.
pub(crate) fn push_trip_name(text: &mut Vec<u8>, trip: u32) -> Result<(), NoMemory>
    ensures { OnOk result (text.new.items ≡ text.old.items ++ trip_name trip) }
{
    text.extend_from_slice(b"t")?;
    push_number(text, trip / 108)?;
    text.extend_from_slice(b"-")?;
    push_number(text, trip % 108)
}
