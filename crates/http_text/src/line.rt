ghost use Rattle.std.specs.Prelude.{◌≡◌, ◌++◌, ◌<◌, OnOk, IfSome};
ghost use Rattle.http_text.specs.Line.{line, moment_line};

use lc_model::{Moment, NoMemory};
use lc_time::http_date;

/// Appends a line of three parts, which CR LF ends.
pub fn append_line(
    text: &mut Vec<u8>,
    front: &[u8],
    middle: &[u8],
    end: &[u8],
) -> Result<(), NoMemory>
    ensures { OnOk result (text.new.items ≡ text.old.items ++ line (front.now ++ middle.now ++ end.now)) }
{
    text.extend_from_slice(front)?;
    text.extend_from_slice(middle)?;
    text.extend_from_slice(end)?;
    text.extend_from_slice(b"\r\n")?;
    Ok(())
}

/// Appends a line with the date of the moment after this front, if there is a moment.
pub fn append_moment(
    text: &mut Vec<u8>,
    front: &[u8],
    moment: Option<Moment>,
) -> Result<(), NoMemory>
    ensures text { OnOk result (text.new.items ≡ text.old.items ++ moment_line front.now moment) }
    ensures in_range { OnOk result (IfSome moment (λ m. m < 253_402_128_000)) }
{
    match moment {
        None => Ok(()),
        Some(moment) => append_line(text, front, &http_date(moment), b""),
    }
}
