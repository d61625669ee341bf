ghost use Rattle.std.specs.Prelude.{◌≡◌, ◌++◌, IfOk, OnOk};
ghost use Rattle.lc_cli.specs.CheckText.{check_text_of, count_line_of};

use lc_model::NoMemory;
use std::alloc::Global;
use timetable::Timetable;

/// The counts of the timetable, a line each.
pub(crate) fn check_text(alloc: Global, made: &Timetable) -> Result<Vec<u8>, NoMemory>
    ensures { IfOk result (λ text. text.items ≡ check_text_of made.now) }
{
    let trips = u128::from(made.trips) + u128::from(made.left_out);
    let mut text = Vec::new(alloc);
    push_count(
        alloc,
        &mut text,
        "stops",
        made.doc.stops.as_slice().len() as u128,
    )?;
    push_count(alloc, &mut text, "trips", trips)?;
    push_count(alloc, &mut text, "left out", u128::from(made.left_out))?;
    push_count(alloc, &mut text, "runs", made.runs.as_slice().len() as u128)?;
    push_count(
        alloc,
        &mut text,
        "connections",
        u128::from(made.connections),
    )?;
    push_count(
        alloc,
        &mut text,
        "changes",
        made.doc.changes.as_slice().len() as u128,
    )?;
    text.extend_from_slice(b"ok\n")?;
    Ok(text)
}

/// Adds a line with a name and a count.
fn push_count(alloc: Global, text: &mut Vec<u8>, name: &str, count: u128) -> Result<(), NoMemory>
    ensures { OnOk result (text.new.items ≡ text.old.items ++ count_line_of name.now count) }
{
    let line = format!(in alloc; "{name} {count}\n")?;
    text.extend_from_slice(line.as_bytes())?;
    Ok(())
}
