ghost use Rattle.std.specs.Prelude.{◌≡◌, ◌≤◌, ◌<◌, ◌++◌, ◌∷◌, [], IfOk, OnOk};
ghost use Rattle.std.specs.String.{string_bytes};
ghost use Rattle.cli_drill.specs.Draws.{AreBits};
ghost use Rattle.cli_drill.specs.Files.{drill_files, feed_files, file_of, message_files};
ghost use Rattle.cli_drill.specs.Script.{message_name};

use crate::draws::{DRAWS, draw_all};
use crate::messages::message_of;
use crate::network::side_of;
use crate::rows::{dates_text, stops_text, times_text, trips_text};
use crate::script::script_text;
use lc_io::File;
use lc_model::{Bytes, NoMemory, Text};
use std::alloc::Global;

/// The files that are generated from a seed, for so many dates. Linear in them.
pub fn drill_files(alloc: Global, seed: u32, days: u32) -> Result<Vec<File>, NoMemory>
    requires { days ≤ 7 }
    ensures { IfOk result (λ files. files.items ≡ drill_files seed days) }
{
    let bits = draw_all(alloc, seed)?;
    let mut files = Vec::with_capacity(alloc, 15)?;
    push_file(
        alloc,
        &mut files,
        "script.csv",
        script_text(alloc, seed, bits.as_slice())?,
    )?;
    push_feed(alloc, &mut files, seed, days)?;
    push_messages(alloc, &mut files, seed, bits.as_slice())?;
    Ok(files)
}

/// Adds the tables of the feed.
fn push_feed(alloc: Global, files: &mut Vec<File>, seed: u32, days: u32) -> Result<(), NoMemory>
    requires { days ≤ 7 }
    ensures { OnOk result (files.new.items ≡ files.old.items ++ feed_files seed days) }
{
    let side = side_of(seed);
    push_file(alloc, files, "feed/stops.txt", stops_text(alloc, side)?)?;
    push_file(alloc, files, "feed/trips.txt", trips_text(alloc, side)?)?;
    push_file(
        alloc,
        files,
        "feed/stop_times.txt",
        times_text(alloc, side)?,
    )?;
    push_file(
        alloc,
        files,
        "feed/calendar_dates.txt",
        dates_text(alloc, days)?,
    )?;
    Ok(())
}

/// Adds a file of this name.
fn push_file(
    alloc: Global,
    files: &mut Vec<File>,
    name: &str,
    bytes: Vec<u8>,
) -> Result<(), NoMemory>
    ensures { OnOk result (files.new.items ≡ files.old.items ++ record { name = name.now; bytes = bytes.items } ∷ []) }
{
    let name = Text::from_string(String::from_str(alloc, name)?);
    files.push(File {
        name,
        bytes: Bytes::from_list(bytes),
    })?;
    Ok(())
}

/// Adds the files of the ten messages.
fn push_messages(
    alloc: Global,
    files: &mut Vec<File>,
    seed: u32,
    bits: &[u32],
) -> Result<(), NoMemory>
    requires { AreBits seed DRAWS bits.now }
    ensures { OnOk result (files.new.items ≡ files.old.items ++ message_files seed 10) }
{
    'messages: for message in 0..10 {
        push_message(alloc, files, seed, bits, message)?;
    }
    Ok(())
}

/// Adds the file of a message.
fn push_message(
    alloc: Global,
    files: &mut Vec<File>,
    seed: u32,
    bits: &[u32],
    message: u32,
) -> Result<(), NoMemory>
    requires bits { AreBits seed DRAWS bits.now }
    requires message { message < 10 }
    ensures { OnOk result (files.new.items ≡ files.old.items ++ file_of seed message ∷ []) }
{
    let name = message_name(alloc, message)?;
    push_file(
        alloc,
        files,
        name.as_str(),
        message_of(alloc, seed, bits, message)?,
    )
}

/// The name of the file of a message.
fn message_name(alloc: Global, message: u32) -> Result<String, NoMemory>
    ensures { IfOk result (λ name. string_bytes name ≡ message_name message) }
{
    Ok(format!(in alloc; "u{message}.pb")?)
}
