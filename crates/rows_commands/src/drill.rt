//! How many bytes the generated files of drills have, and what they sum up to. `bench/drill_input.py` made the expected lines.
use cli_drill::drill_files;
use lc_io::File;
use rows_common::{Draft, Unmade};
use std::alloc::Global;

/// The number of a drill, and its days.
static DRILLS: [(u32, u32); 3] = [(1, 1), (25, 7), (1_000_000, 3)];

/// A line for each drill and for each of its files.
pub(crate) fn put_drills(alloc: Global, draft: &mut Draft) {
    let mut text = String::new(alloc);
    let made = put_all(alloc, &mut text);
    draft.put_part(text.as_str(), made);
}

fn put_all(alloc: Global, text: &mut String) -> Result<(), Unmade> {
    for &(seed, days) in &DRILLS {
        put_drill(alloc, text, seed, days)?;
    }
    Ok(())
}

/// A line for the drill, and one for each of its files. The script of the first drill is printed whole.
fn put_drill(alloc: Global, text: &mut String, seed: u32, days: u32) -> Result<(), Unmade> {
    if days > 7 {
        return Err(Unmade);
    }
    writeln!(text, "drill {seed} --days {days}")?;
    let files = drill_files(alloc, seed, days)?;
    put_files(text, files.as_slice(), seed == 1)
}

fn put_files(text: &mut String, files: &[File], whole: bool) -> Result<(), Unmade> {
    for file in files {
        put_file(text, file)?;
        if whole && file.name.as_str() == "script.csv" {
            put_bytes(text, file.bytes.as_slice())?;
        }
    }
    Ok(())
}

fn put_file(text: &mut String, file: &File) -> Result<(), Unmade> {
    let name = file.name.as_str();
    let bytes = file.bytes.as_slice();
    let count = bytes.len();
    let sum = sum_of(bytes);
    writeln!(text, "{name}: {count} bytes, sum {sum}")?;
    Ok(())
}

fn put_bytes(text: &mut String, bytes: &[u8]) -> Result<(), Unmade> {
    match std::str::from_utf8(bytes) {
        Ok(line) => {
            text.push_str(line)?;
            Ok(())
        }
        Err(_) => Err(Unmade),
    }
}

/// The sum of bytes by FNV-1a, in 64 bits.
fn sum_of(bytes: &[u8]) -> u64 {
    let mut sum: u64 = 0xcbf2_9ce4_8422_2325;
    for byte in bytes {
        sum = (sum ^ u64::from(*byte)).wrapping_mul(0x0100_0000_01b3);
    }
    sum
}
