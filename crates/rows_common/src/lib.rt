//! What the programs of cases share: lines with one value each, and a text that is written piece by piece. How a case that could not
//! be made ends its program. It builds on nothing but `std`.
#![tactic(auto)]

mod draft;
mod lines;

pub use draft::Draft;
pub use lines::{put_bytes, put_count, put_flag, put_line, put_number};
use std::io;
use std::process::ExitCode;

/// A case could not be made: memory ran out, or a constant of its table is no value of its type.
pub struct Unmade;

impl<E: Drop> From<E> for Unmade {
    fn from(_: E) -> Unmade {
        Unmade
    }
}

/// The status of a program whose cases were made and printed, or not.
pub fn exit_code(made: Result<(), Unmade>, printed: io::Result<()>) -> ExitCode {
    let is_made = match made {
        Ok(()) => true,
        Err(Unmade) => false,
    };
    if is_made && printed.is_ok() {
        ExitCode::SUCCESS
    } else {
        ExitCode::FAILURE
    }
}
