//! The rows of a GTFS file: a table read from the bytes of a CSV text, with its columns by name. Fields are without spaces
//! round them. There are records of a text without a header, too. It builds on `lc_model` and on the records of `csv`.
#![tactic(auto)]

mod fault;
mod laws;
mod reading;
mod records;
mod rows;
mod spaces;
mod tabulate;
mod unquoted;

pub use fault::RowFault;
pub use laws::one_table;
pub use records::Records;
pub use rows::Rows;
pub use tabulate::table;
