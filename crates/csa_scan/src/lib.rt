//! Earliest arrivals over connections in departure order, by the Connection Scan Algorithm (Dibbelt et al.). A scan is
//! begun for a question, takes lists of connections, and says the best arrival and a journey that has it. Its places of
//! stops, numbers of runs and walks serve other scans too. It builds on the words of `lc_model`.
#![tactic(auto)]

mod board;
mod fault;
mod guesses;
mod journey;
mod near;
mod places;
mod progress;
mod ready;
mod run_numbers;
mod scan;
mod side;
mod trace;
mod walks;

pub use board::{boarding, is_late, new_arrival};
pub use fault::BeginFault;
pub use guesses::Guesses;
pub use journey::rides_to;
pub use places::{guessed_place, place_of};
pub use progress::Progress;
pub use run_numbers::{RunNumbers, number_each};
pub use scan::Scan;
pub use trace::{Arrival, Boarding, Goal, Near, Ready};
pub use walks::Walks;
