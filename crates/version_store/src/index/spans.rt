use crate::index::place_set::PlaceSet;
use crate::index::state::State;
use lc_model::RunKey;
use std::collections::BTreeMap;

/// The states of all runs, and where they are looked up.
#[derive(Drop)]
pub(crate) struct Spans {
    /// A state that was made for a version that did not come about holds in none, and its number is not used again.
    pub(crate) states: Vec<State>,
    /// Where the connections of the states are.
    pub(crate) places: PlaceSet,
    /// By its key, the number of the state that each run has in the newest version, if it has one.
    pub(crate) running: BTreeMap<RunKey, Option<u32>>,
}
