use crate::trips::near::has_key;
use lc_model::{NoMemory, Stop};
use std::alloc::Global;

/// Where the trip and the stop of a row likely are. A guess may be wrong, and is tested.
#[derive(Clone, Copy)]
pub(crate) struct Guess {
    pub(crate) trip: usize,
    pub(crate) stop: usize,
}

/// What guesses are made from: where the trip and the stop of the row before are.
#[derive(Drop)]
pub(crate) struct Guesses {
    trip: usize,
    stop: usize,
    // Of each stop the one that followed it last: most trips of a line call at the same stops.
    followers: Vec<usize>,
    // Of each hash of an id the last stop that has it.
    hashed: Vec<usize>,
}

impl Guesses {
    /// Before the first row, of these stops. Linear in the stops.
    pub(crate) fn new(alloc: Global, stops: &[Stop]) -> Result<Guesses, NoMemory> {
        let mut hashed = vec![in alloc; 0; stops.len().saturating_mul(4)]?;
        hash_stops(&mut hashed, stops);
        Ok(Guesses {
            trip: 0,
            stop: 0,
            followers: vec![in alloc; 0; stops.len()]?,
            hashed,
        })
    }

    /// The trip of the row before, and the stop with this id that last followed its stop. Where there is none, a stop whose id has
    /// the same hash. Linear in the id.
    pub(crate) fn next(&self, stops: &[Stop], id: &[u8]) -> Guess {
        let follower = place_in(&self.followers, self.stop);
        let stop = if has_key(stops, follower, id) {
            follower
        } else {
            place_in(&self.hashed, hash_of(id, self.hashed.len()))
        };
        Guess {
            trip: self.trip,
            stop,
        }
    }

    /// Learns where the trip and the stop of a row are.
    pub(crate) fn learn(&mut self, trip: usize, stop: usize) {
        if let Some(follower) = self.followers.get_mut(self.stop) {
            *follower = stop;
        }
        self.trip = trip;
        self.stop = stop;
    }
}

fn place_in(places: &Vec<usize>, at: usize) -> usize {
    places.get(at).copied().unwrap_or(0)
}

fn hash_stops(hashed: &mut Vec<usize>, stops: &[Stop]) {
    let count = hashed.len();
    'stops: for place in 0..stops.len() {
        if let Some(slot) = hashed.get_mut(hash_of(stops[place].id.bytes(), count)) {
            *slot = place;
        }
    }
}

// A number below this one, if there is one, that depends on the text.
fn hash_of(text: &[u8], count: usize) -> usize {
    let mut hash = 0usize;
    'bytes: for byte in text {
        hash = hash.wrapping_mul(31).wrapping_add(usize::from(*byte));
    }
    if count == 0 { 0 } else { hash % count }
}
