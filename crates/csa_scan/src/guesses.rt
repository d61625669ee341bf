use lc_model::{Id, NoMemory, RunKey};
use std::alloc::Global;

/// How many guesses are stored. Texts of one slot take it from each other.
const GUESSES: u64 = 2_048;

/// The start of FNV-1a over 64 bits, and its factor.
const FNV_START: u64 = 0xcbf2_9ce4_8422_2325;

const FNV_FACTOR: u64 = 0x0100_0000_01b3;

/// Where runs and stops were found last. A guess may be wrong, and counts only once it is tested.
#[derive(Drop)]
pub struct Guesses {
    places: Vec<usize>,
}

impl Guesses {
    pub fn new(alloc: Global) -> Result<Guesses, NoMemory> {
        Ok(Guesses {
            places: vec![in alloc; 0; GUESSES as usize]?,
        })
    }

    /// Where that of the slot may be.
    pub(crate) fn at(&self, slot: usize) -> usize {
        match self.places.get(slot) {
            Some(place) => *place,
            None => 0,
        }
    }

    /// That of the slot was found there.
    pub(crate) fn put(&mut self, slot: usize, place: usize) {
        if let Some(guess) = self.places.get_mut(slot) {
            *guess = place;
        }
    }
}

pub(crate) fn slot_of_stop(id: &Id) -> usize {
    slot_of(mixed(FNV_START, id.bytes()))
}

/// Runs of a trip on several dates, or by a headway, have slots of their own.
pub(crate) fn slot_of_run(key: &RunKey) -> usize {
    let date = u64::from(key.date.month) << 8 | u64::from(key.date.day);
    let start = u64::from(key.start.unwrap_or(0)) << 16;
    slot_of(mixed(FNV_START ^ date ^ start, key.trip.bytes()))
}

/// The bytes mixed into a number, by FNV-1a.
fn mixed(start: u64, bytes: &[u8]) -> u64 {
    let mut mixed = start;
    for byte in bytes {
        mixed = (mixed ^ u64::from(*byte)).wrapping_mul(FNV_FACTOR);
    }
    mixed
}

fn slot_of(mixed: u64) -> usize {
    ((mixed ^ mixed >> 32) % GUESSES) as usize
}
