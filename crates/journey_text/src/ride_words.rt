ghost use Rattle.std.specs.Prelude.{◌≡◌, ◌∷◌, ◌++◌, ◌≤◌, ℕ, List, codes, IfOk, IfSome, IsSomeAnd, length};
ghost use Rattle.lc_model.specs.declared.ride.Ride.{Ride as RideValue};
ghost use Rattle.journey_text.specs.Words as spec;
ghost use Rattle.journey_text.specs.Words.{AreWordsOf, ride_words_of, texts_of, words_of};

use lc_model::{Moment, NoMemory};
use std::alloc::Global;

/// How many words a ride's line has.
pub(crate) const RIDE_WORDS: usize = 10;

/// The words of a ride's line after the first, which is `ride`.
#[derive(Clone, Copy)]
pub(crate) struct RideWords<'a> {
    pub(crate) trip: &'a [u8],
    pub(crate) date: &'a [u8],
    pub(crate) start: &'a [u8],
    pub(crate) first_seq: &'a [u8],
    pub(crate) last_seq: &'a [u8],
    pub(crate) board: &'a [u8],
    pub(crate) dep: &'a [u8],
    pub(crate) alight: &'a [u8],
    pub(crate) arr: &'a [u8],
}

/// Where in its run a ride boards and alights, and when.
#[derive(Clone, Copy)]
pub(crate) struct RideTimes {
    pub(crate) first_seq: u32,
    pub(crate) last_seq: u32,
    pub(crate) dep: Moment,
    pub(crate) arr: Moment,
}

/// What is between the spaces and line feeds of a text. Linear in the text.
pub(crate) fn words_of_text<'a>(alloc: Global, text: &'a [u8]) -> Result<Vec<&'a [u8]>, NoMemory>
    ensures { IfOk result (λ words. texts_of words.items ≡ words_of text.entry.now) }
{
    Ok(text.split(|byte| is_blank(*byte)).collect(alloc)?)
}

/// Whether the byte is a space or a line feed.
fn is_blank(byte: u8) -> bool
    ensures { result ≡ spec.is_blank byte }
{
    byte == b' ' || byte == b'\n'
}

/// The words of the ride whose line begins these words; none where the first is not `ride`.
pub(crate) fn words_of_ride<'a>(words: &[&'a [u8]]) -> Option<RideWords<'a>>
    ensures mark { IfSome result (λ _. (word : List ℕ) (behind : List (List ℕ)) → texts_of words.entry.now ≡ word ∷ behind → word ≡ codes "ride") }
    ensures long { IfSome result (λ _. RIDE_WORDS ≤ length words.entry.now) }
    ensures exact { (ride : RideValue) (behind : List (List ℕ)) → texts_of words.entry.now ≡ ride_words_of ride ++ behind
        → IsSomeAnd result (AreWordsOf ride) }
{
    let [
        mark,
        trip,
        date,
        start,
        first_seq,
        last_seq,
        board,
        dep,
        alight,
        arr,
        ..
    ] = words
    else {
        return None;
    };
    if *mark == b"ride".as_slice() {
        Some(RideWords {
            trip,
            date,
            start,
            first_seq,
            last_seq,
            board,
            dep,
            alight,
            arr,
        })
    } else {
        None
    }
}
