ghost use Rattle.std.specs.Prelude.{◌≡◌, ◌∷◌, ◌≤◌, ◌<◌, ◌+◌, ◌==◌, ℕ, IfOk, IfSome, List, drop, length, false, None, option_map, slice_index_or, true, vec_len};
ghost use Rattle.std.specs.List.Sorted.{IsPartitionPoint, IsSorted};
ghost use Rattle.std.specs.Option.{option_copied};
ghost use Rattle.lc_model.specs.Call.{InSequence};
ghost use Rattle.lc_model.specs.Change.{is_same_id};
ghost use Rattle.lc_model.specs.declared.call.Call.{Call as StatedCall};
ghost use Rattle.lc_model.specs.Versions.Naming.{named_by, namings, news_at_place, place_of};
ghost use Rattle.lc_model.specs.Versions.News.{StopSaid};
ghost use Rattle.live_calls.specs.Places.{ArePlaces, AreSortedPlaces, is_before, place_cmp};
ghost use Rattle.live_calls.specs.Walk.{last_news};

use lc_model::{Call, NoMemory, StopNews};
use std::alloc::Global;

/// The place of the call of this sequence. Takes the logarithm of the calls.
fn place_of_sequence(calls: &[Call], seq: u32) -> Option<usize>
    requires { InSequence calls.now }
    ensures place { result ≡ place_of (λ (c : StatedCall). c.seq == seq) calls.now }
    ensures inside { IfSome result (λ place. place < length calls.now) }
{
    calls.binary_search_by(|call| call.seq.cmp(&seq)).ok()
}

/// The place of a call and its stop, ordered by the stop and then by the place.
#[derive(Clone, Copy, PartialEq, Eq, PartialOrd, Ord)]
struct StopPlace<'a> {
    stop: &'a [u8],
    place: usize,
}

/// The places of the calls in the order of their stops. Takes the time of a sort of the calls.
fn stop_places<'a>(alloc: Global, calls: &'a [Call]) -> Result<Vec<StopPlace<'a>>, NoMemory>
    ensures { IfOk result (λ places. AreSortedPlaces calls.now places.items) }
{
    let mut places = Vec::with_capacity(alloc, calls.len())?;
    'calls: for (place, call) in calls.iter().enumerate() {
        let stop = call.stop.bytes();
        places.push(StopPlace { stop, place })?;
    }
    places.sort()?;
    Ok(places)
}

/// How many of the places are before the asked one. Takes the logarithm of the places.
fn places_before<'a>(places: &[StopPlace<'a>], asked: StopPlace<'a>) -> usize
    requires { IsSorted place_cmp places.now }
    ensures bound { result ≤ length places.now }
    ensures point { IsPartitionPoint (λ p. is_before p asked.entry ≡ true) (λ p. is_before p asked.entry ≡ false) places.now result }
{
    places.partition_point(|place| *place < asked)
}

/// The place of the first call at this stop from the place `next` on. Takes the logarithm of the calls.
fn next_place_of_stop<'a>(places: &[StopPlace<'a>], next: usize, stop: &'a [u8]) -> Option<usize>
    requires { IsSorted place_cmp places.now }
    ensures place { (calls : List StatedCall) → ArePlaces calls (length calls) places.now → result ≡ option_map (λ place. next + place)
        (place_of (λ (c : StatedCall). is_same_id c.stop stop.now) (drop next calls)) }
    ensures inside { (calls : List StatedCall) → ArePlaces calls (length calls) places.now → IfSome result (λ place. place < length calls) }
{
    let at = places_before(places, StopPlace { stop, place: next });
    match places.get(at) {
        Some(found) if found.stop == stop => Some(found.place),
        _ => None,
    }
}

/// The place of the call that the news name, of which a stop is looked for from the place `next` on.
fn named_place<'a>(
    calls: &[Call],
    places: &[StopPlace<'a>],
    next: usize,
    news: &'a StopNews,
) -> Option<usize>
    requires in_sequence { InSequence calls.now }
    requires places { AreSortedPlaces calls.now places.now }
    ensures place { result ≡ named_by calls.now next news.now.seq news.now.stop }
    ensures inside { IfSome result (λ place. place < length calls.now) }
{
    match (news.seq(), news.stop()) {
        (Some(seq), _) => place_of_sequence(calls, seq),
        (None, Some(stop)) => next_place_of_stop(places, next, stop),
        (None, None) => None,
    }
}

/// Puts the news beside the call that they name, in the place of those that named it before, and gives the place after it.
fn put_news<'a>(
    calls: &[Call],
    places: &[StopPlace<'a>],
    named: &mut [Option<&'a StopNews>],
    next: usize,
    news: &'a StopNews,
) -> usize
    requires in_sequence { InSequence calls.now }
    requires places { AreSortedPlaces calls.now places.now }
    requires next { next ≤ length calls.now }
    requires one_each { length named.old ≡ length calls.now }
    ensures next { result ≤ length calls.now }
    ensures last { (rest : List StopSaid) (k : ℕ) → k < length calls.now →
        last_news (option_copied (slice_index_or named.new k None)) (namings calls.now result rest) k
        ≡ last_news (option_copied (slice_index_or named.old k None)) (namings calls.now next (news.now ∷ rest)) k }
{
    match named_place(calls, places, next, news) {
        Some(place) => {
            named[place] = Some(news);
            place + 1
        }
        None => next,
    }
}

/// For each of the calls the last of the news that name it. Takes the time of the calls, of a sort of them where there are news, and for
/// each of these the logarithm of the calls.
pub(crate) fn named_news<'a>(
    alloc: Global,
    calls: &'a [Call],
    stops: &'a [StopNews],
) -> Result<Vec<Option<&'a StopNews>>, NoMemory>
    requires { InSequence calls.now }
    ensures one_each { IfOk result (λ named. vec_len named ≡ length calls.now) }
    ensures last { IfOk result (λ named. (k : ℕ) → k < length calls.now →
        option_copied (slice_index_or named.items k None) ≡ news_at_place (namings calls.now 0 stops.now) k) }
{
    let mut named = vec![in alloc; None; calls.len()]?;
    if stops.is_empty() {
        return Ok(named);
    }
    let places = stop_places(alloc, calls)?;
    let mut next = 0;
    'news: for news in stops {
        next = put_news(calls, &places, &mut named, next, news);
    }
    Ok(named)
}
