ghost use Rattle.std.specs.Prelude.{◌≡◌, ◌++◌, ◌∷◌, ◌<◌, ◌≤◌, ℕ, List, Some, Option as Maybe, All, IfOk, IfSome, IsSomeAnd, IsTrue, OnOk, ◌↔◌, [], codes, decimal, length};
ghost use Rattle.lc_model.specs.declared.answer.Answer.{Answer as AnswerValue};
ghost use Rattle.lc_model.specs.declared.journey.Journey.{Journey as JourneyValue};
ghost use Rattle.lc_model.specs.declared.key.RunKey.{RunKey as Key};
ghost use Rattle.lc_model.specs.declared.ride.Ride.{Ride as RideValue};
ghost use Rattle.lc_model.specs.declared.walk.Walk.{Walk as WalkValue};
ghost use Rattle.lc_model.specs.Text.{IsIdText};
ghost use Rattle.lc_time.specs.Date.{date_text_of};
ghost use Rattle.connection_uri.specs.Encoding.{encoded};
ghost use Rattle.connection_uri.specs.Name.{start_part_of};
ghost use Rattle.lc_model.specs.Journey.{arrives_at};
ghost use Rattle.journey_text.specs.AnswerText.{ArrivesAtAMoment, answer_text_of};
ghost use Rattle.journey_text.specs.Sound.{HasText, IsSoundJourney, IsSoundRide, IsSoundWalk};
ghost use Rattle.journey_text.specs.Times.{AreTimesOf};
ghost use Rattle.journey_text.specs.Words.{AreWordsOf, DoesNotBegin, journey_words_of, rest_words_of, ride_words_of, texts_of, walk_words_of};

use crate::answer_writing::{answer_text, arrival};
use crate::ride_words::{RIDE_WORDS, RideTimes, RideWords, words_of_ride, words_of_text};
use connection_uri::{decode, read_decimal, read_start_part};
use lc_model::{Answer, Id, Journey, NoMemory, Ride, Rides, RunKey, Walk};
use lc_time::{read_date, read_iso};
use std::alloc::Global;

/// The answer whose text this is. None exactly where it is no answer's text. Linear in the text, and a place for each of its words.
pub fn read_answer(alloc: Global, text: &[u8]) -> Result<Option<Answer>, NoMemory>
    ensures said { IfOk result (λ read. IfSome read (λ answer. text.now ≡ answer_text_of answer)) }
    ensures arrives { IfOk result (λ read. IfSome read ArrivesAtAMoment) }
    ensures exact { IfOk result (λ read. (answer : AnswerValue) → HasText answer → text.now ≡ answer_text_of answer → read ≡ Some answer) }
{
    let mut read = written_answer(alloc, text)?;
    keep_written(alloc, text, &mut read)?;
    Ok(read)
}

/// Lets go of what was read, unless this is its text.
fn keep_written(alloc: Global, text: &[u8], read: &mut Option<Answer>) -> Result<(), NoMemory>
    requires { IfSome read.old ArrivesAtAMoment }
    ensures said { OnOk result (IfSome read.new (λ answer. text.now ≡ answer_text_of answer)) }
    ensures arrives { OnOk result (IfSome read.new ArrivesAtAMoment) }
    ensures exact { OnOk result ((answer : AnswerValue) → read.old ≡ Some answer → text.now ≡ answer_text_of answer → read.new ≡ Some answer) }
{
    if !is_text_of(alloc, text, read)? {
        *read = None;
    }
    Ok(())
}

/// Whether this is the text of what was read, if something was.
fn is_text_of(alloc: Global, text: &[u8], read: &Option<Answer>) -> Result<bool, NoMemory>
    requires { IfSome read.now ArrivesAtAMoment }
    ensures { IfOk result (λ is. IsTrue is ↔ IfSome read.now (λ answer. text.now ≡ answer_text_of answer)) }
{
    match read {
        Some(answer) => Ok(answer_text(alloc, answer)?.as_slice() == text),
        None => Ok(true),
    }
}

/// The answer whose text this would be. Whether it is, is not tested.
fn written_answer(alloc: Global, text: &[u8]) -> Result<Option<Answer>, NoMemory>
    ensures arrives { IfOk result (λ read. IfSome read ArrivesAtAMoment) }
    ensures exact { IfOk result (λ read. (answer : AnswerValue) → HasText answer → text.now ≡ answer_text_of answer → read ≡ Some answer) }
{
    if text == b"no journey\n".as_slice() {
        return Ok(Some(Answer::NoJourney));
    }
    let words = words_of_text(alloc, text)?;
    match written_journey(alloc, words.as_slice())? {
        Some(journey) => Ok(Some(Answer::Journey(journey))),
        None => Ok(None),
    }
}

/// The journey of whose text these would be the words.
fn written_journey(alloc: Global, words: &[&[u8]]) -> Result<Option<Journey>, NoMemory>
    ensures arrives { IfOk result (λ read. IfSome read (λ journey. arrives_at journey < 253_402_128_000)) }
    ensures exact { IfOk result (λ read. (journey : JourneyValue) → IsSoundJourney journey → arrives_at journey < 253_402_128_000
        → texts_of words.now ≡ journey_words_of journey → read ≡ Some journey) }
{
    let [_, _, _, _, rest @ ..] = words else {
        return Ok(None);
    };
    let (before, rest) = written_walk(alloc, rest)?;
    let (rides, rest) = written_rides(alloc, rest)?;
    let (after, _) = written_walk(alloc, rest)?;
    Ok(arriving(before, rides, after))
}

/// The journey of these rides and walks, if there is a ride and it arrives at a moment.
fn arriving(before: Option<Walk>, rides: Rides, after: Option<Walk>) -> Option<Journey>
    ensures arrives { IfSome result (λ journey. arrives_at journey < 253_402_128_000) }
    ensures exact { (journey : JourneyValue) → arrives_at journey < 253_402_128_000
        → before ≡ journey.before → rides ≡ journey.rides → after ≡ journey.after → result ≡ Some journey }
{
    if rides.as_slice().is_empty() {
        return None;
    }
    let journey = Journey {
        before,
        rides,
        after,
    };
    match arrival(&journey) {
        Some(_) => Some(journey),
        None => None,
    }
}

/// The rides whose lines would begin these words, and the words after them.
fn written_rides<'a, 'b>(
    alloc: Global,
    words: &'a [&'b [u8]],
) -> Result<(Rides, &'a [&'b [u8]]), NoMemory>
    ensures { IfOk result (λ read. (rides : List RideValue) (after : Maybe WalkValue) → All IsSoundRide rides
        → texts_of words.entry.now ≡ rest_words_of rides after → (read.0 ≡ rides) × (texts_of read.1.now ≡ walk_words_of after ++ [] ∷ [])) }
{
    let mut rides = Vec::new(alloc);
    let mut place = 0;
    'rides: while let Some(ride) = written_ride(alloc, &words[place..])? {
        rides.push(ride)?;
        place += RIDE_WORDS;
    }
    Ok((Rides::from_list(rides), &words[place..]))
}

/// The ride whose line would begin these words.
fn written_ride(alloc: Global, words: &[&[u8]]) -> Result<Option<Ride>, NoMemory>
    ensures mark { IfOk result (λ read. IfSome read (λ _. (word : List ℕ) (behind : List (List ℕ)) → texts_of words.now ≡ word ∷ behind → word ≡ codes "ride")) }
    ensures long { IfOk result (λ read. IfSome read (λ _. RIDE_WORDS ≤ length words.now)) }
    ensures exact { IfOk result (λ read. (ride : RideValue) (behind : List (List ℕ)) → IsSoundRide ride → texts_of words.now ≡ ride_words_of ride ++ behind
        → read ≡ Some ride) }
{
    match words_of_ride(words) {
        Some(said) => ride_of(alloc, said),
        None => Ok(None),
    }
}

/// The ride that these words say.
fn ride_of(alloc: Global, words: RideWords<'_>) -> Result<Option<Ride>, NoMemory>
    ensures { IfOk result (λ read. (ride : RideValue) → IsSoundRide ride → AreWordsOf ride words.entry → read ≡ Some ride) }
{
    let Some(times) = times_of(words) else {
        return Ok(None);
    };
    let Some(key) = key_of(alloc, words.trip, words.date, words.start)? else {
        return Ok(None);
    };
    match stops_of(alloc, words.board, words.alight)? {
        Some((board, alight)) => Ok(Some(Ride {
            key,
            first_seq: times.first_seq,
            last_seq: times.last_seq,
            board,
            dep: times.dep,
            alight,
            arr: times.arr,
        })),
        None => Ok(None),
    }
}

/// The places and the moments of the ride that these words say.
fn times_of(words: RideWords<'_>) -> Option<RideTimes>
    ensures { (ride : RideValue) → IsSoundRide ride → AreWordsOf ride words.entry → IsSomeAnd result (AreTimesOf ride) }
{
    let first_seq = read_decimal(words.first_seq)?;
    let last_seq = read_decimal(words.last_seq)?;
    let dep = read_iso(words.dep)?;
    let arr = read_iso(words.arr)?;
    Some(RideTimes {
        first_seq,
        last_seq,
        dep,
        arr,
    })
}

/// The stops of these words, where one boards and where one alights.
fn stops_of(alloc: Global, board: &[u8], alight: &[u8]) -> Result<Option<(Id, Id)>, NoMemory>
    ensures { IfOk result (λ read. (from to : List ℕ) → IsIdText from → IsIdText to → board.now ≡ encoded from → alight.now ≡ encoded to
        → read ≡ Some (from, to)) }
{
    let Some(board) = decode(alloc, board)? else {
        return Ok(None);
    };
    match decode(alloc, alight)? {
        Some(alight) => Ok(Some((board, alight))),
        None => Ok(None),
    }
}

/// The run that these words say.
fn key_of(alloc: Global, trip: &[u8], date: &[u8], start: &[u8]) -> Result<Option<RunKey>, NoMemory>
    ensures { IfOk result (λ read. (key : Key) → IsIdText key.trip → trip.now ≡ encoded key.trip
        → date.now ≡ date_text_of key.date.year key.date.month key.date.day → start.now ≡ start_part_of key.start → read ≡ Some key) }
{
    let (Some(date), Some(start)) = (read_date(date), read_start_part(start)) else {
        return Ok(None);
    };
    match decode(alloc, trip)? {
        Some(trip) => Ok(Some(RunKey { trip, date, start })),
        None => Ok(None),
    }
}

/// The walk whose line would begin these words, or none, and the words after it.
fn written_walk<'a, 'b>(
    alloc: Global,
    words: &'a [&'b [u8]],
) -> Result<(Option<Walk>, &'a [&'b [u8]]), NoMemory>
    ensures { IfOk result (λ read. (walk : Maybe WalkValue) (behind : List (List ℕ)) → IfSome walk IsSoundWalk → DoesNotBegin (codes "walk") behind
        → texts_of words.entry.now ≡ walk_words_of walk ++ behind → (read.0 ≡ walk) × (texts_of read.1.now ≡ behind)) }
{
    let [mark, from, to, seconds, rest @ ..] = words else {
        return Ok((None, words));
    };
    if *mark == b"walk".as_slice() {
        Ok((walk_of(alloc, from, to, seconds)?, rest))
    } else {
        Ok((None, words))
    }
}

/// The walk that these words say.
fn walk_of(alloc: Global, from: &[u8], to: &[u8], seconds: &[u8]) -> Result<Option<Walk>, NoMemory>
    ensures { IfOk result (λ read. (walk : WalkValue) → IsSoundWalk walk → from.now ≡ encoded walk.from → to.now ≡ encoded walk.to
        → seconds.now ≡ decimal walk.seconds → read ≡ Some walk) }
{
    let (Some(from), Some(to), Some(seconds)) = (
        decode(alloc, from)?,
        decode(alloc, to)?,
        read_decimal(seconds),
    ) else {
        return Ok(None);
    };
    Ok(Some(Walk { from, to, seconds }))
}
