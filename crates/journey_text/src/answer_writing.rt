ghost use Rattle.std.specs.Prelude.{◌≡◌, ◌≢◌, ◌<◌, [], ◌++◌, decimal, IfOk, OnOk, SomeIff};
ghost use Rattle.std.specs.List.{flat_map};
ghost use Rattle.connection_uri.specs.Encoding.{encoded};
ghost use Rattle.lc_model.specs.Journey.{arrival_of_rides, arrives_at};
ghost use Rattle.lc_model.specs.Walk.{seconds_of};
ghost use Rattle.lc_model.specs.declared.moment.TheConstants.{MOMENTS_END};
ghost use Rattle.lc_time.specs.Iso.{iso_text_of};
ghost use Rattle.journey_text.specs.AnswerText.{ArrivesAtAMoment, answer_text_of, journey_line_of, journey_text_of, key_words_of, ride_line_of, walk_line_of, walk_text_of, word};
ghost use Rattle.journey_text.specs.Places.{ride_places_of};

use connection_uri::encode;
use lc_model::{Answer, Id, Journey, Moment, NoMemory, Ride, RunKey, Walk};
use lc_time::{date_text, iso_text, start_text};
use std::alloc::Global;

/// The text of an answer: a line for the journey, for each walk and for each ride, or `no journey`.
pub fn answer_text(alloc: Global, answer: &Answer) -> Result<Vec<u8>, NoMemory>
    requires { ArrivesAtAMoment answer.now }
    ensures { IfOk result (λ text. text.items ≡ answer_text_of answer.now) }
{
    match answer {
        Answer::Journey(journey) => journey_text(alloc, journey),
        Answer::NoJourney => Ok(Vec::from_slice(alloc, b"no journey\n")?),
    }
}

/// A line for the journey, one for each of its rides, and one for a walk before and a walk after them.
pub fn journey_text(alloc: Global, journey: &Journey) -> Result<Vec<u8>, NoMemory>
    requires { arrives_at journey.now < MOMENTS_END }
    ensures { IfOk result (λ text. text.items ≡ journey_text_of journey.now) }
{
    let mut text = journey_line(alloc, journey)?;
    push_walk(alloc, &mut text, &journey.before)?;
    push_rides(alloc, &mut text, journey.rides.as_slice())?;
    push_walk(alloc, &mut text, &journey.after)?;
    Ok(text)
}

/// The line of the journey.
fn journey_line(alloc: Global, journey: &Journey) -> Result<Vec<u8>, NoMemory>
    requires { arrives_at journey.now < MOMENTS_END }
    ensures { IfOk result (λ text. text.items ≡ journey_line_of journey.now) }
{
    let mut text = Vec::from_slice(alloc, b"journey")?;
    push_count(alloc, &mut text, journey.rides.as_slice().len())?;
    text.extend_from_slice(b" arrives")?;
    push_moment(&mut text, known_arrival(journey))?;
    text.extend_from_slice(b"\n")?;
    Ok(text)
}

/// When the journey arrives, in seconds since 1970.
pub fn arrival_seconds(journey: &Journey) -> u64
    ensures { result ≡ arrives_at journey.now }
{
    let last = last_arrival(journey.rides.as_slice()).seconds();
    last + u64::from(seconds(&journey.after))
}

/// The moment at which the journey arrives, if it is one.
pub(crate) fn arrival(journey: &Journey) -> Option<Moment>
    ensures { SomeIff result (arrives_at journey.now < MOMENTS_END) (arrives_at journey.now) }
{
    Moment::new(arrival_seconds(journey))
}

/// The moment at which the journey arrives, which is one.
fn known_arrival(journey: &Journey) -> Moment
    requires { arrives_at journey.now < MOMENTS_END }
    ensures { result ≡ arrives_at journey.now }
{
    arrival(journey).unwrap()
}

/// The moment at which the last of the rides arrives.
fn last_arrival(rides: &[Ride]) -> Moment
    requires { rides.now ≢ [] }
    ensures { result ≡ arrival_of_rides rides.now }
{
    rides[rides.len() - 1].arr
}

/// How long a walk takes, none for no walk.
fn seconds(walk: &Option<Walk>) -> u32
    ensures { result ≡ seconds_of walk.now }
{
    match walk {
        Some(walk) => walk.seconds,
        None => 0,
    }
}

/// Appends the line of a walk, where there is one.
fn push_walk(alloc: Global, text: &mut Vec<u8>, walk: &Option<Walk>) -> Result<(), NoMemory>
    ensures { OnOk result (text.new.items ≡ text.old.items ++ walk_text_of walk.now) }
{
    match walk {
        Some(walk) => push_walk_line(alloc, text, walk),
        None => Ok(()),
    }
}

/// Appends the line of a walk.
fn push_walk_line(alloc: Global, text: &mut Vec<u8>, walk: &Walk) -> Result<(), NoMemory>
    ensures { OnOk result (text.new.items ≡ text.old.items ++ walk_line_of walk.now) }
{
    text.extend_from_slice(b"walk")?;
    push_id(alloc, text, &walk.from)?;
    push_id(alloc, text, &walk.to)?;
    push_number(alloc, text, walk.seconds)?;
    text.extend_from_slice(b"\n")?;
    Ok(())
}

/// Appends a line for each ride.
fn push_rides(alloc: Global, text: &mut Vec<u8>, rides: &[Ride]) -> Result<(), NoMemory>
    ensures { OnOk result (text.new.items ≡ text.old.items ++ flat_map ride_line_of rides.now) }
{
    for ride in rides {
        push_ride(alloc, text, ride)?;
    }
    Ok(())
}

/// Appends the line of a ride.
fn push_ride(alloc: Global, text: &mut Vec<u8>, ride: &Ride) -> Result<(), NoMemory>
    ensures { OnOk result (text.new.items ≡ text.old.items ++ ride_line_of ride.now) }
{
    push_places(alloc, text, ride)?;
    push_id(alloc, text, &ride.board)?;
    push_moment(text, ride.dep)?;
    push_id(alloc, text, &ride.alight)?;
    push_moment(text, ride.arr)?;
    text.extend_from_slice(b"\n")?;
    Ok(())
}

/// Appends the words of a ride that say its run, and where in that it boards and alights.
fn push_places(alloc: Global, text: &mut Vec<u8>, ride: &Ride) -> Result<(), NoMemory>
    ensures { OnOk result (text.new.items ≡ text.old.items ++ ride_places_of ride.now) }
{
    text.extend_from_slice(b"ride")?;
    push_key(alloc, text, &ride.key)?;
    push_number(alloc, text, ride.first_seq)?;
    push_number(alloc, text, ride.last_seq)?;
    Ok(())
}

/// Appends the trip, the service date and the start of a run.
fn push_key(alloc: Global, text: &mut Vec<u8>, key: &RunKey) -> Result<(), NoMemory>
    ensures { OnOk result (text.new.items ≡ text.old.items ++ key_words_of key.now) }
{
    push_id(alloc, text, &key.trip)?;
    push_word(text, &date_text(key.date))?;
    match key.start {
        Some(start) => push_word(text, &start_text(start)),
        None => push_word(text, b"-"),
    }
}

/// Appends a space and a word.
fn push_word(text: &mut Vec<u8>, letters: &[u8]) -> Result<(), NoMemory>
    ensures { OnOk result (text.new.items ≡ text.old.items ++ word letters.now) }
{
    text.push(b' ')?;
    text.extend_from_slice(letters)?;
    Ok(())
}

fn push_id(alloc: Global, text: &mut Vec<u8>, id: &Id) -> Result<(), NoMemory>
    ensures { OnOk result (text.new.items ≡ text.old.items ++ word (encoded id.now)) }
{
    let encoded = encode(alloc, id)?;
    push_word(text, encoded.as_str().as_bytes())
}

fn push_moment(text: &mut Vec<u8>, moment: Moment) -> Result<(), NoMemory>
    ensures { OnOk result (text.new.items ≡ text.old.items ++ word (iso_text_of moment)) }
{
    push_word(text, &iso_text(moment))
}

fn push_number(alloc: Global, text: &mut Vec<u8>, number: u32) -> Result<(), NoMemory>
    ensures { OnOk result (text.new.items ≡ text.old.items ++ word (decimal number)) }
{
    let digits = format!(in alloc; "{number}")?;
    push_word(text, digits.as_bytes())
}

fn push_count(alloc: Global, text: &mut Vec<u8>, count: usize) -> Result<(), NoMemory>
    ensures { OnOk result (text.new.items ≡ text.old.items ++ word (decimal count)) }
{
    let digits = format!(in alloc; "{count}")?;
    push_word(text, digits.as_bytes())
}
