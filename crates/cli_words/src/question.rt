ghost use Rattle.std.specs.Prelude.{◌≤◌, ℕ, IfOk, IfSome, List, MatchOption, Option, codes, option_map};
ghost use Rattle.clap.specs.Simple.{App};
ghost use Rattle.back_scan.specs.declared.arrive_query.ArriveQuery.{ArriveQuery as Arrival};
ghost use Rattle.lc_model.specs.declared.query.Query.{Query as Question};
ghost use Rattle.cli_words.specs.Line.{HasFound, value_at};
ghost use Rattle.cli_words.specs.Question.{AsksArrival, AsksQuestion, SaysKnown, SaysMomentWithin, SaysStop, SaysTimes};

use crate::options::number;
use back_scan::{ArriveQuery, FIRST_ARRIVE, LAST_ARRIVE};
use clap::ArgMatches;
use lc_model::{FIRST_LEAVE, Id, LAST_LEAVE, Moment, NoMemory, Query};
use lc_time::read_iso;
use std::alloc::Global;

/// The horizon of a question whose arguments say none, in seconds.
const HORIZON: u32 = 86_400;

/// The times of a question.
#[derive(Clone, Copy)]
struct Times {
    moment: Moment,
    known: Option<Moment>,
    horizon: u32,
}

/// The stops of a question.
#[derive(Drop)]
struct Ends {
    from: Id,
    to: Id,
}

/// The question that was found, or none where it is said wrongly.
pub(crate) fn read_question<'a>(
    alloc: Global,
    found: &ArgMatches<'a>,
) -> Result<Option<Query>, NoMemory>
    ensures { (a : App) (words : List (List ℕ)) → HasFound a words found.now → IfOk result (λ query. MatchOption query
        ((query : Question) → AsksQuestion a words query → ⊥) (AsksQuestion a words)) }
{
    let Some(times) = read_times(found, FIRST_LEAVE, LAST_LEAVE) else {
        return Ok(None);
    };
    match read_ends(alloc, found)? {
        Some(Ends { from, to }) => Ok(Some(Query {
            from,
            to,
            leave: times.moment,
            known: times.known,
            horizon: times.horizon,
        })),
        None => Ok(None),
    }
}

/// The question for the latest departure that was found, or none where it is said wrongly.
pub(crate) fn read_arrival<'a>(
    alloc: Global,
    found: &ArgMatches<'a>,
) -> Result<Option<ArriveQuery>, NoMemory>
    ensures { (a : App) (words : List (List ℕ)) → HasFound a words found.now → IfOk result (λ query. MatchOption query
        ((query : Arrival) → AsksArrival a words query → ⊥) (AsksArrival a words)) }
{
    let Some(times) = read_times(found, FIRST_ARRIVE, LAST_ARRIVE) else {
        return Ok(None);
    };
    match read_ends(alloc, found)? {
        Some(Ends { from, to }) => Ok(Some(ArriveQuery {
            from,
            to,
            arrive: times.moment,
            known: times.known,
            horizon: times.horizon,
        })),
        None => Ok(None),
    }
}

/// The stops that were found, or none where one of them is said wrongly.
fn read_ends<'a>(alloc: Global, found: &ArgMatches<'a>) -> Result<Option<Ends>, NoMemory>
    ensures { (a : App) (words : List (List ℕ)) → HasFound a words found.now → IfOk result (λ ends. MatchOption ends
        ((from to : List ℕ) → SaysStop (value_at a words (codes "from")) from → SaysStop (value_at a words (codes "to")) to → ⊥)
        (λ ends. SaysStop (value_at a words (codes "from")) ends.from × SaysStop (value_at a words (codes "to")) ends.to)) }
{
    let Some(from) = read_stop(alloc, found.get_str("from"))? else {
        return Ok(None);
    };
    let Some(to) = read_stop(alloc, found.get_str("to"))? else {
        return Ok(None);
    };
    Ok(Some(Ends { from, to }))
}

/// The stop that a plain argument says, if it is not empty.
fn read_stop(alloc: Global, word: Option<&str>) -> Result<Option<Id>, NoMemory>
    ensures { IfOk result (λ stop. MatchOption stop
        ((stop : List ℕ) → SaysStop (option_map (λ s. s.now) word.entry) stop → ⊥)
        (SaysStop (option_map (λ s. s.now) word.entry))) }
{
    match word {
        Some(stop) => Ok(Id::new(alloc, stop.as_bytes())?),
        None => Ok(None),
    }
}

/// The times that were found, where the moment may be one between these. None where one of them is said wrongly.
fn read_times<'a>(found: &ArgMatches<'a>, low: u64, high: u64) -> Option<Times>
    ensures said { (a : App) (words : List (List ℕ)) → HasFound a words found.now → MatchOption result
        ((moment : ℕ) (known : Option ℕ) (horizon : ℕ) → SaysTimes low high a words moment known horizon → ⊥)
        (λ times. SaysTimes low high a words times.moment times.known times.horizon) }
    ensures not_before { IfSome result (λ times. low ≤ times.moment) }
    ensures not_after { IfSome result (λ times. times.moment ≤ high) }
{
    let word = found.get_str("moment")?;
    let Some(moment) = read_within(word, low, high) else {
        return None;
    };
    let Some(known) = read_known(found.get_str("known")) else {
        return None;
    };
    let Some(horizon) = number(found.get_str("horizon"), HORIZON, 0, u32::MAX) else {
        return None;
    };
    Some(Times {
        moment,
        known,
        horizon,
    })
}

/// The moment that a text says, if it is between these.
fn read_within(text: &str, low: u64, high: u64) -> Option<Moment>
    ensures { MatchOption result ((moment : ℕ) → SaysMomentWithin low high text.now moment → ⊥) (SaysMomentWithin low high text.now) }
{
    let Some(moment) = read_iso(text.as_bytes()) else {
        return None;
    };
    if moment.seconds() < low || moment.seconds() > high {
        return None;
    }
    Some(moment)
}

/// The moment whose knowledge is meant.
fn read_known(value: Option<&str>) -> Option<Option<Moment>>
    ensures { MatchOption result
        ((known : Option ℕ) → SaysKnown (option_map (λ s. s.now) value.entry) known → ⊥)
        (SaysKnown (option_map (λ s. s.now) value.entry)) }
{
    let Some(text) = value else {
        return Some(None);
    };
    match read_iso(text.as_bytes()) {
        Some(known) => Some(Some(known)),
        None => None,
    }
}
