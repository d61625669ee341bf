ghost use Rattle.std.specs.Prelude.{◌≡◌, ◌↔◌, ◌<◌, ◌≤◌, ℕ, IfOk, IsTrue, List, MatchOption, Option, length};
ghost use Rattle.lc_model.specs.declared.query.Query.{Query as Question};
ghost use Rattle.lc_model.specs.declared.query.TheConstants.{FIRST_LEAVE, LAST_LEAVE};
ghost use Rattle.journey_text.specs.ScriptReading.{row_at};
ghost use Rattle.journey_text.specs.Script.{IsOfKind, SaysAsk, SaysKnown, SaysLeave, SaysRecord, SaysTimes, SaysTurn, SaysUpdate, horizon_said};
ghost use Rattle.journey_text.specs.Script as spec;
ghost use Rattle.journey_text.specs.declared.script.Record.{Record as Said};

use crate::script::Record;
use gtfs_rows::Records;
use lc_model::{FIRST_LEAVE, Id, LAST_LEAVE, Moment, NoMemory, Query, Text};
use lc_time::{read_iso, read_u32};
use std::alloc::Global;
use std::str;

/// How long after the moment of leaving a journey may arrive where the row does not say it, in seconds.
const HORIZON: u32 = 86_400;

/// The times of a question.
#[derive(Clone, Copy)]
struct Times {
    leave: Moment,
    known: Option<Moment>,
    horizon: u32,
    ghost not_before: { FIRST_LEAVE ≤ leave },
    ghost not_after: { leave ≤ LAST_LEAVE },
}

/// The record that the row at this place says, where earlier rows brought so many clients. None exactly where it
/// says none.
pub(crate) fn record_at(
    alloc: Global,
    rows: &Records,
    place: usize,
    updates: bool,
    clients: u64,
) -> Result<Option<Record>, NoMemory>
    requires { place < length rows.now }
    ensures { IfOk result (λ said. MatchOption said ((said : Said) → SaysRecord updates clients (row_at rows.now place) said → ⊥)
        (SaysRecord updates clients (row_at rows.now place))) }
{
    if let Some(query) = ask_at(alloc, rows, place)? {
        return Ok(Some(Record::Ask(query)));
    }
    if let Some(file) = update_at(alloc, rows, place, updates)? {
        return Ok(Some(Record::Update(file)));
    }
    match turn_at(rows, place, clients) {
        Some(client) => Ok(Some(Record::Turn(client))),
        None => Ok(None),
    }
}

/// The question that a row asks.
fn ask_at(alloc: Global, rows: &Records, place: usize) -> Result<Option<Query>, NoMemory>
    requires { place < length rows.now }
    ensures { IfOk result (λ query. MatchOption query ((query : Question) → SaysAsk (row_at rows.now place) query → ⊥)
        (SaysAsk (row_at rows.now place))) }
{
    if !is_of_kind(rows, place, "ask", 4, 6) {
        return Ok(None);
    }
    let Some(times) = times_at(rows, place) else {
        return Ok(None);
    };
    let Some(from) = Id::new(alloc, field_at(rows, place, 1))? else {
        return Ok(None);
    };
    let Some(to) = Id::new(alloc, field_at(rows, place, 2))? else {
        return Ok(None);
    };
    Ok(Some(Query {
        from,
        to,
        leave: times.leave,
        known: times.known,
        horizon: times.horizon,
    }))
}

/// The file of the message that a row names.
fn update_at(
    alloc: Global,
    rows: &Records,
    place: usize,
    updates: bool,
) -> Result<Option<Text>, NoMemory>
    requires { place < length rows.now }
    ensures { IfOk result (λ file. MatchOption file ((file : List ℕ) → SaysUpdate updates (row_at rows.now place) file → ⊥)
        (SaysUpdate updates (row_at rows.now place))) }
{
    if !updates {
        return Ok(None);
    }
    if !is_of_kind(rows, place, "update", 2, 2) {
        return Ok(None);
    }
    match str::from_utf8(field_at(rows, place, 1)) {
        Ok(file) => Ok(Some(Text::from_string(String::from_str(alloc, file)?))),
        Err(_) => Ok(None),
    }
}

/// The client to whom a row gives a turn.
fn turn_at(rows: &Records, place: usize, clients: u64) -> Option<u32>
    requires { place < length rows.now }
    ensures { MatchOption result ((client : ℕ) → SaysTurn clients (row_at rows.now place) client → ⊥)
        (SaysTurn clients (row_at rows.now place)) }
{
    if !is_of_kind(rows, place, "turn", 2, 2) {
        return None;
    }
    let Some(client) = read_u32(field_at(rows, place, 1)) else {
        return None;
    };
    if client < 1 || u64::from(client) > clients {
        return None;
    }
    Some(client)
}

/// The times that a row says.
fn times_at(rows: &Records, place: usize) -> Option<Times>
    requires { place < length rows.now }
    ensures { MatchOption result ((leave : ℕ) (known : Option ℕ) (horizon : ℕ) → SaysTimes (row_at rows.now place) leave known horizon → ⊥)
        (λ times. SaysTimes (row_at rows.now place) times.leave times.known times.horizon) }
{
    let Some(leave) = read_leave(field_at(rows, place, 3)) else {
        return None;
    };
    let Some(known) = read_known(field_at(rows, place, 4)) else {
        return None;
    };
    let Some(horizon) = read_horizon(field_at(rows, place, 5)) else {
        return None;
    };
    Some(Times {
        leave,
        known,
        horizon,
    })
}

/// The moment that a text says, if a question may leave then.
fn read_leave(text: &[u8]) -> Option<Moment>
    ensures { MatchOption result ((leave : ℕ) → SaysLeave text.now leave → ⊥) (SaysLeave text.now) }
{
    let Some(leave) = read_iso(text) else {
        return None;
    };
    if leave.seconds() < FIRST_LEAVE || leave.seconds() > LAST_LEAVE {
        return None;
    }
    Some(leave)
}

/// The moment whose knowledge is meant.
fn read_known(text: &[u8]) -> Option<Option<Moment>>
    ensures { MatchOption result ((known : Option ℕ) → SaysKnown text.now known → ⊥) (SaysKnown text.now) }
{
    if text.is_empty() {
        return Some(None);
    }
    match read_iso(text) {
        Some(known) => Some(Some(known)),
        None => None,
    }
}

/// The seconds that a text says, and a day where it is empty.
fn read_horizon(text: &[u8]) -> Option<u32>
    ensures { result ≡ horizon_said text.now }
{
    if text.is_empty() {
        return Some(HORIZON);
    }
    read_u32(text)
}

/// Whether a row begins with this word and has so many fields.
fn is_of_kind(rows: &Records, place: usize, word: &str, least: usize, most: usize) -> bool
    requires { place < length rows.now }
    ensures { IsTrue result ↔ IsOfKind (row_at rows.now place) word.now least most }
{
    let width = rows.width(place);
    field_at(rows, place, 0) == word.as_bytes() && least <= width && width <= most
}

/// The field at a place of a row, or an empty one where there is none.
fn field_at(rows: &Records, place: usize, column: usize) -> &[u8]
    requires { place < length rows.now }
    ensures { result.now ≡ spec.field_of (row_at rows.now place) column }
{
    if column < rows.width(place) {
        rows.field(place, column)
    } else {
        &[]
    }
}
