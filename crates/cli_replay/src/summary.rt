ghost use Rattle.std.specs.Prelude.{◌≡◌, ◌+◌, [], ◌∷◌, ◌++◌, IfOk, OnOk, count_by};
ghost use Rattle.cli_replay.specs.ReplayLaws.Events.{messages_in};
ghost use Rattle.cli_replay.specs.Summary.{arrivals_line_of, arrivals_of, exchanges_line_of, exchanges_of, found_in, found_line_of, has_found, has_none, is_message, leaves_in, none_in, seconds_of, summary_of, updates_line_of};

use crate::Replayed;
use crate::replay_laws::Event;
use cli_ask::ClientEnd;
use journey_text::arrival_seconds;
use lc_model::{Moment, NoMemory};
use page_client::Outcome;
use std::alloc::Global;

/// What a summary needs of an event sequence: how many messages it has, and when its clients want to leave.
#[derive(Drop)]
pub struct Measures {
    pub messages: usize,
    pub leaves: Vec<Moment>,
}

/// What a summary needs of these events. Linear in them.
#[tactic(auto, using(crate::proofs::SummaryLemmas::messages_counted))]
pub fn measures_of(alloc: Global, events: &[Event]) -> Result<Measures, NoMemory>
    ensures messages { IfOk result (λ measures. measures.messages ≡ messages_in events.now) }
    ensures leaves { IfOk result (λ measures. measures.leaves.items ≡ leaves_in events.now) }
{
    let messages = count_messages(events);
    let leaves = leaves_of(alloc, events)?;
    Ok(Measures { messages, leaves })
}

fn count_messages(events: &[Event]) -> usize
    ensures { result ≡ count_by is_message events.now }
{
    events.iter().filter(|&event| is_message(event)).count()
}

fn is_message(event: &Event) -> bool
    ensures { result ≡ is_message event.now }
{
    match event {
        Event::Message(_) => true,
        Event::Ask(_) | Event::Turn(_) => false,
    }
}

/// When the clients want to leave, in the order in which they ask.
fn leaves_of(alloc: Global, events: &[Event]) -> Result<Vec<Moment>, NoMemory>
    ensures { IfOk result (λ leaves. leaves.items ≡ leaves_in events.now) }
{
    let mut leaves = Vec::new(alloc);
    'events: for event in events {
        push_leave(event, &mut leaves)?;
    }
    Ok(leaves)
}

/// Adds when the client wants to leave, if the event is its question.
fn push_leave(event: &Event, leaves: &mut Vec<Moment>) -> Result<(), NoMemory>
    ensures { OnOk result (leaves.new.items ≡ leaves.old.items ++ leaves_in (event.now ∷ [])) }
{
    match event {
        Event::Ask(query) => leaves.push(query.leave)?,
        Event::Message(_) | Event::Turn(_) => {}
    }
    Ok(())
}

/// The sums over the clients of an event sequence that was played, a line each. Linear in the clients. A sum that 64 bits do not hold is
/// taken for running out of memory.
pub fn summary_text(
    alloc: Global,
    measures: &Measures,
    replayed: &Replayed,
) -> Result<Vec<u8>, NoMemory>
    ensures { IfOk result (λ text. text.items ≡ summary_of replayed.now.admitted measures.now.messages measures.now.leaves.items replayed.now.ends.items) }
{
    let admitted = replayed.admitted;
    let ignored = measures.messages.saturating_sub(admitted);
    let mut text = updates_line(alloc, admitted, ignored)?;
    push_sums(
        alloc,
        &mut text,
        measures.leaves.as_slice(),
        replayed.ends.as_slice(),
    )?;
    Ok(text)
}

fn updates_line(alloc: Global, admitted: usize, ignored: usize) -> Result<Vec<u8>, NoMemory>
    ensures { IfOk result (λ line. line.items ≡ updates_line_of admitted ignored) }
{
    let line = format!(in alloc; "updates {admitted} ignored {ignored}\n")?;
    Ok(line.into_bytes())
}

/// Adds the lines of the clients.
fn push_sums(
    alloc: Global,
    text: &mut Vec<u8>,
    leaves: &[Moment],
    ends: &[ClientEnd],
) -> Result<(), NoMemory>
    ensures { OnOk result (text.new.items ≡ text.old.items ++ found_line_of (found_in ends.now) (none_in ends.now)
        ++ arrivals_line_of (arrivals_of leaves.now ends.now) ++ exchanges_line_of (exchanges_of ends.now)) }
{
    push_found(alloc, text, ends)?;
    push_arrivals(alloc, text, leaves, ends)?;
    push_exchanges(alloc, text, ends)?;
    Ok(())
}

fn push_found(alloc: Global, text: &mut Vec<u8>, ends: &[ClientEnd]) -> Result<(), NoMemory>
    ensures { OnOk result (text.new.items ≡ text.old.items ++ found_line_of (found_in ends.now) (none_in ends.now)) }
{
    let line = found_line(alloc, count_found(ends), count_none(ends))?;
    text.extend_from_slice(line.as_slice())?;
    Ok(())
}

fn found_line(alloc: Global, found: usize, none: usize) -> Result<Vec<u8>, NoMemory>
    ensures { IfOk result (λ line. line.items ≡ found_line_of found none) }
{
    let line = format!(in alloc; "found {found} none {none}\n")?;
    Ok(line.into_bytes())
}

/// How many clients found a journey.
fn count_found(ends: &[ClientEnd]) -> usize
    ensures { result ≡ found_in ends.now }
{
    let mut found: usize = 0;
    'ends: for end in ends {
        found += usize::from(has_found(end));
    }
    found
}

/// How many clients found that there is no journey.
fn count_none(ends: &[ClientEnd]) -> usize
    ensures { result ≡ none_in ends.now }
{
    let mut none: usize = 0;
    'ends: for end in ends {
        none += usize::from(has_none(end));
    }
    none
}

fn has_found(end: &ClientEnd) -> bool
    ensures { result ≡ has_found end.now.outcome }
{
    match &end.outcome {
        Outcome::Found(_) => true,
        Outcome::NoJourney
        | Outcome::Refused(_)
        | Outcome::LinkFault { .. }
        | Outcome::PeerWrong { .. } => false,
    }
}

fn has_none(end: &ClientEnd) -> bool
    ensures { result ≡ has_none end.now.outcome }
{
    match &end.outcome {
        Outcome::NoJourney => true,
        Outcome::Found(_)
        | Outcome::Refused(_)
        | Outcome::LinkFault { .. }
        | Outcome::PeerWrong { .. } => false,
    }
}

fn push_arrivals(
    alloc: Global,
    text: &mut Vec<u8>,
    leaves: &[Moment],
    ends: &[ClientEnd],
) -> Result<(), NoMemory>
    ensures { OnOk result (text.new.items ≡ text.old.items ++ arrivals_line_of (arrivals_of leaves.now ends.now)) }
{
    let arrivals = total_arrivals(leaves, ends)?;
    let line = format!(in alloc; "arrivals {arrivals}\n")?;
    text.extend_from_slice(line.as_bytes())?;
    Ok(())
}

/// The sum of the seconds from the leaves of clients to the arrivals of their journeys.
fn total_arrivals(leaves: &[Moment], ends: &[ClientEnd]) -> Result<u64, NoMemory>
    ensures { IfOk result (λ total. total ≡ arrivals_of leaves.now ends.now) }
{
    let clients = leaves.len().min(ends.len());
    let mut total: u64 = 0;
    'clients: for index in 0..clients {
        total = plus(total, seconds_of(leaves[index], &ends[index].outcome))?;
    }
    Ok(total)
}

/// The seconds from the leave of a client to the arrival of its journey.
fn seconds_of(leave: Moment, outcome: &Outcome) -> u64
    ensures { result ≡ seconds_of leave outcome.now }
{
    match outcome {
        Outcome::Found(journey) => arrival_seconds(journey).saturating_sub(leave.seconds()),
        Outcome::NoJourney
        | Outcome::Refused(_)
        | Outcome::LinkFault { .. }
        | Outcome::PeerWrong { .. } => 0,
    }
}

fn push_exchanges(alloc: Global, text: &mut Vec<u8>, ends: &[ClientEnd]) -> Result<(), NoMemory>
    ensures { OnOk result (text.new.items ≡ text.old.items ++ exchanges_line_of (exchanges_of ends.now)) }
{
    let exchanges = total_exchanges(ends)?;
    let line = format!(in alloc; "exchanges {exchanges}\n")?;
    text.extend_from_slice(line.as_bytes())?;
    Ok(())
}

/// How many exchanges the clients made.
fn total_exchanges(ends: &[ClientEnd]) -> Result<u64, NoMemory>
    ensures { IfOk result (λ total. total ≡ exchanges_of ends.now) }
{
    let mut total: u64 = 0;
    'ends: for end in ends {
        total = plus(total, end.exchanges)?;
    }
    Ok(total)
}

/// The sum of two numbers. One that 64 bits do not hold is taken for running out of memory.
fn plus(a: u64, b: u64) -> Result<u64, NoMemory>
    ensures { IfOk result (λ sum. sum ≡ a + b) }
{
    a.checked_add(b).ok_or(NoMemory)
}
