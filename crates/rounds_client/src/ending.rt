ghost use Rattle.std.specs.Prelude.{◌≡◌, ◌<◌, ◌^◌, ◌++◌, IfOk, OnOk, Some};
ghost use Rattle.lc_model.specs.Connection.{NoneArrivesEarly};
ghost use Rattle.lc_world.specs.GoneOn.{IsLeftByGets};
ghost use Rattle.page_client.specs.Client.{shown};
ghost use Rattle.page_client.specs.Shown.{exchanges_left};
ghost use Rattle.page_client.specs.declared.outcome.Outcome.TheVariants as outcomes;
ghost use Rattle.convoy.specs.Steps.{IsDecided};
ghost use Rattle.rounds_client.specs.Course.{AnswersFewest, HasEnded, HasFound, HasRead, Reads};
ghost use Rattle.rounds_client.specs.End.{ArrivesAtAMoment, EndsFrom, EndsSo, IsEndOf};
ghost use Rattle.rounds_client.specs.Given.{connections_of_pages, was_given};

use crate::asking::ask;
use crate::given::Given;
use change_rounds::fewest_of;
use connection_uri::Base;
use lc_model::{Connection, Connections, Journey, Moment, NoMemory, PlainData, Query};
use lc_world::Link;
use page_client::{Client, Outcome};
use page_json::Page;
use std::alloc::Global;

/// How a client of the fewest rides ended.
#[derive(Drop)]
pub struct FewestEnd {
    pub outcome: Outcome,
    /// The version that the time gate named; none before its reply is taken.
    pub version: Option<Moment>,
    /// How many exchanges the client made, one that failed too.
    pub exchanges: u64,
}

/// Lets the client make exchange after exchange up to its outcome. Gives their number.
fn finish<L: Link>(
    alloc: Global,
    base: &Base,
    client: &mut Client,
    given: &mut Given,
    link: &mut L,
) -> Result<u64, NoMemory>
    requires decided { IsDecided (shown client.old) }
    requires small { exchanges_left (shown client.old) < 2 ^ 33 }
    ensures ended { IfOk result (HasEnded L.seen base.now client.old (was_given given.old) link.old client.new (was_given given.new) link.new) }
    ensures decided { OnOk result (IsDecided (shown client.new)) }
    ensures reads { OnOk result (Reads client.old (was_given given.old) → Reads client.new (was_given given.new)) }
    ensures left { IsLeftByGets (L.seen link.old) (L.seen link.new) }
    ensures behind { L.behind link.new ≡ L.behind link.old }
{
    let mut exchanges = 0;
    while client.outcome().is_none() {
        ask(alloc, base, client, given, link)?;
        exchanges += 1;
    }
    Ok(exchanges)
}

/// Adds the connections of the page.
fn push_page(alloc: Global, list: &mut Vec<Connection>, page: &Page) -> Result<(), NoMemory>
    requires { NoneArrivesEarly list.old.items }
    ensures list { OnOk result (list.new.items ≡ list.old.items ++ page.now.list) }
    ensures forward { OnOk result (NoneArrivesEarly list.new.items) }
{
    let added = page.list.as_slice();
    'added: for connection in added {
        list.push(connection.copy(alloc)?)?;
    }
    Ok(())
}

/// The connections of the pages, one page after the other. Linear in them.
fn connections(alloc: Global, pages: &[Page]) -> Result<Connections, NoMemory>
    ensures { IfOk result (λ list. list ≡ connections_of_pages pages.now) }
{
    let mut list = Vec::new(alloc);
    'pages: for page in pages {
        push_page(alloc, &mut list, page)?;
    }
    Ok(Connections::from_list(list))
}

/// The answer of the fewest rides over what was given, in place of the best journey that was found. Takes the time of `fewest_of`.
fn found(
    alloc: Global,
    query: &Query,
    given: &Given,
    journey: &Journey,
) -> Result<Outcome, NoMemory>
    requires { HasFound query.now (was_given given.now) journey.now }
    ensures answers { IfOk result (AnswersFewest query.now (was_given given.now) (outcomes.Found journey.now)) }
    ensures moment { IfOk result ArrivesAtAMoment }
{
    let Some(doc) = &given.doc else {
        return Ok(Outcome::NoJourney);
    };
    let list = connections(alloc, given.pages.as_slice())?;
    match fewest_of(alloc, query, doc, &list)? {
        Some(fewest) => Ok(Outcome::Found(fewest)),
        None => Ok(Outcome::NoJourney),
    }
}

/// The outcome, with the answer of the fewest rides in place of a best journey.
fn answer(
    alloc: Global,
    query: &Query,
    given: &Given,
    outcome: Outcome,
) -> Result<Outcome, NoMemory>
    requires { HasRead query.now (was_given given.now) (Some outcome) }
    ensures answers { IfOk result (AnswersFewest query.now (was_given given.now) outcome) }
    ensures moment { IfOk result ArrivesAtAMoment }
{
    match outcome {
        Outcome::Found(journey) => found(alloc, query, given, &journey),
        other => Ok(other),
    }
}

/// The end of a client that has its outcome.
fn end(
    alloc: Global,
    query: &Query,
    client: Client,
    given: &Given,
    exchanges: u64,
) -> Result<FewestEnd, NoMemory>
    requires { HasRead query.now (was_given given.now) (shown client).outcome }
    ensures ends { IfOk result (IsEndOf query.now client (was_given given.now) exchanges) }
    ensures moment { IfOk result (λ end. ArrivesAtAMoment end.outcome) }
{
    let version = client.version();
    match client.into_outcome() {
        Some(outcome) => Ok(FewestEnd {
            outcome: answer(alloc, query, given, outcome)?,
            version,
            exchanges,
        }),
        None => Err(NoMemory),
    }
}

/// Lets the client of this question make its exchanges. It and what it is given are owned apart, which keeps the proof short.
fn fewest_by<L: Link>(
    alloc: Global,
    query: &Query,
    base: &Base,
    mut client: Client,
    given: &mut Given,
    link: &mut L,
) -> Result<FewestEnd, NoMemory>
    requires decided { IsDecided (shown client) }
    requires small { exchanges_left (shown client) < 2 ^ 33 }
    requires asks { (shown client).query ≡ query.now }
    requires reads { Reads client (was_given given.old) }
    ensures ends { IfOk result (EndsFrom L.seen base.now query.now client (was_given given.old) link.old link.new) }
    ensures moment { IfOk result (λ end. ArrivesAtAMoment end.outcome) }
    ensures left { IsLeftByGets (L.seen link.old) (L.seen link.new) }
    ensures behind { L.behind link.new ≡ L.behind link.old }
{
    match finish(alloc, base, &mut client, given, link) {
        Ok(exchanges) => {
            let ended = end(alloc, query, client, given, exchanges)?;
            Ok(ended)
        }
        // To end a client here would make the proof long.
        Err(NoMemory) => {
            drop(client);
            Err(NoMemory)
        }
    }
}

/// Asks by a client without a cache up to its outcome, and answers a journey of the fewest rides among the earliest arrivals where it
/// found one. A client makes `horizon + 3` exchanges at most. Takes the time of the client, and that of `fewest_of`.
pub fn fewest<L: Link>(
    alloc: Global,
    query: Query,
    base: &Base,
    link: &mut L,
) -> Result<FewestEnd, NoMemory>
    ensures ends { IfOk result (EndsSo L.seen base.now query link.old link.new) }
    ensures moment { IfOk result (λ end. ArrivesAtAMoment end.outcome) }
    ensures left { IsLeftByGets (L.seen link.old) (L.seen link.new) }
    ensures behind { L.behind link.new ≡ L.behind link.old }
{
    let asked = query.copy(alloc)?;
    let mut given = Given {
        doc: None,
        pages: Vec::new(alloc),
    };
    let client = Client::new(asked);
    let end = fewest_by(alloc, &query, base, client, &mut given, link)?;
    Ok(end)
}
