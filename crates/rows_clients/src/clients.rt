//! A client over replies that were worked out by hand (Linked Connections 1.0; RFC 7089), honest ones and ones that lie.
mod asked;
mod replies;

ghost use Rattle.std.specs.Prelude.{◌≡◌, ◌≢◌};
ghost use Rattle.page_client.specs.Client.{shown};
ghost use Rattle.page_client.specs.Shown.{want_of};
ghost use Rattle.page_client.specs.declared.want.Want.{Want as Wanted};

use crate::making::{MIDNIGHT, base, question};
use crate::said::{put_arrival, put_named, put_no_journey};
use asked::{CASES, CUT_OFF, Case, REQUESTS, replies_of};
use connection_uri::Base;
use lc_model::{Journey, Moment, PageName};
use page_client::{Client, Outcome, PeerFault, Want, one_reply, page_of};
use replies::put_reply;
use rows_common::{Draft, Unmade};
use std::alloc::Global;

/// What is asked of a client after its replies.
#[derive(Clone, Copy)]
enum Then {
    /// How it ended.
    Outcome,
    /// What it requests, where the question is about what is known at 07:00.
    Request,
    /// How it ends by an exchange that fails.
    LinkFault,
}

/// A line for each client.
pub(crate) fn put_clients(alloc: Global, draft: &mut Draft) {
    one_reply();
    let base = match base(alloc) {
        Ok(base) => base,
        Err(Unmade) => return draft.lose(),
    };
    for case in &CASES {
        put_client(alloc, draft, &base, case, Then::Outcome);
    }
    for case in &REQUESTS {
        put_client(alloc, draft, &base, case, Then::Request);
    }
    for case in &CUT_OFF {
        put_client(alloc, draft, &base, case, Then::LinkFault);
    }
}

/// The line of a client.
fn put_client(alloc: Global, draft: &mut Draft, base: &Base, case: &Case, then: Then) {
    let &(from, to, second, horizon, _) = case;
    let leave = MIDNIGHT.saturating_add(u64::from(second));
    match question(alloc, from, to, leave, known(then), horizon) {
        Ok(query) => put_owned(alloc, draft, base, Client::new(query), case, then),
        Err(Unmade) => draft.lose(),
    }
}

/// A client is owned here alone, and ends elsewhere, since that is dear to prove.
fn put_owned(
    alloc: Global,
    draft: &mut Draft,
    base: &Base,
    mut client: Client,
    case: &Case,
    then: Then,
) {
    put_run(alloc, draft, base, &mut client, case, then);
    drop(client);
}

fn known(then: Then) -> Option<Moment> {
    match then {
        Then::Request => Moment::new(MIDNIGHT + 25_200),
        Then::Outcome | Then::LinkFault => None,
    }
}

fn put_run(
    alloc: Global,
    draft: &mut Draft,
    base: &Base,
    client: &mut Client,
    case: &Case,
    then: Then,
) {
    let given = run(alloc, draft, base, client, replies_of(case.4));
    match then {
        Then::Outcome => put_ended(draft, client, case, given),
        Then::Request => put_request(alloc, draft, base, client, case.4),
        Then::LinkFault => put_cut(draft, client),
    }
}

/// What a client of a question says after its replies, and how many it received.
fn put_ended(draft: &mut Draft, client: &Client, case: &Case, given: u64) {
    put_asked(draft, case);
    match client.outcome() {
        Some(Outcome::Found(journey)) => put_journey(draft, journey),
        outcome => put_no_journey(draft, outcome),
    }
    put_named(draft, ", ", &given);
    draft.put("\n");
}

fn put_asked(draft: &mut Draft, case: &Case) {
    let &(from, to, leave, horizon, words) = case;
    draft.put_all(&[from, " ", to]);
    put_named(draft, " ", &leave);
    put_named(draft, " ", &horizon);
    draft.put_all(&[": ", words, " => "]);
}

/// A journey by its number of rides, and when the last one arrives.
fn put_journey(draft: &mut Draft, journey: &Journey) {
    draft.put_shown(&journey.rides.as_slice().len());
    draft.put(" rides to ");
    put_arrival(draft, journey, MIDNIGHT);
}

/// Gives the client the replies of these words, as many as it wants, and counts them.
fn run(alloc: Global, draft: &mut Draft, base: &Base, client: &mut Client, words: &str) -> u64 {
    let mut given: u64 = 0;
    for word in words.split_whitespace() {
        if client.want() != Want::Finished {
            given = given.saturating_add(1);
            give_word(alloc, draft, base, client, word);
        }
    }
    given
}

fn give_word(alloc: Global, draft: &mut Draft, base: &Base, client: &mut Client, word: &str) {
    let mut reply = Draft::new(alloc);
    put_reply(&mut reply, word);
    draft.also(&reply);
    give(alloc, draft, base, client, reply.into_bytes());
}

/// Gives the client a reply to what it wants.
fn give(alloc: Global, draft: &mut Draft, base: &Base, client: &mut Client, reply: Vec<u8>) {
    match client.want() {
        Want::Gate => draft.need(client.give_gate(alloc, base, reply)),
        Want::Stops => draft.need(client.give_stops(alloc, reply)),
        Want::Page(name) => give_page(alloc, draft, base, client, name, reply),
        Want::Finished => {}
    }
}

/// Gives the client, which wants the page of this name, what the reply says.
fn give_page(
    alloc: Global,
    draft: &mut Draft,
    base: &Base,
    client: &mut Client,
    name: PageName,
    reply: Vec<u8>,
)
    requires { want_of (shown client.old).phase ≡ Wanted.Page name }
{
    match page_of(alloc, base, name, reply.as_slice()) {
        Ok(page) => draft.need(client.give_page(alloc, &page)),
        Err(fault) => give_fault(draft, client, reply, fault),
    }
}

fn give_fault(draft: &mut Draft, client: &mut Client, reply: Vec<u8>, fault: PeerFault)
    requires { want_of (shown client.old).phase ≢ Wanted.Finished }
{
    if fault.is_want() {
        draft.lose();
    } else {
        client.give_peer_fault(reply, fault);
    }
}

/// What a client asks for after the replies of these words.
fn put_request(alloc: Global, draft: &mut Draft, base: &Base, client: &Client, words: &str) {
    if client.want() == Want::Finished {
        return draft.lose();
    }
    draft.put_all(&["asked behind ", words, ": "]);
    match client.request(alloc, base) {
        Ok(request) => put_lines(draft, request.as_slice()),
        Err(_) => draft.lose(),
    }
}

/// The lines of a request, with a bar for the end of each.
fn put_lines(draft: &mut Draft, request: &[u8]) {
    for byte in request {
        match *byte {
            b'\r' => {}
            b'\n' => draft.put("|"),
            byte => draft.put_shown(&(byte as char)),
        }
    }
    draft.put("\n");
}

/// A client of which an exchange fails: the version that the time gate named to it, and how it ended.
fn put_cut(draft: &mut Draft, client: &mut Client) {
    if client.want() == Want::Finished {
        return draft.lose();
    }
    client.give_link_fault(0, 1);
    let Some(version) = client.version() else {
        return draft.lose();
    };
    put_named(draft, "cut off: ", &version.seconds());
    draft.put(" ");
    put_no_journey(draft, client.outcome());
    draft.put("\n");
}
