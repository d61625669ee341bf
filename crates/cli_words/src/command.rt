ghost use Rattle.std.specs.Prelude.{◌≤◌};
ghost use Rattle.cli_words.specs.Window.{IsWindow};

use back_scan::ArriveQuery;
use connection_uri::Base;
use fragmenter::Cutting;
use lc_model::{Moment, Query, ServiceDate, Text};

/// What a command line asks for.
#[derive(Drop)]
pub enum Command {
    Check(Check),
    Ask(Ask),
    Replay(Replay),
    Serve(Serve),
    Plan(Plan),
    Drill(Drill),
    Arrive(Arrive),
    Fewest(Fewest),
    Relay(Relay),
}

/// A feed, and the service dates of it that are looked at.
#[derive(Drop)]
pub struct FeedWindow {
    /// The name of the feed's directory.
    pub feed: Text,
    /// The first date.
    pub first: ServiceDate,
    /// How many dates there are.
    pub days: u32,
    /// The word of a zone, as it was said.
    pub zone: Text,
    /// The seconds of a change of which the feed says none.
    pub change: u32,
    pub ghost some_days: { 1 ≤ days },
    pub ghost two_months: { days ≤ 62 },
    pub ghost is_window: { IsWindow first days },
    pub ghost within_a_day: { change ≤ 86_400 },
}

/// The timetable of a feed in a window of dates, and how it is published.
#[derive(Drop)]
pub struct Published {
    pub window: FeedWindow,
    pub publishing: Publishing,
    /// The name of the file with a realtime message, if one is to be admitted.
    pub update: Option<Text>,
}

/// `check`: the timetable of a feed in a window of dates.
#[derive(Drop)]
pub struct Check {
    pub window: FeedWindow,
}

/// `ask`: a question to a timetable, which is asked through pages.
#[derive(Drop)]
pub struct Ask {
    pub published: Published,
    pub query: Query,
    /// How many pages are cached at most.
    pub cache: u32,
    pub ghost some_pages: { 1 ≤ cache },
    pub ghost most_pages: { cache ≤ 10_000 },
}

/// `replay`: a script of clients, messages and turns over the timetable of a feed in a window of dates, which is asked through
/// pages.
#[derive(Drop)]
pub struct Replay {
    pub window: FeedWindow,
    pub publishing: Publishing,
    /// How many pages are cached at most.
    pub cache: u32,
    /// The name of the file with the script.
    pub script: Text,
    pub ghost some_pages: { 1 ≤ cache },
    pub ghost most_pages: { cache ≤ 10_000 },
}

/// `serve`: a timetable, which is published at a port to clients of any kind.
#[derive(Drop)]
pub struct Serve {
    pub published: Published,
    pub port: u16,
    /// How many connections are served before the command ends.
    pub connections: u32,
    /// Whether clients may send realtime messages.
    pub accept_updates: bool,
    pub ghost some_port: { 1 ≤ port },
    pub ghost some_connections: { 1 ≤ connections },
    pub ghost most_connections: { connections ≤ 1_000_000 },
}

/// `plan`: questions to the publisher under a base, which are asked over the network.
#[derive(Drop)]
pub struct Plan {
    pub base: Base,
    /// The name of the file with the questions and turns.
    pub asks: Text,
    /// How many pages are cached at most.
    pub cache: u32,
    pub ghost some_pages: { 1 ≤ cache },
    pub ghost most_pages: { cache ≤ 10_000 },
}

/// `drill`: a replay over an input that is generated from a number.
#[derive(Drop)]
pub struct Drill {
    /// The number, from which the draws begin.
    pub seed: u32,
    pub days: u32,
    pub ghost some_seed: { 1 ≤ seed },
    pub ghost most_seed: { seed ≤ 1_000_000 },
    pub ghost some_days: { 1 ≤ days },
    pub ghost one_week: { days ≤ 7 },
}

/// `arrive`: a question for the latest departure to a timetable, which is asked through pages.
#[derive(Drop)]
pub struct Arrive {
    pub published: Published,
    pub query: ArriveQuery,
}

/// `fewest`: a question for the fewest rides to a timetable, which is asked through pages.
#[derive(Drop)]
pub struct Fewest {
    pub published: Published,
    pub query: Query,
}

/// `relay`: questions to the publisher under a base, which are asked over the network through a relay that keeps documents.
#[derive(Drop)]
pub struct Relay {
    pub base: Base,
    /// The name of the file with the questions and turns.
    pub asks: Text,
    /// How many pages are cached at most.
    pub cache: u32,
    /// How many documents the relay keeps at most.
    pub entries: u32,
    pub ghost some_pages: { 1 ≤ cache },
    pub ghost most_pages: { cache ≤ 10_000 },
    pub ghost some_entries: { 1 ≤ entries },
    pub ghost most_entries: { entries ≤ 1_000 },
}

/// How a timetable is published.
#[derive(Drop)]
pub struct Publishing {
    pub base: Base,
    /// The moment from which on the timetable is known, before any message.
    pub base_moment: Moment,
    pub cutting: Cutting,
}
