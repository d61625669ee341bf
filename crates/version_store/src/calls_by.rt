ghost use Rattle.std.specs.Prelude.{IfOk, List, option_map};
ghost use Rattle.std.specs.Option.{ForSome, option_copied};
ghost use Rattle.lc_model.specs.Call.{GoesForward};
ghost use Rattle.lc_model.specs.Run.{InKeyOrder};
ghost use Rattle.lc_model.specs.Text.{IsIdText};
ghost use Rattle.lc_model.specs.Versions.News.{TripSaid};
ghost use Rattle.version_store.specs.CallsBy.{AreCallsBy, AreFurtherCalls, IsRunOfKey};
ghost use Rattle.version_store.specs.Kept.{news_said};
ghost use Rattle.version_store.specs.LastNews.{HasLastAt};

use crate::dated::DatedNews;
use crate::last_news::LastNews;
use crate::live_runs::{further_run, live_of};
use lc_model::{Calls, NoMemory, Run, RunKey, Runs, Stops};
use std::alloc::Global;

/// The run of this key, if there is one. Takes the logarithm of the runs.
pub(crate) fn run_of_key<'a>(runs: &'a [Run], key: &RunKey) -> Option<&'a Run>
    requires { InKeyOrder runs.now }
    ensures { IsRunOfKey runs.now key.now (option_copied result) }
{
    match runs.binary_search_by(|run| run.key.cmp(key)) {
        Ok(place) => Some(&runs[place]),
        Err(_) => None,
    }
}

/// The calls of the run that news make, if they are of an added trip and make one.
fn further_calls(
    alloc: Global,
    stops: &Stops,
    news: Option<DatedNews<'_>>,
) -> Result<Option<Calls>, NoMemory>
    ensures { IfOk result (AreFurtherCalls stops.now (option_map news_said news.entry)) }
{
    let Some(news) = news else {
        return Ok(None);
    };
    match further_run(alloc, stops, news)? {
        Some(run) => Ok(Some(run.calls)),
        None => Ok(None),
    }
}

/// The trip of a key is an id, as its type says. The call does nothing.
fn trip_is_id(key: &RunKey)
    ensures { IsIdText key.now.trip }
{
    let _trip = key.trip.bytes();
}

/// The calls of the run of a key by the news, if there is one. Takes the logarithm of the runs and of the news, and the time of the calls.
pub(crate) fn calls_by(
    alloc: Global,
    runs: &Runs,
    stops: &Stops,
    last: &LastNews<'_>,
    key: &RunKey,
) -> Result<Option<Calls>, NoMemory>
    ensures calls { IfOk result (λ calls. (list : List TripSaid) → HasLastAt key.now list last.now → AreCallsBy runs.now stops.now list key.now calls) }
    ensures forward { IfOk result (λ calls. ForSome calls GoesForward) }
{
    trip_is_id(key);
    match run_of_key(runs.as_slice(), key) {
        Some(run) => Ok(Some(live_of(alloc, run, &last.named)?)),
        None => further_calls(alloc, stops, last.own.get(key).copied()),
    }
}
