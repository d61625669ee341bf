ghost use Rattle.std.specs.Prelude.{◌≡◌, ◌∷◌, ◌++◌, [], ℤ, List, None, pos};
ghost use Rattle.std.specs.Option.{option_copied};
ghost use Rattle.lc_model.specs.Versions.Live.{StatedCall, call_at, stated, stated_events, stated_with};
ghost use Rattle.live_calls.specs.Walk.{IsLateness, stated_list};

use lc_model::{Call, Event, Moment, Relation, StopNews};

/// An arrival and a departure as they are stated, in seconds since 1970, perhaps out of range.
#[derive(Clone, Copy)]
pub(crate) struct Times {
    pub(crate) arr: i128,
    pub(crate) dep: i128,
}

/// A moment as it is stated, and how late that is.
#[derive(Clone, Copy)]
pub(crate) struct StatedMoment {
    pub(crate) time: i128,
    pub(crate) delay: i128,
}

/// What is stated of a call, nothing where it is left out, and the delay after it.
#[derive(Clone, Copy)]
pub(crate) struct Telling {
    pub(crate) times: Option<Times>,
    pub(crate) late: i128,
}

/// What an event says of a scheduled moment after a delay.
fn stated_moment(scheduled: Moment, late: i128, event: Option<Event>) -> StatedMoment
    requires { IsLateness late }
    ensures time { result.time ≡ (stated scheduled late event).time }
    ensures delay { result.delay ≡ (stated scheduled late event).delay }
    ensures bounded { IsLateness result.delay }
{
    let scheduled = scheduled.seconds() as i128;
    let (said, delay) = match event {
        Some(event) => (event.time, event.delay),
        None => (None, None),
    };
    match (said, delay) {
        (Some(time), _) => StatedMoment {
            time: time as i128,
            delay: time as i128 - scheduled,
        },
        (None, Some(delay)) => StatedMoment {
            time: scheduled + delay as i128,
            delay: delay as i128,
        },
        (None, None) => StatedMoment {
            time: scheduled + late,
            delay: late,
        },
    }
}

/// How a call is stated by its events: the departure after the delay that the arrival leaves.
fn stated_by_events(call: &Call, late: i128, arr: Option<Event>, dep: Option<Event>) -> Telling
    requires { IsLateness late }
    ensures stated { (behind : ℤ → List StatedCall) → stated_events call.now behind dep (stated call.now.arr late arr)
        ≡ stated_list (call_at call.now) result.times ++ behind result.late }
    ensures bounded { IsLateness result.late }
{
    let arr = stated_moment(call.arr, late, arr);
    let dep = stated_moment(call.dep, arr.delay, dep);
    let times = Times {
        arr: arr.time,
        dep: dep.time,
    };
    Telling {
        times: Some(times),
        late: dep.delay,
    }
}

/// How a call is stated where nothing is said of it: so much later than it is scheduled.
fn stated_later(call: &Call, late: i128) -> Telling
    requires { IsLateness late }
    ensures stated { (behind : ℤ → List StatedCall) → stated_with call.now behind late None
        ≡ stated_list (call_at call.now) result.times ++ behind result.late }
    ensures bounded { IsLateness result.late }
{
    let times = Times {
        arr: call.arr.seconds() as i128 + late,
        dep: call.dep.seconds() as i128 + late,
    };
    Telling {
        times: Some(times),
        late,
    }
}

/// How a call is stated as it is scheduled, which ends the delay.
fn stated_scheduled(call: &Call) -> Telling
    ensures times { stated_list (call_at call.now) result.times
        ≡ record { at = call_at call.now; arr = pos call.now.arr; dep = pos call.now.dep } ∷ [] }
    ensures late { result.late ≡ pos 0 }
{
    let times = Times {
        arr: call.arr.seconds() as i128,
        dep: call.dep.seconds() as i128,
    };
    Telling {
        times: Some(times),
        late: 0,
    }
}

/// How a call is stated by the news of its stop, or without, after a delay.
pub(crate) fn stated_call(call: &Call, late: i128, news: Option<&StopNews>) -> Telling
    requires { IsLateness late }
    ensures stated { (behind : ℤ → List StatedCall) → stated_with call.now behind late (option_copied news.entry)
        ≡ stated_list (call_at call.now) result.times ++ behind result.late }
    ensures bounded { IsLateness result.late }
{
    let Some(news) = news else {
        return stated_later(call, late);
    };
    match news.relation() {
        Relation::Scheduled => stated_by_events(call, late, news.arr(), news.dep()),
        Relation::Skipped => Telling { times: None, late },
        Relation::NoData => stated_scheduled(call),
    }
}
