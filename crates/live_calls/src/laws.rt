ghost use Rattle.live_calls.specs.Laws.{CallsGoForward, LiveWithoutNews, OneAddedRun, OneListOfLiveRuns, RunsAreLive};

/// A timetable has one list of live runs by its news.
pub fn one_list_of_live_runs()
    ensures { OneListOfLiveRuns }
{}

/// Without news the live runs of a timetable are its runs, where these go forward and are not late.
pub fn live_without_news()
    ensures live { LiveWithoutNews }
    ensures runs { RunsAreLive }
{}

/// The news of an added trip make one run, or none.
pub fn one_added_run()
    ensures { OneAddedRun }
{}

/// Live calls go forward, whether the timetable does or not, and so do the calls of added trips.
pub fn calls_go_forward()
    ensures { CallsGoForward }
{}
