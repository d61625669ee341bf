ghost use Rattle.std.specs.Prelude.{◌≡◌};
ghost use Rattle.timetable.specs.Scope.{IsWindow};
ghost use Rattle.lc_cli.specs.Scope.{scope_of};

use cli_words::FeedWindow;
use timetable::Scope;

/// What a command asks of its feed.
pub(crate) fn scope_of(window: FeedWindow) -> Scope
    ensures scope { result ≡ scope_of window }
    ensures window { IsWindow result.first result.days }
{
    Scope {
        feed: window.feed,
        zone: window.zone,
        first: window.first,
        days: window.days,
        change: window.change,
    }
}
