ghost use Rattle.std.specs.Prelude.{◌≡◌, ◌≤◌, ℕ, IfOk, List, MatchOption};
ghost use Rattle.clap.specs.Simple.{App};
ghost use Rattle.lc_model.specs.declared.date.ServiceDate.{ServiceDate as Date};
ghost use Rattle.cli_words.specs.FeedWindow.{AsksWindow, HasWindow, SaysFeedWindow, SaysFirst};
ghost use Rattle.cli_words.specs.Line.{HasFound};
ghost use Rattle.cli_words.specs.declared.command.FeedWindow.{FeedWindow as Said};

use crate::FeedWindow;
use crate::line::text_of;
use crate::options::read_options;
use crate::window::{date_before, is_window};
use clap::ArgMatches;
use lc_model::{Moment, NoMemory, ServiceDate};
use lc_time::read_date;
use std::alloc::Global;

/// The feed and its window that were found in a line with a first date, or none where they are said wrongly.
pub(crate) fn read_feed_window<'a>(
    alloc: Global,
    found: &ArgMatches<'a>,
) -> Result<Option<FeedWindow>, NoMemory>
    ensures { (a : App) (words : List (List ℕ)) → HasFound a words found.now → IfOk result (λ window.
        MatchOption window ((window : Said) → SaysFeedWindow a words window → ⊥) (SaysFeedWindow a words)) }
{
    let Some(first) = read_first(found) else {
        return Ok(None);
    };
    window_from(alloc, found, first, 7)
}

/// The feed and its window that were found in a line with a question of this moment, or none where they are said wrongly.
pub(crate) fn read_asked_window<'a>(
    alloc: Global,
    found: &ArgMatches<'a>,
    moment: Moment,
) -> Result<Option<FeedWindow>, NoMemory>
    requires { 86_400 ≤ moment }
    ensures { (a : App) (words : List (List ℕ)) → HasFound a words found.now → IfOk result (λ window.
        MatchOption window ((window : Said) → AsksWindow a words moment window → ⊥) (AsksWindow a words moment)) }
{
    window_from(alloc, found, date_before(moment), 3)
}

/// The first date that was found, or none where it is said wrongly.
fn read_first<'a>(found: &ArgMatches<'a>) -> Option<ServiceDate>
    ensures { (a : App) (words : List (List ℕ)) → HasFound a words found.now
        → MatchOption result ((first : Date) → SaysFirst a words first → ⊥) (SaysFirst a words) }
{
    let first = found.get_str("first")?;
    read_date(first.as_bytes())
}

/// The feed that was found, in the window from this date on by the options that were found, with so many days where they say none. None where
/// one of them is said wrongly.
fn window_from<'a>(
    alloc: Global,
    found: &ArgMatches<'a>,
    first: ServiceDate,
    default_days: u32,
) -> Result<Option<FeedWindow>, NoMemory>
    requires some_days { 1 ≤ default_days }
    requires two_months { default_days ≤ 62 }
    ensures { (a : App) (words : List (List ℕ)) → HasFound a words found.now → IfOk result (λ window.
        MatchOption window ((window : Said) → window.first ≡ first → HasWindow a words default_days window → ⊥)
        (λ window. (window.first ≡ first) × HasWindow a words default_days window)) }
{
    let Some(feed) = found.get_str("feed") else {
        return Ok(None);
    };
    let Some(options) = read_options(found, default_days) else {
        return Ok(None);
    };
    if !is_window(first, options.days) {
        return Ok(None);
    }
    Ok(Some(FeedWindow {
        feed: text_of(alloc, feed)?,
        first,
        days: options.days,
        zone: text_of(alloc, options.zone)?,
        change: options.change,
    }))
}
