ghost use Rattle.std.specs.Prelude.{◌≡◌, ◌≤◌, ℕ, IfOk, IfSome, List, MatchOption};
ghost use Rattle.clap.specs.Simple.{App};
ghost use Rattle.cli_words.specs.Line.{HasFound};
ghost use Rattle.cli_words.specs.Published.{AsksPublished, SaysPublished};
ghost use Rattle.cli_words.specs.declared.command.Published.{Published as Said};

use crate::feed_window::read_asked_window;
use crate::publishing::{EXAMPLE, read_publishing};
use crate::update::{copy_of, read_update};
use crate::{FeedWindow, Published};
use clap::ArgMatches;
use lc_model::{Moment, NoMemory};
use std::alloc::Global;

/// The published timetable of which a question of this moment is asked, or none where it is said wrongly.
pub(crate) fn read_asked<'a>(
    alloc: Global,
    found: &ArgMatches<'a>,
    moment: Moment,
) -> Result<Option<Published>, NoMemory>
    requires { 86_400 ≤ moment }
    ensures { (a : App) (words : List (List ℕ)) → HasFound a words found.now → IfOk result (λ published.
        MatchOption published ((published : Said) → AsksPublished a words moment published → ⊥) (AsksPublished a words moment)) }
{
    match read_asked_window(alloc, found, moment)? {
        Some(window) => read_published(alloc, found, window, EXAMPLE),
        None => Ok(None),
    }
}

/// The timetable of a feed in this window, published by the options that were found in a line, with this base where they say none. None where
/// one of them is said wrongly.
pub(crate) fn read_published<'a>(
    alloc: Global,
    found: &ArgMatches<'a>,
    window: FeedWindow,
    default_base: &str,
) -> Result<Option<Published>, NoMemory>
    ensures window { IfOk result (λ published. IfSome published (λ published. published.window ≡ window)) }
    ensures said { (a : App) (words : List (List ℕ)) → HasFound a words found.now → IfOk result (λ published.
        MatchOption published ((published : Said) → SaysPublished default_base.now a words published → ⊥)
        (SaysPublished default_base.now a words)) }
{
    let Some(update) = read_update(found) else {
        return Ok(None);
    };
    match read_publishing(alloc, found, default_base)? {
        Some(publishing) => Ok(Some(Published {
            window,
            publishing,
            update: copy_of(alloc, update)?,
        })),
        None => Ok(None),
    }
}
