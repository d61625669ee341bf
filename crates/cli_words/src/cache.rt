ghost use Rattle.std.specs.Prelude.{◌≡◌, ◌≤◌, ℕ, IfSome, List};
ghost use Rattle.clap.specs.Simple.{App};
ghost use Rattle.cli_words.specs.Cache.{cache_said};
ghost use Rattle.cli_words.specs.Line.{HasFound};

use crate::options::number;
use clap::ArgMatches;

/// How many pages the options of a line let be cached at most, or none where that is said wrongly.
pub(crate) fn read_cache<'a>(found: &ArgMatches<'a>) -> Option<u32>
    ensures said { (a : App) (words : List (List ℕ)) → HasFound a words found.now → result ≡ cache_said a words }
    ensures some_pages { IfSome result (λ pages. 1 ≤ pages) }
    ensures most_pages { IfSome result (λ pages. pages ≤ 10_000) }
{
    number(found.get_str("cache"), 100, 1, 10_000)
}
