ghost use Rattle.std.specs.Prelude.{◌≡◌, Some};
ghost use Rattle.lc_model.specs.Versions.History.{dated, filled_news};
ghost use Rattle.version_store.specs.Kept.{news_said};

use lc_model::{ServiceDate, TripNews};

/// News of a trip, and the date of its run.
#[derive(Clone, Copy)]
pub(crate) struct DatedNews<'a> {
    pub(crate) news: &'a TripNews,
    pub(crate) date: ServiceDate,
}

fn date_or(said: Option<ServiceDate>, date: ServiceDate) -> ServiceDate
    ensures { Some result ≡ dated date said }
{
    match said {
        Some(said) => said,
        None => date,
    }
}

/// The news, with this date where they say none.
pub(crate) fn dated_news<'a>(news: &'a TripNews, date: ServiceDate) -> DatedNews<'a>
    ensures { news_said result ≡ filled_news date news.now }
{
    DatedNews {
        news,
        date: date_or(news.date, date),
    }
}
