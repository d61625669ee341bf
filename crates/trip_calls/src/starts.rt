ghost use Rattle.std.specs.Prelude.{◌≡◌, ◌<◌, ◌++◌, All, IfOk, OnOk, Some, map};
ghost use Rattle.std.specs.List.{AllPairs};
ghost use Rattle.std.specs.List.Sorted.{IsPermutation, IsSorted};
ghost use Rattle.std.specs.Ordering.{on};
ghost use Rattle.lc_model.specs.Text.{id_cmp};
ghost use Rattle.gtfs_tables.specs.Calendars.Spans.{AreSpans, IsSpan};
ghost use Rattle.gtfs_tables.specs.declared.calendars.frequency.Frequency.{Frequency as Row};
ghost use Rattle.trip_calls.specs.Starts.{AreAllGiven, AreGiven, AreStarts, GainsStarts, GivesSoMany, HaveSameStarts, HaveStarts};
ghost use Rattle.trip_calls.specs.declared.start.Start.{Start as Stated};

use crate::start::Start;
use gtfs_tables::{Frequencies, Frequency};
use lc_model::{Id, NoMemory, copy_each, items_of};
use std::alloc::Global;
use std::cmp::Ordering;

// A service day has so many seconds at which a run may start.
const MOST_STARTS: usize = 360_000;

fn by_trip(a: &Frequency, b: &Frequency) -> Ordering
    ensures { result ≡ on (λ (f : Row). f.trip) id_cmp a.now b.now }
{
    a.trip.cmp(&b.trip)
}

/// The rows of frequencies.txt, sorted by their trips, in the time of a sort.
pub(crate) fn sorted_spans(
    alloc: Global,
    frequencies: &Frequencies,
) -> Result<Vec<Frequency>, NoMemory>
    ensures moved { IfOk result (λ spans. IsPermutation frequencies.now spans.items) }
    ensures sorted { IfOk result (λ spans. IsSorted (on (λ (f : Row). f.trip) id_cmp) spans.items) }
    ensures spans { IfOk result (λ spans. AreSpans spans.items) }
{
    let mut spans = copy_each(alloc, frequencies.as_slice())?;
    spans.sort_unstable_by(|a, b| by_trip(a, b));
    Ok(spans)
}

/// Adds the starts that a row gives, one by one.
fn push_starts(starts: &mut Vec<u32>, span: &Frequency) -> Result<(), NoMemory>
    requires { IsSpan span.now }
    ensures { OnOk result (GainsStarts span.now starts.old.items starts.new.items) }
{
    let end = u64::from(span.to);
    let mut start = u64::from(span.from);
    'starts: while start < end {
        starts.push(start as u32)?;
        start += u64::from(span.headway);
    }
    Ok(())
}

/// Sorts the starts, and leaves each once.
fn leave_once(starts: &mut Vec<u32>)
    ensures same { HaveSameStarts starts.old.items starts.new.items }
    ensures once { AllPairs (λ s t. s < t) starts.new.items }
{
    starts.sort_unstable();
    starts.dedup();
}

/// Leaves each start once where there are more than twice as many as can differ.
fn leave_few(starts: &mut Vec<u32>)
    ensures { HaveSameStarts starts.old.items starts.new.items }
{
    if starts.len() <= 2 * MOST_STARTS {
        return;
    }
    leave_once(starts);
}

/// The starts that rows give, of which one may be there more than once. However many rows there are, there is room for three
/// times as many as can differ.
fn all_starts(alloc: Global, spans: &[Frequency]) -> Result<Vec<u32>, NoMemory>
    requires { AreSpans spans.now }
    ensures { IfOk result (λ starts. AreAllGiven spans.now starts.items) }
{
    let mut starts = Vec::new(alloc);
    'spans: for span in spans {
        push_starts(&mut starts, span)?;
        leave_few(&mut starts);
    }
    Ok(starts)
}

/// The starts that rows give, each once, in the time of a sort of all that they give.
fn given_starts(alloc: Global, spans: &[Frequency]) -> Result<Vec<u32>, NoMemory>
    requires { AreSpans spans.now }
    ensures { IfOk result (λ starts. AreGiven spans.now starts.items) }
{
    let mut starts = all_starts(alloc, spans)?;
    leave_once(&mut starts);
    Ok(starts)
}

fn push_given(starts: &mut Vec<Start>, given: &[u32]) -> Result<(), NoMemory>
    requires { All (λ s. s < 360_000) given.now }
    ensures { OnOk result (map (λ (s : Stated). s.seconds) starts.new.items ≡ map (λ (s : Stated). s.seconds) starts.old.items ++ map Some given.now) }
{
    'given: for &seconds in given {
        starts.push(Start {
            seconds: Some(seconds),
        })?;
    }
    Ok(())
}

/// The starts of the runs of a trip, each once, where the rows are sorted by their trips. It takes two binary searches, and a sort
/// of the starts that the rows of the trip give.
pub(crate) fn starts_of(
    alloc: Global,
    spans: &[Frequency],
    trip: &Id,
) -> Result<Vec<Start>, NoMemory>
    requires sorted { IsSorted (on (λ (f : Row). f.trip) id_cmp) spans.now }
    requires spans { AreSpans spans.now }
    ensures { IfOk result (λ starts. AreStarts spans.now trip.now starts.items) }
{
    let own = items_of(spans, trip);
    let mut starts = Vec::new(alloc);
    if own.is_empty() {
        starts.push(Start { seconds: None })?;
        return Ok(starts);
    }
    let given = given_starts(alloc, own)?;
    push_given(&mut starts, given.as_slice())?;
    Ok(starts)
}

/// How many starts a row gives, none of which is made.
fn count_of(span: &Frequency) -> u64
    requires { IsSpan span.now }
    ensures { GivesSoMany span.now result }
{
    let seconds = u64::from(span.to.saturating_sub(span.from));
    seconds.div_ceil(u64::from(span.headway))
}

/// How many starts the runs of a trip have, where the rows are sorted by their trips. Where the trip has one row, or none,
/// no start is made.
pub(crate) fn start_count(alloc: Global, spans: &[Frequency], trip: &Id) -> Result<u64, NoMemory>
    requires sorted { IsSorted (on (λ (f : Row). f.trip) id_cmp) spans.now }
    requires spans { AreSpans spans.now }
    ensures { IfOk result (HaveStarts spans.now trip.now) }
{
    let own = items_of(spans, trip);
    if own.is_empty() {
        return Ok(1);
    }
    if own.len() == 1 {
        return Ok(count_of(&own[0]));
    }
    let starts = starts_of(alloc, spans, trip)?;
    Ok(starts.len() as u64)
}
