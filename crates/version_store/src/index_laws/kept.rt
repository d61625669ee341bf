ghost use Rattle.version_store.specs.IndexLaws.Kept.{ForceGoesOn, NewestNews, NewsOfNumber, OlderNewsStay, PutAtOnce};

/// What is in force after one message more depends on that message and on what was in force before it. The news of a version are
/// what is in force after its message, whatever messages come later.
pub fn force_goes_on()
    ensures goes_on { ForceGoesOn }
    ensures of_number { NewsOfNumber }
    ensures newest { NewestNews }
    ensures older { OlderNewsStay }
{}

/// The entities of a differential message may go in at once. An id that one of them has leaves what is in force, and the last one of
/// each id goes in, if it has news.
pub fn put_at_once()
    ensures { PutAtOnce }
{}
