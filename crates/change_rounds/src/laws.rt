ghost use Rattle.change_rounds.specs.Laws.{ChainsAreAlike, JourneysAreAlike};

/// Journeys of the fewest rides among the earliest arrivals arrive at one moment, with one number of rides. Where one answer is that
/// there is none, so is each other.
pub fn one_fewest()
    ensures chains { ChainsAreAlike }
    ensures journeys { JourneysAreAlike }
{}
