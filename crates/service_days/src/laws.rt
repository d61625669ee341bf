ghost use Rattle.service_days.specs.Laws.{MidnightInUtc, OneListOfDays, OneZone, ShownInUtc};

/// A word, with the bytes of its file, says one clock.
pub fn one_zone_a_word()
    ensures { OneZone }
{}

/// Services have one list of dates in a window.
pub fn one_list_of_days()
    ensures { OneListOfDays }
{}

/// In UTC a service day begins at midnight, and its date is shown for 24 hours.
pub fn days_in_utc()
    ensures midnight { MidnightInUtc }
    ensures shown { ShownInUtc }
{}
