ghost use Rattle.gtfs_tables.specs.Calendars.Laws.{NeverBothDates, NeverBothFrequencies, NeverBothTransfers, NeverBothWeekly, OneCalendarDatesFault, OneCalendarFault, OneDates, OneFrequencies, OneFrequenciesFault, OneTransfers, OneTransfersFault, OneWeekly};

/// calendar.txt says one list of rows, or has one first fault, and never both.
pub fn one_calendar()
    ensures weekly { OneWeekly }
    ensures fault { OneCalendarFault }
    ensures never_both { NeverBothWeekly }
{}

/// calendar_dates.txt says one list of rows, or has one first fault, and never both.
pub fn one_calendar_dates()
    ensures dates { OneDates }
    ensures fault { OneCalendarDatesFault }
    ensures never_both { NeverBothDates }
{}

/// frequencies.txt of given trips says one list of rows, or has one first fault, and never both.
pub fn one_frequencies()
    ensures frequencies { OneFrequencies }
    ensures fault { OneFrequenciesFault }
    ensures never_both { NeverBothFrequencies }
{}

/// transfers.txt of given stops says one list of rows, or has one first fault, and never both.
pub fn one_transfers()
    ensures transfers { OneTransfers }
    ensures fault { OneTransfersFault }
    ensures never_both { NeverBothTransfers }
{}
