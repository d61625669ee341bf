ghost use Rattle.lc_model.specs.Calendar.{IsCivilDate};

/// A date of the Gregorian calendar, of the years 1 to 9999, on which a service runs.
#[derive(Clone, Copy, PartialEq, Eq, PartialOrd, Ord, Hash)]
pub struct ServiceDate {
    pub year: u16,
    pub month: u8,
    pub day: u8,
    pub ghost civil: { IsCivilDate year month day },
}
