ghost use Rattle.lc_model.specs.declared.date.ServiceDate.{ServiceDate as Date};
ghost use Rattle.lc_model.specs.declared.key.RunKey.{RunKey as Key};
ghost use Rattle.lc_model.specs.Versions.Worked.{WorkedAdded, WorkedCalls, WorkedNews, WorkedPages, WorkedVersions};

/// Values that were worked out by hand, which the definitions take. They are what news make of a trip, an added trip, the
/// news in force, the version that is named, and pages.
pub fn worked_versions()
    ensures calls { WorkedCalls }
    ensures added { WorkedAdded }
    ensures news { (date : Date) → WorkedNews date }
    ensures versions { WorkedVersions }
    ensures pages { (key : Key) → WorkedPages key }
{}
