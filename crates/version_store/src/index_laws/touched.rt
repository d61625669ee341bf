ghost use Rattle.version_store.specs.IndexLaws.Touched.{LiveAfterLive, OthersStay, SameNewsSameRun, TouchFewKeys, UpdateHolds};

/// The live runs by a new list of news. Those that neither the old nor the new news touch are as they were. The touched ones are
/// those by the new list.
pub fn others_stay()
    ensures stay { OthersStay }
    ensures live { LiveAfterLive }
{}

/// A key whose last news are alike in both lists has the same run by both.
pub fn same_news_same_run()
    ensures { SameNewsSameRun }
{}

/// News touch at most two keys: that of their trip on their date without a start, and that with their start.
pub fn touch_few_keys()
    ensures { TouchFewKeys }
{}

/// An update of the runs by the old news gives the runs by the new news, as they are worked out anew. In it the keys without a run
/// end, and the runs that are others by the new news begin.
pub fn update_holds()
    ensures { UpdateHolds }
{}
