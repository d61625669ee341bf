ghost use Rattle.publisher.specs.Laws.{SomeNextSide, SomeReply, SomeTimetable};

/// Each version of a valid side has some timetable, so that what is said of its timetable is said of something.
pub fn some_timetable()
    ensures { SomeTimetable }
{}

/// Each whole request has a reply of a valid side whose documents are sound, and leaves a side. What is said of these is said of
/// something.
pub fn some_reply()
    ensures reply { SomeReply }
    ensures next { SomeNextSide }
{}
