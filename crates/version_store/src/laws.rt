ghost use Rattle.std.specs.Prelude.{ℕ, List};
ghost use Rattle.lc_model.specs.Versions.History.{Entry};
ghost use Rattle.version_store.specs.Laws.{CutsDoNotMatter, OneListOfRows, OneOutcome, SomeListOfRows};
ghost use Rattle.version_store.specs.Near.{DeletedIsGone, EachIsInTheSpan, FullForgets, NoneForMemory, NoneMore, NoneOlderIsTaken, OneListBetween, RefusedAgain, SaysWhatIs, SomeOutcome, UndatedNameTheirDay};
ghost use Rattle.version_store.specs.Store.{Stored};
ghost use Rattle.version_store.specs.Worked.{WorkedFurther, WorkedRefusals, WorkedRows, WorkedRuns};

/// A version has one list of connections, and so one list of departures.
pub fn one_list_of_rows()
    ensures { OneListOfRows }
{}

/// A version has some list of connections, and what `rows` and `departures` give is there.
pub fn some_list_of_rows()
    ensures { SomeListOfRows }
{}

/// The news, the versions and the bytes of a history are those of the same history without cuts.
pub fn cuts_do_not_matter()
    ensures { (history : List Entry) → CutsDoNotMatter history }
{}

/// All bytes are taken as a message or refused for a cause; what is taken is not refused, and a refusal has one cause.
pub fn one_outcome()
    ensures one { OneOutcome }
    ensures some { SomeOutcome }
{}

/// Near values are refused: a message taken twice or too old, or refused as if memory ran out; rows more or outside of the span. News of
/// what was deleted, or of another day, are refused, too.
pub fn near_values()
    ensures older { NoneOlderIsTaken }
    ensures again { RefusedAgain }
    ensures memory { NoneForMemory }
    ensures says { (store : Stored) (bytes : List ℕ) → SaysWhatIs store bytes }
    ensures rows { OneListBetween }
    ensures more { NoneMore }
    ensures span { EachIsInTheSpan }
    ensures deleted { DeletedIsGone }
    ensures full { FullForgets }
    ensures undated { UndatedNameTheirDay }
{}

/// A small store that was worked out by hand: its live runs, its rows and an added run, and near values that they are not.
pub fn worked_store()
    ensures runs { WorkedRuns }
    ensures rows { WorkedRows }
    ensures further { WorkedFurther }
    ensures refusals { WorkedRefusals }
{}
