ghost use Rattle.std.specs.Prelude.{◌≡◌, codes};
ghost use Rattle.lc_time.specs.Iso.{SaysMoment};
ghost use Rattle.fragmenter.specs.declared.by_span.BySpan.{BySpan};
ghost use Rattle.fragmenter.specs.declared.cutting.Cutting.TheVariants as ways;
ghost use Rattle.cli_words.specs.Laws.{Address80, AddressesAreBases, ArriveGrammar, AskGrammar, CheckGrammar, DashWordsAreOptions, DrillGrammar, FewestGrammar, LinesHaveGrammar, OneCommand, PlanGrammar, RelayGrammar, ReplayGrammar, ServeGrammar};
ghost use Rattle.cli_words.specs.Publishing.{SaysBase, SaysCutting};

/// Arguments say one command at most.
pub fn one_command()
    ensures { OneCommand }
{}

/// The arguments of each command are those of a grammar. `clap` takes exactly the arguments that the grammar reads, and finds in them
/// the values that the grammar gives. Before the first `--` it takes no argument that begins with a dash and is no option.
pub fn words_are_lines()
    ensures lines { LinesHaveGrammar }
    ensures dashes { DashWordsAreOptions }
    ensures check { CheckGrammar }
    ensures ask { AskGrammar }
    ensures replay { ReplayGrammar }
    ensures serve { ServeGrammar }
    ensures plan { PlanGrammar }
    ensures drill { DrillGrammar }
    ensures arrive { ArriveGrammar }
    ensures fewest { FewestGrammar }
    ensures relay { RelayGrammar }
{}

/// What the texts say that are taken for the options of publishing where these are not there.
pub fn default_publishing()
    ensures base { SaysBase (codes "http://lc.example/")
        (record { text = codes "http://lc.example/"; authority = codes "lc.example"; path = codes "/" }) }
    ensures moment { SaysMoment (codes "1970-01-01T00:00:00Z") 0 }
    ensures cuts { (way : BySpan) → way.seconds ≡ 1800 → SaysCutting (codes "span:1800") (ways.Span way) }
{}

/// The base of a server where the arguments say none: the address of its port.
pub fn default_address()
    ensures bases { AddressesAreBases }
    ensures at_80 { Address80 }
{}
