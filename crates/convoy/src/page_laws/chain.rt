ghost use Rattle.convoy.specs.PageLaws.Chain.{AreTheList, BeginOnTime, CutsNameNeighbours, NamesRise, NeverEmpty, SecondsAreWhole, BackAreTheRest, FoundByName, IsGreatestByThen, IsWhereNextBegins, LateAreAlongNext, LinksPartPages, NextAreTheSuffix};

/// The pages of connections in departure order, one after the other, are these connections, however they are cut.
pub fn pages_in_a_row()
    ensures never_empty { NeverEmpty }
    ensures are_the_list { AreTheList }
    ensures begin_on_time { BeginOnTime }
    ensures names_rise { NamesRise }
    ensures seconds_are_whole { SecondsAreWhole }
    ensures cuts_name_neighbours { CutsNameNeighbours }
{}

/// The page for a moment. The pages after it are along the links to the next one, and those before it along the links to
/// the previous one.
pub fn page_of_a_moment()
    ensures is_greatest { IsGreatestByThen }
    ensures is_where_next_begins { IsWhereNextBegins }
    ensures links_part_pages { LinksPartPages }
    ensures next_are_the_suffix { NextAreTheSuffix }
    ensures back_are_the_rest { BackAreTheRest }
    ensures late_are_along_next { LateAreAlongNext }
    ensures found_by_name { FoundByName }
{}
