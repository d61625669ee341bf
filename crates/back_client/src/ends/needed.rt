ghost use Rattle.back_client.specs.Ends.NeededBack.{OneListOfNeededBack, PagesBackMayBeAll, TakesTheNeededBack};

/// The pages that a question for the latest departure needs are one list.
pub fn one_list_of_needed_back()
    ensures { OneListOfNeededBack }
{}

/// A client took pages back from the one for the moment of arrival to one that is named at the bound or before it. Then it knows the
/// latest departure of all connections.
pub fn pages_back_may_be_all()
    ensures { PagesBackMayBeAll }
{}

/// A client that takes page after page back until what it took shows that it is over takes exactly the needed pages.
pub fn needed_back_are_taken()
    ensures { TakesTheNeededBack }
{}
