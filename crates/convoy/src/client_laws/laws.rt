ghost use Rattle.convoy.specs.ClientLaws.Laws.{AnswersStay, FitsStays, LinksLeadAlong, NeededStays, OneArrivalAt, OneListOfNeededAt, OneListOfWants, OnePublished, OwnPagesStay, PagesAreAmong, PublishedIsLawful, PublishedStays, WantsStay};
ghost use Rattle.convoy.specs.ClientLaws.Links.{NextLinksEnd, NextLinksHaveTheRest, PagesBeginAtTheirNames, PreviousLinksEnd, PreviousLinksHaveTheFront};

/// One thing is published of a version: runs that go forward, their connections, and pages of these. The pages of a side are
/// among them. Their links lead from each one to the next and to the one before it (Linked Connections 1.0; Hydra, `next` and `previous`).
pub fn one_published()
    ensures published { OnePublished }
    ensures lawful { PublishedIsLawful }
    ensures pages { PagesAreAmong }
    ensures links { LinksLeadAlong }
{}

/// The answers to a question at a version have one arrival, the needed pages are one list, and so are the wants of a client.
pub fn one_answer()
    ensures arrival { OneArrivalAt }
    ensures needed { OneListOfNeededAt }
    ensures wants { OneListOfWants }
{}

/// Messages that are admitted later change nothing of a version. What is published of it, its answers, the needed pages and the
/// wants stay. A client that agrees with a side agrees with each later one.
pub fn versions_stay()
    ensures published { PublishedStays }
    ensures answers { AnswersStay }
    ensures needed { NeededStays }
    ensures wants { WantsStay }
    ensures pages { OwnPagesStay }
    ensures clients { FitsStays }
{}

/// Along the links of published pages, by their names, are all connections from a page on, and all before it, and the links end.
pub fn links_lead_on()
    ensures next { NextLinksHaveTheRest }
    ensures previous { PreviousLinksHaveTheFront }
    ensures next_ends { NextLinksEnd }
    ensures previous_ends { PreviousLinksEnd }
    ensures begin { PagesBeginAtTheirNames }
{}
