ghost use Rattle.lc_world.specs.Sides.Laws.{LaterGoesOn, MementosStay, NextIsLater, NextIsValid, OneNextSide, OneReply, OneTimetable, TimetablesStay};
ghost use Rattle.lc_world.specs.Sides.Near.{AdmittedOnce, AtMostOneMore, HeadsHaveNoBody, MovedToTheMeant, NoneForgets, NoneIsEmpty, NoneIsLeftOut, NoneIsMadeUp, NoneLaterIsMeant, NoneOlderIsMeant, NoneTooEarly, NoneTwice, NotEmpty, NotFoundWhereNot, NothingIsLost, PagesAreFound, PagesAreOne, SentOfItsVersions, SentWhereThere};

/// A version has one timetable, and one whole request has one reply and leaves one side.
pub fn one_reply()
    ensures timetable { OneTimetable }
    ensures reply { OneReply }
    ensures next { OneNextSide }
{}

/// The side that a request leaves is a later one, and valid where the side was.
pub fn next_is_later()
    ensures later { NextIsLater }
    ensures valid { NextIsValid }
    ensures goes_on { LaterGoesOn }
{}

/// A memento never changes. A version keeps its timetable. Each page and each stops document that was sent once is the reply
/// to the same request ever after (RFC 7089, section 1.1).
pub fn mementos_stay()
    ensures timetables { TimetablesStay }
    ensures replies { MementosStay }
{}

/// Near values are refused: a timetable with a connection twice, out of order, left out or made up; another page. A side that lost its
/// messages or took one twice is refused, too. A version after the known moment is, or before the last one that is not.
pub fn near_values()
    ensures twice { NoneTwice }
    ensures early { NoneTooEarly }
    ensures left_out { NoneIsLeftOut }
    ensures made_up { NoneIsMadeUp }
    ensures empty { NotEmpty }
    ensures pages { PagesAreOne }
    ensures lost { NothingIsLost }
    ensures forgets { NoneForgets }
    ensures one_more { AtMostOneMore }
    ensures once { AdmittedOnce }
    ensures later { NoneLaterIsMeant }
    ensures older { NoneOlderIsMeant }
    ensures sent { SentOfItsVersions }
{}

/// Near replies are refused: a page where the version is not there, 404 where it is, another version at the time gate, no bytes. A
/// body for a HEAD is, too.
pub fn near_replies()
    ensures sent { SentWhereThere }
    ensures not_found { NotFoundWhereNot }
    ensures found { PagesAreFound }
    ensures meant { MovedToTheMeant }
    ensures empty { NoneIsEmpty }
    ensures heads { HeadsHaveNoBody }
{}
