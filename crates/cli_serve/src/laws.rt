ghost use Rattle.cli_serve.specs.Laws.{NoneForgotten, NoneHeldBack, NoneTwice, NoneUnread, NoneUnsent, OneServing, OneVisit, OneVisiting};
ghost use Rattle.cli_serve.specs.SameBytes.{NotOneMore, NotOneTaker, NotOtherBase, OneOverBytes, OneSession};

use wire_session::one_output;

/// Where the door records, the visits of a serving are one, if memory ran out on none of them, however it ended. So is the line at the end of
/// one that is Ok. What is sent on a visit without a fault, or on one whose read failed, and the side that it leaves, are one too.
pub fn one_serving()
    ensures visits { OneVisiting }
    ensures serving { OneServing }
    ensures visit { OneVisit }
{
    one_output();
}

/// Near values are refused. Such a visit is not answered from the side that the one before left, or is hung up before all was sent
/// or read. Or a reply is sent twice, or held back while more is read.
pub fn near_servings()
    ensures forgotten { NoneForgotten }
    ensures unsent { NoneUnsent }
    ensures held_back { NoneHeldBack }
    ensures unread { NoneUnread }
    ensures twice { NoneTwice }
{
    one_output();
}

/// From sides that are one, but for how their zone is written down, the same bytes are answered with the same replies. Servings over doors
/// where the same bytes waited send the same on each connection and write one text, if no read or write failed.
pub fn one_over_bytes()
    ensures session { OneSession }
    ensures bytes { OneOverBytes }
{
    one_output();
}

/// Near sides are other ones: with a message more, with another base version, or with messages taken where none are.
pub fn near_sides()
    ensures more { NotOneMore }
    ensures taker { NotOneTaker }
    ensures base { NotOtherBase }
{}
