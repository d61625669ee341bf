ghost use Rattle.page_relay.specs.Near.{FoundIsItsOwn, NoOtherStatusIsKept, NoTimeGateFits, NoTimeGateIsKept, NoneIsGivenUnasked, NoneIsHidden, NoneIsKeptUnasked, NotHandedOnAgain, NotInOtherOrder, NotOneMore, NothingIsLost, OthersAreNotFound};

/// Near values are refused: the reply of a time gate among what is kept, one with another status, and one that came to another query.
pub fn near_memories()
    ensures time_gate { NoTimeGateFits }
    ensures gate_request { NoTimeGateIsKept }
    ensures other_status { NoOtherStatusIsKept }
    ensures own { FoundIsItsOwn }
    ensures others { OthersAreNotFound }
{}

/// Near relays are refused: one with a reply that did not come by the link below, and one whose link has lost an exchange. One that counts one
/// exchange more is refused too, and one that hands on what it keeps. So are one that hides how an exchange ended, and one whose link below
/// has recorded two exchanges in the other order.
pub fn near_relays()
    ensures kept { NoneIsKeptUnasked }
    ensures given { NoneIsGivenUnasked }
    ensures lost { NothingIsLost }
    ensures more { NotOneMore }
    ensures again { NotHandedOnAgain }
    ensures hidden { NoneIsHidden }
    ensures order { NotInOtherOrder }
{}
