ghost use Rattle.lc_io.specs.Laws.{OneExchange, OneNext, OneRead};
ghost use Rattle.lc_io.specs.Near.{NoneCutOff, NoneHeldBack, NoneSkipped, NoneTurnedAway, NoneUnread, NoneUnsent};

/// A read leaves one connection, one connection is the next, and what was exchanged is seen on the connection. It shows too whether a read
/// failed.
pub fn one_step()
    ensures read { OneRead }
    ensures next { OneNext }
    ensures exchange { OneExchange }
{}

/// Near values are refused: an end of the input while bytes are to come, or a client that is skipped or turned away. No connection is
/// served before its input or its talk has ended, or before all is sent. None is read further before all is sent.
pub fn near_values()
    ensures unread { NoneUnread }
    ensures skipped { NoneSkipped }
    ensures turned_away { NoneTurnedAway }
    ensures cut_off { NoneCutOff }
    ensures unsent { NoneUnsent }
    ensures held_back { NoneHeldBack }
{}
