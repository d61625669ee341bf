ghost use Rattle.wire_session.specs.Laws.{AtMostHundred, CutShortIsFront, EndsStay, NoneTooEarly, NoneTooLong, NoneTwice, OneOutput, OutputGrows};
ghost use Rattle.wire_session.specs.Stands.{StandsMeans};

/// What a session says to bytes is one. To more bytes it says that and perhaps more. Once it has ended, it says that and no more.
/// Where memory runs out, the replies before are the first ones of it.
pub fn one_output()
    ensures one { OneOutput }
    ensures grows { OutputGrows }
    ensures ends { EndsStay }
    ensures cut_short { CutShortIsFront }
{}

/// Near values are refused: a reply once more, a hundred and first one, and a reply to a request whose last bytes are missing. A reply to a whole
/// request that its body is too long (413) is, too, since its head is refused before.
pub fn near_outputs()
    ensures twice { NoneTwice }
    ensures most { AtMostHundred }
    ensures early { NoneTooEarly }
    ensures long { NoneTooLong }
{}

/// Whatever a session stands for, what was sent and what is pending are what a session says to all bytes that it was fed.
pub fn stands_means()
    ensures { StandsMeans }
{}
