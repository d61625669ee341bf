ghost use Rattle.convoy.specs.ClientLaws.Steps.{BeginsInAgreement, GateKeepsIt, LinkFaultKeepsIt, PageIsOwn, PageKeepsIt, SpentKeepsIt, StopsKeepIt, EndsWithAnAnswer, EndsWithItsWants, FaultsCutShort, NoReplyFailsATest, RefusalsAreDeserved, TwoAndThePages, WantsTheNext};

/// A client begins in agreement with every side. Each step leaves it in agreement with the side that answered, from the one that
/// it agreed with or a later one. At the time gate it gets the version that its question means there, and keeps it.
pub fn steps_keep_agreement()
    ensures begins { BeginsInAgreement }
    ensures gate { GateKeepsIt }
    ensures stops { StopsKeepIt }
    ensures own { PageIsOwn }
    ensures page { PageKeepsIt }
    ensures spent { SpentKeepsIt }
    ensures link_fault { LinkFaultKeepsIt }
{}

/// A client that agrees with a side wants the next one of its wants. Where it ended by no fault it received all of them and no
/// more. What it found is a best journey by the timetable of its version. Where it found none there is none. A refusal was
/// deserved. Where the link failed it had asked for a front of its wants. No reply failed a test.
pub fn clients_end_right()
    ensures next { WantsTheNext }
    ensures wants { EndsWithItsWants }
    ensures exchanges { TwoAndThePages }
    ensures answer { EndsWithAnAnswer }
    ensures refusal { RefusalsAreDeserved }
    ensures fault { FaultsCutShort }
    ensures no_peer_fault { NoReplyFailsATest }
{}
