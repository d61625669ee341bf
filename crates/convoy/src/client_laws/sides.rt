ghost use Rattle.convoy.specs.ClientLaws.Read.{GateIsRead, PageIsRead, StopsAreRead};
ghost use Rattle.convoy.specs.ClientLaws.Stated.{GateIsStated, PageIsStated, StopsAreStated};

/// The time gate's reply says the page for the moment at which the question leaves, at the version of its known moment.
pub fn gate_is_stated()
    ensures { GateIsStated }
{}

/// The reply for the stops document says it.
pub fn stops_are_stated()
    ensures { StopsAreStated }
{}

/// The reply for a page that is asked for by its name says it: it passes each test of the client.
pub fn pages_are_stated()
    ensures { PageIsStated }
{}

/// Whatever a client reads of a reply of a side is what the side has: it reads no fault and nothing else.
pub fn replies_are_read()
    ensures gate { GateIsRead }
    ensures stops { StopsAreRead }
    ensures page { PageIsRead }
{}
