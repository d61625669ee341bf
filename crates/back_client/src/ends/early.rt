ghost use Rattle.back_client.specs.Ends.Early.{EarlierMayGo, LaterMayGo};

/// Connections that depart before a moment at or before the latest departure change nothing of it, and where there is no chain those
/// that depart before the horizon give none. Nor do connections that depart after the moment of arrival.
pub fn earlier_may_go()
    ensures earlier { EarlierMayGo }
    ensures later { LaterMayGo }
{}
