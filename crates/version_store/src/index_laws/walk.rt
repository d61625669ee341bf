ghost use Rattle.version_store.specs.IndexLaws.Walk.{WalkedAreConnections};

/// The connections that depart at the spots of runs that hold are those of these runs, in some order.
pub fn walked_are_connections()
    ensures { WalkedAreConnections }
{}
