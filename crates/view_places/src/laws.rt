// Laws of broadcasting.
ghost use Rattle.view_places.specs.Laws.{EachSpreads, IsOwnBroadcast, StaysOverItsShape};

/// Each shape spreads to a broadcast that it is part of; alone it is its own broadcast, and an array spread to its own
/// shape stays as it is.
pub fn broadcast_law()
    ensures each { EachSpreads }
    ensures alone { IsOwnBroadcast }
    ensures itself { StaysOverItsShape }
{}
