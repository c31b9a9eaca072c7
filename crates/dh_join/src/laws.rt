//! Laws on joined nets, stated on functions that do nothing.

ghost use Rattle.dh_join.specs.JoinedNets.{JoinedNetsPlay};

/// A joined net plays each run that the given net plays.
pub fn joined_nets_play()
    ensures { JoinedNetsPlay }
{}
