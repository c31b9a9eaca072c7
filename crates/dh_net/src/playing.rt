//! The law of nets that play a run, of whatever language: a function without parameters whose clause
//! is the law; calling it does nothing.
//! That the local facts of a simulation make a net play a run is the lemma `plays_by` of
//! `proofs/Simulation.antt`: it speaks of any two relations, which no clause may.

ghost use Rattle.dh_net.specs.Plays.{Run};
ghost use Rattle.dh_net.specs.Reports.{PlayingTells};
ghost use Rattle.dh_net.specs.declared.nets.Net.{Net};

/// What a net that plays a run comes to under a limit of clocks is what the run comes to: the same
/// outcome, after as many steps as the net showed ticks, at the same clock, with the same memories.
pub fn playing_tells_the_report()
    ensures { (net : Net) (r : Run) → PlayingTells net r }
{}
