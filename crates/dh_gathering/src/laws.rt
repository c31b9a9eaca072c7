//! Laws on what is made of a program, stated on functions that do nothing.

ghost use Rattle.dh_gathering.specs.MadeLaws.{BlocksAreWhole, CountersAreApart, CountersAreOwn, LoopsHaveCounters, RegistersFollow};

/// A block that is cut out of the list of all operations is what was put down for it.
pub fn made_blocks_are_whole()
    ensures { BlocksAreWhole }
{}

/// The counters of loops are apart from the registers of variables, and from one another.
pub fn counters_are_apart()
    ensures apart { CountersAreApart }
    ensures own { CountersAreOwn }
{}

/// Variables have their registers one behind the other, and loops their counters among them.
pub fn registers_follow()
    ensures follow { RegistersFollow }
    ensures counters { LoopsHaveCounters }
{}
