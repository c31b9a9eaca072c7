//! Laws on the clocks of blocks, stated on functions that do nothing.

ghost use Rattle.dh_paced.specs.BlockLengths.{StraightsAreLong, TestsAreLong};

/// A block of straight commands, and that of a test, is as long as its phase.
pub fn blocks_are_as_long_as_their_phases()
    ensures commands { StraightsAreLong }
    ensures tests { TestsAreLong }
{}
