//! Laws on the phases of a program, stated on functions that do nothing.

ghost use Rattle.dh_phased.specs.DonePhases.{PhasesAreDone};
ghost use Rattle.dh_phased.specs.ProgramLoops.{LoopsAreOwn};
ghost use Rattle.dh_phased.specs.ToldScenes.{ReadyScenesAreTold};
ghost use Rattle.dh_phased.specs.TopPaths.{RoundsAreTop};

/// The loops of a program whose names have their entities count with iterators of their own, which have registers.
pub fn loops_are_own()
    ensures { LoopsAreOwn }
{}

/// The paths of a block are all those inside the loops round it.
pub fn rounds_are_top()
    ensures { RoundsAreTop }
{}

/// A ready program tells of its scene what its making asks: its stores are into accesses.
pub fn ready_scenes_are_told()
    ensures { ReadyScenesAreTold }
{}

/// The nodes that were made of a program do its phases, where the commands and tests of their blocks are sound.
pub fn phases_are_done()
    ensures { PhasesAreDone }
{}
