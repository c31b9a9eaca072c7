//! Laws on what is put down for the blocks of ready programs: its kinds suit, so that blocks are formed as a plan asks.
#![tactic(auto)]

ghost use Rattle.dh_typed_laid.specs.FormedBlocks.{EachForms, MadeCommandsSuit};
ghost use Rattle.dh_typed_laid.specs.SuitingBlocks.{TermsSuitBlocks};

/// Expressions that are sound and typed suit, at each path of a block whose sites tell where their accesses stand.
pub fn terms_suit_their_blocks()
    ensures { TermsSuitBlocks }
{}

/// Commands that are sound and typed suit a block of which they are all, and form what they add.
pub fn commands_suit_their_blocks()
    ensures suit { MadeCommandsSuit }
    ensures form { EachForms }
{}
