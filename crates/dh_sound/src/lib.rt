//! Laws on runs of programs whose loops may be copied: where a run stands, which accesses a block of a phase makes
//! together, in which banks they lie, and that a program that keeps its ports is never stuck.
#![tactic(auto)]

ghost use Rattle.std.specs.Prelude.{◌≡◌, [], None};
ghost use Rattle.dh_tree.specs.Excesses.{first_excess};
ghost use Rattle.dh_tree.specs.Indices.{index_breaches_of};
ghost use Rattle.dh_tree.specs.ViewBreaches.{view_breaches_of};
ghost use Rattle.dh_tree.specs.PlainTrees.{Program, Action};
ghost use Rattle.dh_tree.specs.Ready.{IsReady};
ghost use Rattle.dh_meaning.specs.CoreOf.{core_of};
ghost use Rattle.dh_meets.specs.Ports.{KeepsPorts, KeepsPortRules};
ghost use Rattle.dh_sound.specs.Accepted.{IsAccepted};
ghost use Rattle.dh_sound.specs.BehindViews.{StandsBehindViews};
ghost use Rattle.dh_sound.specs.BlocksCovered.{BlocksCovered, BlocksKept};
ghost use Rattle.dh_sound.specs.IndexValues.{IsTypedProgram, AccessesReachBanks};
ghost use Rattle.dh_meets.specs.FewCopies.{HasFewCopies, NamesBanks};
ghost use Rattle.dh_sound.specs.KeptPorts.{HasSoundnessBasis, IsNeverStuck, StandsAlways};
ghost use Rattle.dh_sound.specs.IndexRules.{KeepsIndexRules};
ghost use Rattle.dh_sound.specs.Standing.{BlocksKeepPorts};
ghost use Rattle.dh_sound.specs.StepsCovered.{StepsCovered, StepsKept};
ghost use Rattle.dh_sound.specs.StraightKinds.{TellsStraight};
ghost use Rattle.dh_sound.specs.Unmet.{StandOpposite, TestsMeet};

/// A run of a ready program stands at a block of a phase, at the paths inside the loops round it, each of which is
/// in a turn that is one for all its copies; or it is at its end.
pub fn runs_stand_in_blocks()
    ensures { (p : Program) → IsReady p → StandsAlways p }
{}

/// How many phases a command has, as the rule on steps of copies counts them, tells whether it is straight.
pub fn steps_tell_straight()
    ensures { (a : Action) → TellsStraight a }
{}

/// Two accesses of one phase that never meet stand in opposite arms of an `if`, of which a path takes one.
pub fn unmet_accesses_stand_opposite()
    ensures straight { (p : Program) → StandOpposite p }
    ensures tests { (p : Program) → TestsMeet p }
{}

/// The element to which an access leads lies in a bank that the rules take it to reach at its path: so it is in
/// every turn of its loops.
pub fn accesses_lie_in_their_banks()
    ensures { (p : Program) → IsTypedProgram p → KeepsIndexRules p → AccessesReachBanks p }
{}

/// Of a program that keeps its ports, each block spends of each bank at most the ports of its memory; so no run of
/// it, from whatever memories, is ever stuck.
pub fn kept_ports_are_never_spent()
    ensures blocks { (p : Program) → HasSoundnessBasis p → BlocksKeepPorts (core_of p) }
    ensures stuck { (p : Program) → HasSoundnessBasis p → IsNeverStuck p }
{}

/// Of a program that breaks no rule but perhaps those on ports, what a block spends of a bank is no more than some set
/// of accesses charges of which any two may meet, from any memories and any values of the variables with which the
/// loops round the block are in turns. So it is no more than the ports, if the program keeps its ports.
pub fn blocks_spend_what_is_charged()
    ensures covered { (p : Program) → IsReady p → BlocksCovered p }
    ensures kept { (p : Program) → BlocksCovered p → KeepsPorts p → BlocksKept p }
{}

/// In each step that a run does of a program that breaks no rule but perhaps those on ports, from whatever memories, what
/// a bank spends is no more than some set of accesses charges of which any two may meet; and so no more than its ports,
/// if the program keeps them.
pub fn steps_spend_what_is_charged()
    ensures covered { (p : Program) → IsReady p → StepsCovered p }
    ensures kept { (p : Program) → IsReady p → KeepsPorts p → StepsKept p }
{}

/// Of a program that the passes accept, each block spends of each bank at most the ports of its memory, and no run, from
/// whatever memories, is ever stuck.
pub fn accepted_programs_are_never_stuck()
    ensures blocks { (p : Program) → IsAccepted p → BlocksKeepPorts (core_of p) }
    ensures stuck { (p : Program) → IsAccepted p → IsNeverStuck p }
{}

/// Of a program that breaks no rule on indices and exceeds no limit, each access stands in few copies, and one by a row of
/// a bank names a bank that its memory has.
pub fn ready_accesses_are_told()
    ensures copies { (p : Program) → index_breaches_of p ≡ [] → first_excess p ≡ None
        → HasFewCopies p }
    ensures banks { (p : Program) → index_breaches_of p ≡ [] → view_breaches_of p ≡ []
        → NamesBanks p }
{}

/// The names of a ready program stand behind the views that they lead through: the offsets on their ways are kept in
/// variables of views before them, a view keeps its own in the next ones, and none of these is assigned to.
#[tactic(auto, using(crate::proofs::ViewsBefore::stands_behind))]
pub fn names_stand_behind_their_views()
    ensures { (p : Program) → IsReady p → StandsBehindViews p }
{}
