//! Laws of ways.

ghost use Rattle.std.specs.List.{AllByRecursion};
ghost use Rattle.std.specs.Prelude.{◌≡◌, ◌+◌, [], length, map};
ghost use Rattle.dh_tree.specs.PlainTrees.{Program};
ghost use Rattle.dh_tree.specs.ViewFactors.{factor_breaches_of};
ghost use Rattle.dh_tree.specs.Views.{viewed_in};
ghost use Rattle.dh_meaning.specs.Ways.{all_entities_of, ways_of};
ghost use Rattle.dh_ways.specs.CutStands.{LoopsRoundViewsAreFew};
ghost use Rattle.dh_ways.specs.HiddenVariables.{HiddenFollowNames, WaysAreWithin, hidden_variables};
ghost use Rattle.dh_ways.specs.Leading.{KeepsOffsets, KeptWaysLead, MemoriesHaveNoWay, viewed_of_led};

/// The ways of a program are those of its views.
#[tactic(auto, using(crate::proofs::WaysLead::ways_are_views))]
pub fn ways_are_of_the_views()
    ensures { (p : Program) → map viewed_of_led (ways_of p) ≡ viewed_in p }
{}

/// Where memories, factors and brackets keep the rules, the views on each way follow one another, the last
/// one behind a memory.
pub fn kept_ways_lead()
    ensures { KeptWaysLead }
{}

/// Where factors and brackets keep the rules, each way keeps as many offsets as its views take.
#[tactic(auto, using(crate::proofs::WaysKept::ways_keep))]
pub fn ways_keep_their_offsets()
    ensures { (p : Program) → factor_breaches_of p ≡ []
        → AllByRecursion (λ l. KeepsOffsets l.way) (ways_of p) }
{}

/// Where no loop has too many copies inside it, and factors of loops keep the rules, the numbers of the loops round
/// each view have room.
pub fn loops_round_views_are_few()
    ensures { LoopsRoundViewsAreFew }
{}

/// What is a memory has no way.
pub fn memories_have_no_way()
    ensures { MemoriesHaveNoWay }
{}

/// The variables that keep offsets have numbers that follow one another, behind those of the program's names; and those
/// of each way are among them, none deeper than its deepest view that moves.
#[tactic(auto, using(crate::proofs::HiddenApart::are_counted))]
pub fn hidden_variables_are_apart()
    ensures numbered { HiddenFollowNames }
    ensures counted { (p : Program) → all_entities_of p
        ≡ length p.entities + length (hidden_variables p) }
    ensures within { WaysAreWithin }
{}
