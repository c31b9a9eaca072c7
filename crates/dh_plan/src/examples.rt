//! What definitions of plans come to on small programs, stated on functions that do nothing: the plans of
//! `specs/ExamplePlans.antt`, whose runs, faults and lengths are those of the programs beside them.

ghost use Rattle.std.specs.Prelude.{◌≡◌, [], ◌∷◌};
ghost use Rattle.dh_base.specs.declared.outcomes.Outcome.TheVariants.{Going, Ended};
ghost use Rattle.dh_plan.specs.BoundPorts.{IsBinding};
ghost use Rattle.dh_plan.specs.DoneProgram.{IsPlanOf};
ghost use Rattle.dh_plan.specs.ExamplePasses.{storing_flow, storing_timing, storing_uses};
ghost use Rattle.dh_plan.specs.ExamplePlans.{zeros, two_cells, five_zeros, ones_and_twos, element_set, tested_contents, far_index, to_fold, outside_at, first_plan, faulting_plan, endless_plan, threads_plan, split_plan, physical_plan, choice_plan, late_fault_plan, fold_plan};
ghost use Rattle.dh_plan.specs.ExamplePrograms.{storing_plan};
ghost use Rattle.dh_plan.specs.ExampleSizes.{shared_reads, two_copies, no_turn};
ghost use Rattle.dh_plan.specs.ExampleTree.{storing_tree};
ghost use Rattle.dh_plan.specs.LegalSchedules.{block_clocks};
ghost use Rattle.dh_plan.specs.PlanRuns.{plan_state};
ghost use Rattle.dh_plan.specs.PlanSizes.{plan_size_of};
ghost use Rattle.dh_plan.specs.Ways.{FlowsAs};

/// A store, and behind it a store of what was read.
pub fn first_plan_runs()
    ensures going { (plan_state first_plan (two_cells 0 0) 1).outcome ≡ Going }
    ensures half { (plan_state first_plan (two_cells 0 0) 1).memories ≡ two_cells 7 0 }
    ensures ended { (plan_state first_plan (two_cells 0 0) 2).outcome ≡ Ended }
    ensures whole { (plan_state first_plan (two_cells 0 0) 5).memories ≡ two_cells 7 8 }
    ensures steps { (plan_state first_plan (two_cells 0 0) 5).steps ≡ 2 }
    ensures store { block_clocks first_plan 0 ≡ 1 }
    ensures read { block_clocks first_plan 1 ≡ 2 }
{}

/// A step with a fault makes no write.
pub fn faulting_plan_faults()
    ensures outcome { (plan_state faulting_plan five_zeros 2).outcome ≡ outside_at 5 12 }
    ensures memories { (plan_state faulting_plan five_zeros 9).memories ≡ five_zeros }
    ensures steps { (plan_state faulting_plan five_zeros 9).steps ≡ 1 }
{}

/// The steps of a `while` are its test, and those of its body.
pub fn endless_plan_goes_on()
    ensures outcome { (plan_state endless_plan (zeros (1 ∷ [])) 3).outcome ≡ Going }
    ensures memories { (plan_state endless_plan (zeros (1 ∷ [])) 3).memories ≡ (1 ∷ []) ∷ [] }
    ensures again { (plan_state endless_plan (zeros (1 ∷ [])) 6).memories ≡ (2 ∷ []) ∷ [] }
{}

/// Threads go side by side, and end together.
pub fn threads_plan_ends()
    ensures going { (plan_state threads_plan (zeros (3 ∷ 5 ∷ [])) 4).outcome ≡ Going }
    ensures ended { (plan_state threads_plan (zeros (3 ∷ 5 ∷ [])) 5).outcome ≡ Ended }
    ensures memories { (plan_state threads_plan (zeros (3 ∷ 5 ∷ [])) 5).memories ≡ ones_and_twos }
    ensures counters { (plan_state threads_plan (zeros (3 ∷ 5 ∷ [])) 5).registers ≡ 0 ∷ 0 ∷ [] }
{}

/// An element through a split view, and a row of a bank.
pub fn elements_are_reached()
    ensures split { (plan_state split_plan (zeros (12 ∷ [])) 1).memories ≡ element_set 12 7 9 }
    ensures row { (plan_state physical_plan (zeros (16 ∷ [])) 1).memories ≡ element_set 16 5 9 }
{}

/// An `if` with an arm of two steps: the test is a step of its own.
pub fn choice_plan_chooses()
    ensures chosen { (plan_state choice_plan (tested_contents 1) 9).memories ≡ (1 ∷ 2 ∷ []) ∷ (1 ∷ []) ∷ [] }
    ensures chosen_steps { (plan_state choice_plan (tested_contents 1) 9).steps ≡ 4 }
    ensures other { (plan_state choice_plan (tested_contents 0) 9).memories ≡ (9 ∷ 0 ∷ []) ∷ (0 ∷ []) ∷ [] }
    ensures other_steps { (plan_state choice_plan (tested_contents 0) 9).steps ≡ 3 }
{}

/// The first fault in order is reported, though another is known a clock earlier.
pub fn first_fault_is_reported()
    ensures outcome { (plan_state late_fault_plan far_index 2).outcome ≡ outside_at 4 9 }
    ensures clocks { block_clocks late_fault_plan 1 ≡ 3 }
{}

/// Copies fold in ascending order, and read side by side.
pub fn fold_plan_folds()
    ensures memories { (plan_state fold_plan (to_fold 0) 3).memories ≡ to_fold 90 }
    ensures ended { (plan_state fold_plan (to_fold 0) 3).outcome ≡ Ended }
    ensures clocks { block_clocks fold_plan 1 ≡ 2 }
{}

/// All that is stated of a program's plan is met by that of a loop of stores.
pub fn storing_plan_does_its_program()
    ensures { IsPlanOf storing_tree storing_plan }
{}

/// What the passes behind it state of its graph, schedule and binding is met, too.
pub fn storing_plan_passes()
    ensures flow { FlowsAs storing_flow storing_plan }
    ensures binding { IsBinding storing_plan storing_timing storing_uses }
{}

/// Sizes of plans: a read that shares an earlier one charges no bank, each copy counts, and so does a loop without
/// turns.
pub fn sizes_are_counted()
    ensures shared { plan_size_of shared_reads ≡ 6 }
    ensures copies { plan_size_of two_copies ≡ 12 }
    ensures no_turns { plan_size_of no_turn ≡ 4 }
{}
