//! Laws on plans, stated on functions that do nothing.

ghost use Rattle.std.specs.Prelude.{List};
ghost use Rattle.dh_tree.specs.PlainTrees.{Program};
ghost use Rattle.dh_meaning.specs.Core.{CoreProgram};
ghost use Rattle.dh_plan.specs.declared.operations.Operation.{Operation};
ghost use Rattle.dh_plan.specs.Blocks.{BlockEvent};
ghost use Rattle.dh_plan.specs.AlikeRuns.{PlansRunAlike};
ghost use Rattle.dh_plan.specs.BlockLaws.{BlocksHaveOneSolution, MemoriesLookBack, BlocksDoByValues, AppendsKeep, EndsInOrder, PutsInOrder, SetsInOrder};
ghost use Rattle.dh_plan.specs.Correspondence.{Slots};
ghost use Rattle.dh_plan.specs.DoneProgram.{PhasesMakeRuns};
ghost use Rattle.dh_plan.specs.PassesCompose.{PassesCompose};
ghost use Rattle.dh_plan.specs.PlainPlans.{PlainPlan};
ghost use Rattle.dh_plan.specs.PlayedPlans.{PlansPlayPrograms};
ghost use Rattle.dh_plan.specs.RegisterRoles.{PhasesGiveRoles};
ghost use Rattle.dh_plan.specs.ScheduleLaws.{LeastIsLegal, HasLeastLengths};
ghost use Rattle.dh_plan.specs.SoundRuns.{BlockValuesFit, PlanValuesFit, BlocksStepAlone, RunsMakeSteps};
ghost use Rattle.dh_plan.specs.WaysPassed.{WaysArePassed};

/// Where each operation of a block takes earlier values, its values are the one solution of its equations, whatever
/// reads show by values before them; in a plan they show what is in memories.
pub fn blocks_have_one_solution()
    ensures solution { BlocksHaveOneSolution }
    ensures memories { MemoriesLookBack }
{}

/// What a block does is a function of the values that its operations take.
pub fn blocks_do_by_values()
    ensures { BlocksDoByValues }
{}

/// Blocks are put together piece by piece.
pub fn pieces_come_in_order()
    ensures appends { (os more : List Operation) → AppendsKeep os more }
    ensures ends { (es more : List BlockEvent) → EndsInOrder es more }
    ensures puts { PutsInOrder }
    ensures sets { SetsInOrder }
{}

/// A plan that does the phases of a program one for one runs as the program, from whatever memories.
pub fn phases_make_runs()
    ensures { (c : CoreProgram) (plan : PlainPlan) (slots : Slots) → PhasesMakeRuns c plan slots }
{}

/// Each register that a block of such a plan sees or sets is that of a variable at a path, or of an offset that a view keeps
/// there, or counts the turns of a loop, or tells a test.
pub fn registers_have_roles()
    ensures { PhasesGiveRoles }
{}

/// Each value of a well-formed block is of the kind of its operation and fits it, where registers fit, and what
/// reads show; in a plan where memories fit.
pub fn block_values_fit()
    ensures values { BlockValuesFit }
    ensures plan { PlanValuesFit }
{}

/// From memories that fit, a well-formed plan keeps the kinds of its registers and memories, and each step of its run
/// is one of its steps, with the loops round it in turns of their own. Each block of such a step is one by itself.
pub fn runs_make_steps()
    ensures runs { RunsMakeSteps }
    ensures alone { BlocksStepAlone }
{}

/// Two plans of the same nodes, registers and faults run as one, where in each step of the first their blocks do the
/// same.
pub fn plans_run_alike()
    ensures { PlansRunAlike }
{}

/// The schedule that puts each operation where all is there that it takes is legal without limits; and the least
/// schedule gives each block the length of that one.
pub fn least_clocks_are_legal()
    ensures legal { LeastIsLegal }
    ensures lengths { HasLeastLengths }
{}

/// A net that plays a plan plays the program whose phases the plan does one for one, where the lengths of its blocks
/// are those of the phases.
pub fn plans_play_programs()
    ensures { (p : Program) → PlansPlayPrograms p }
{}

/// The contracts of the passes suffice for that of the compiler, where no run of the program is stuck.
pub fn passes_compose()
    ensures { (p : Program) → PassesCompose p }
{}

/// A plan's way through views is that of the meaning, where its passages are of the steps.
#[tactic(auto, using(crate::proofs::ViewsPassed::passed))]
pub fn ways_are_passed()
    ensures { WaysArePassed }
{}
