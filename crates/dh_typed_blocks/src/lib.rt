//! Laws on the blocks of ready programs: what laws on blocks ask of their commands follows from what the passes tell.
#![tactic(auto)]

ghost use Rattle.std.specs.Prelude.{List};
ghost use Rattle.dh_expressions.specs.declared.scenes.Around.{Around};
ghost use Rattle.dh_expressions.specs.declared.scenes.Scene.{Scene};
ghost use Rattle.dh_plan.specs.Correspondence.{Round};
ghost use Rattle.dh_plan.specs.PlainPlans.{PlainPlan};
ghost use Rattle.dh_tree.specs.PlainTrees.{Program};
ghost use Rattle.dh_tree.specs.Ready.{IsReady};
ghost use Rattle.dh_typed_blocks.specs.SimpleBlocks.{BlocksAreSimple};
ghost use Rattle.dh_typed_blocks.specs.SoundBlocks.{ReadyBlocksAreSound};

/// Each block of a ready program is that of a test, or that of straight commands without reducers, and behind them
/// reducers that join copies.
pub fn blocks_are_simple()
    ensures { (p : Program) → IsReady p → BlocksAreSimple p }
{}

/// The commands and tests of the blocks of a ready program are sound, where scene and plan are of it.
pub fn ready_blocks_are_sound()
    ensures { (scene : Scene) (around : Around) (plan : PlainPlan) (rounds : List Round)
        → ReadyBlocksAreSound scene around plan rounds }
{}
