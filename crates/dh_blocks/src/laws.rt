//! Laws on blocks, stated on functions that do nothing.

ghost use Rattle.std.specs.Prelude.{ℕ, Bool, List};
ghost use Rattle.dh_expressions.specs.declared.paths.Level.{Level};
ghost use Rattle.dh_expressions.specs.declared.scenes.Around.{Around};
ghost use Rattle.dh_expressions.specs.declared.scenes.Scene.{Scene};
ghost use Rattle.dh_meaning.specs.Core.{Turning};
ghost use Rattle.dh_meaning.specs.Effects.{Block};
ghost use Rattle.dh_meaning.specs.Phases.{Located};
ghost use Rattle.dh_tree.specs.PlainTrees.{Term};
ghost use Rattle.dh_plan.specs.Correspondence.{Round};
ghost use Rattle.dh_plan.specs.PlainPlans.{PlainPlan};
ghost use Rattle.dh_commands.specs.declared.buildings.Building.{Building};
ghost use Rattle.dh_blocks.specs.BlockLaws.{MadeBlocksDo, MadeBlocksLay};
ghost use Rattle.dh_blocks.specs.LeaderLaws.{LeadersComeFirst};
ghost use Rattle.dh_blocks.specs.PathsOfLevels.{AreSpread};
ghost use Rattle.dh_blocks.specs.ProgramLaws.{StraightsAreTraced, TestsAreTraced};
ghost use Rattle.dh_blocks.specs.TestMade.{MadeTestsDo};

/// The leader of a path is the first with its copies in the loops that count.
pub fn leaders_come_first()
    ensures { (levels : List Level) → AreSpread levels → (counts : ℕ → Bool)
        → LeadersComeFirst levels counts }
{}

/// A block that was made of sound commands does their phase, from any memories and whatever the
/// registers hold; and the accesses behind it are as the next block asks.
pub fn made_blocks_do()
    ensures does { (scene : Scene) (around : Around) (plan : PlainPlan) (count block : ℕ)
        (done folds : List Located) (rounds : List Round) (old new : Building)
        → MadeBlocksDo scene around plan count block done folds rounds old new }
    ensures lays { (scene : Scene) (around : Around) (plan : PlainPlan) (count block : ℕ)
        (done folds : List Located) (rounds : List Round) (old new : Building)
        → MadeBlocksLay scene around plan count block done folds rounds old new }
{}

/// A block that was made of a test does it and sets its flag; and the accesses behind it are as the
/// next block asks.
pub fn made_tests_do()
    ensures { (scene : Scene) (around : Around) (plan : PlainPlan) (count block flag first : ℕ)
        (t : Term) (values : List ℕ) (rounds : List Round) (old new : Building)
        → MadeTestsDo scene around plan count block flag first t values rounds old new }
{}

/// The blocks of a program stand along its trace.
pub fn programs_tell_blocks()
    ensures straight { (scene : Scene) (loops : List Turning) (block : Block)
        → StraightsAreTraced scene loops block }
    ensures tests { (scene : Scene) (loops : List Turning) (block : Block)
        → TestsAreTraced scene loops block }
{}
