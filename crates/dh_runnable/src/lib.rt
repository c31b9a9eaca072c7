//! Laws on programs that the passes accept: what the interpreter asks of a program follows from what they tell. Terms of
//! the core suit their operators, variables are named inside the loops round their declarations, and the paths inside
//! loops can be numbered.
#![tactic(auto)]

ghost use Rattle.dh_tree.specs.PlainTrees.{Program};
ghost use Rattle.dh_tree.specs.Ready.{IsReady};
ghost use Rattle.dh_sem.specs.Runnable.{IsRunnable};
ghost use Rattle.dh_runnable.specs.ReadyRuns.{TellsEnough};

/// A program can be run of which the passes before the check of ports tell that it breaks no rule and exceeds no limit.
/// Of the limits that on copies is needed alone, and of the rules those on names, kinds, shapes and bounds.
pub fn ready_programs_are_runnable()
    ensures enough { (p : Program) → TellsEnough p → IsRunnable p }
    ensures ready { (p : Program) → IsReady p → IsRunnable p }
{}
