//! What stays as it is while a plan is made, and what stands round a command.

ghost use Rattle.std.specs.Prelude.{◌≡◌};
ghost use Rattle.dh_expressions.specs.Shown.{guard_of};

use crate::paths::Level;
use dh_base::Items;
use dh_code::VariableSlots;
use dh_events::Scope;
use dh_tree::Typed;
use dh_viewing::BankSet;
use dh_ways::WayTable;
use std::alloc::Global;

/// What accesses through a view take of it.
#[derive(Drop)]
pub struct Through {
    /// The number of its parent among the views of the plan; no number of interest where that is a
    /// memory.
    pub behind: u32,
    /// By each bank of the view the banks of the memory that may be reached from there.
    pub banks: Items<BankSet>,
}

/// What is known of a program.
#[derive(Clone, Copy)]
pub struct Scene<'a> {
    /// Where lists are made.
    pub alloc: Global,
    /// The program.
    pub program: &'a Typed,
    /// The registers of its variables, by their entities; of an iterator the first is its loop's
    /// counter.
    pub held: &'a [VariableSlots],
    /// Where each variable is declared, by its entity.
    pub scopes: &'a [Option<Scope>],
    /// Of each access the earlier read that it shares, if it shares one.
    pub shares: &'a [Option<u32>],
    /// The ways of its views.
    pub ways: &'a WayTable,
    /// By the place of each of its views what accesses take of it. That place is the view's number
    /// in the plan.
    pub through: &'a [Through],
}

/// What stands round a command: the loops with their paths, and at each path the guard of the arms.
#[derive(Clone, Copy)]
pub struct Around<'b> {
    /// The unrolled loops, from the outside.
    pub levels: &'b [Level],
    /// By the number of a path the value on which it depends whether it is done there; None where
    /// it always is.
    pub guards: &'b [Option<u64>],
}

/// One path, at which something is done.
#[derive(Clone, Copy)]
pub struct Lane<'b> {
    /// What stands round it.
    pub around: Around<'b>,
    /// The number of the path.
    pub number: u64,
}

/// The guard at a path.
pub fn guard_at(guards: &[Option<u64>], number: u64) -> Option<u64>
    ensures { result ≡ guard_of guards.now number }
{
    match guards.get(number as usize) {
        Some(guard) => *guard,
        None => None,
    }
}
