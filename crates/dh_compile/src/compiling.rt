//! The compiler's public call.

ghost use Rattle.std.specs.Prelude.{IfOk};
ghost use Rattle.dh_tree.specs.PlainTrees.{Program};
ghost use Rattle.dh_tree.specs.Seen.{program_seen};
ghost use Rattle.dh_net.specs.Valid.{IsValid};
ghost use Rattle.dh_lengths.specs.SharedReads.{TellsShares};
ghost use Rattle.dh_plan.specs.DoneProgram.{IsPlanOf};
ghost use Rattle.dh_plan.specs.Passes.{IsToCompile, uses_seen};
ghost use Rattle.dh_plan.specs.SeenPlans.{plan_seen};
ghost use Rattle.dh_backend.specs.NetParts.{ArePartsOf, times_seen};
ghost use Rattle.dh_backend.specs.SuitedPlans.{IsCompiled};
ghost use Rattle.dh_build.specs.BuiltPlans.{CanBuild, IsBuiltNet};
ghost use Rattle.dh_compile.specs.Compiled.{Compiles, IsNetOfProgram};
ghost use Rattle.dh_compile.specs.JoinedSwept.{IsJoinedSwept, IsPlanNet};

use dh_backend::{NetParts, parts_of};
use dh_base::{Limit, NoMemory};
use dh_build::build;
use dh_inline::{Flat, inline};
use dh_join::join_drivers;
use dh_net::Net;
use dh_plan::Plan;
use dh_ports::Accepted;
use dh_size::{PlanSize, plan_size};
use dh_swept::sweep;
use dh_tree::Typed;
use dh_unroll::unroll;
use std::alloc::Global;

/// Why there is no net of an accepted program.
#[derive(Clone, Copy, Debug, PartialEq, Eq)]
pub enum CompileFault {
    /// Its plan is above the limit.
    TooLarge {
        /// The size of the plan, at most 1,000,000,000.
        size: u64,
    },
    /// Want of memory: an allocation was refused.
    NoMemory,
}

/// The net of what it is made of, with a driver for each operation that has a port. The parts are let go.
fn whole_net(alloc: Global, parts: NetParts) -> Result<Net, NoMemory>
    requires { CanBuild (plan_seen parts.plan) parts.passed.graph
        (times_seen parts.passed.times) (uses_seen parts.passed.binding) }
    ensures { IfOk result (λ net. IsBuiltNet (plan_seen parts.plan)
        parts.passed.times.lengths net) }
{
    let passed = &parts.passed;
    let (clocks, lengths) = (&passed.times.clocks, &passed.times.lengths);
    build(
        alloc,
        &parts.plan,
        &passed.graph,
        &passed.binding,
        clocks.as_slice(),
        lengths.as_slice(),
    )
}

/// The net with few drivers for each port, and without the cells and registers that are not needed then.
fn joined_net(alloc: Global, net: Net) -> Result<Net, NoMemory>
    requires { IsValid net }
    ensures { IfOk result (IsJoinedSwept net) }
{
    match join_drivers(alloc, net) {
        Ok(joined) => sweep(alloc, joined),
        Err(fault) => Err(fault),
    }
}

/// The net of what it is made of, with few drivers for each port.
fn net_of_parts(alloc: Global, parts: NetParts) -> Result<Net, NoMemory>
    requires { CanBuild (plan_seen parts.plan) parts.passed.graph
        (times_seen parts.passed.times) (uses_seen parts.passed.binding) }
    ensures { IfOk result (λ net. IsPlanNet (plan_seen parts.plan)
        parts.passed.times.lengths net) }
{
    match whole_net(alloc, parts) {
        Ok(net) => joined_net(alloc, net),
        Err(fault) => Err(fault),
    }
}

/// The net of a program's plan.
fn net_of_plan(alloc: Global, plan: Plan) -> Result<Net, NoMemory>
    requires { IsCompiled (plan_seen plan) }
    ensures { (p : Program) → IsToCompile p → IsPlanOf p (plan_seen plan)
        → IfOk result (IsNetOfProgram p) }
{
    let parts = parts_of(alloc, plan)?;
    net_of_parts(alloc, parts)
}

/// The net of a flat program that is to be compiled.
fn net_of_flat(alloc: Global, flat: &Flat, shared: &[Option<usize>]) -> Result<Net, NoMemory>
    requires asked { IsToCompile (program_seen flat.now.program.now) }
    requires shared { TellsShares (program_seen flat.now.program.now) shared.now }
    ensures { IfOk result (IsNetOfProgram (program_seen flat.now.program.now)) }
{
    let plan = unroll(alloc, flat, shared)?;
    net_of_plan(alloc, plan)
}

/// The net of a program that is to be compiled, of whose accesses it is known which earlier read each shares.
fn net_of(alloc: Global, program: &Typed, shared: &[Option<usize>]) -> Result<Net, NoMemory>
    requires asked { IsToCompile (program_seen program.now) }
    requires shared { TellsShares (program_seen program.now) shared.now }
    ensures { IfOk result (IsNetOfProgram (program_seen program.now)) }
{
    let flat = inline(program);
    net_of_flat(alloc, &flat, shared)
}

/// Compiles an accepted program. The net is valid, its table is the program's, and from all fitting memories it plays
/// the checked run of the program: no clock drives a bank beyond its ports, at its nth tick it holds the memories
/// after n steps, and it shows done, or a fault with its place, exactly once the run has ended so. A driver that
/// writes is active only in the last clock of a step without fault. No cell shifts by a constant of at least its width,
/// and each cell and each register is needed.
///
/// # Errors
///
/// `TooLarge` exactly where the size of the program's plan is above 200,000; `NoMemory` where an allocation was
/// refused.
pub fn compile(alloc: Global, accepted: &Accepted) -> Result<Net, CompileFault>
    ensures { Compiles (program_seen accepted.now) result }
{
    let program = accepted.typed();
    let Ok(PlanSize { size, shares }) = plan_size(alloc, program) else {
        return Err(CompileFault::NoMemory);
    };
    if size > Limit::Plan.greatest() {
        return Err(CompileFault::TooLarge { size });
    }
    match net_of(alloc, program, shares.as_slice()) {
        Ok(net) => Ok(net),
        Err(NoMemory) => Err(CompileFault::NoMemory),
    }
}
