//! The pass as a whole.

ghost use Rattle.std.specs.Prelude.{◌≡◌, IfOk, map};
ghost use Rattle.dh_tree.specs.Seen.{program_seen};
ghost use Rattle.dh_meaning.specs.Ways.{ways_of};
ghost use Rattle.dh_lengths.specs.SharedReads.{TellsShares};
ghost use Rattle.dh_plan.specs.Passes.{IsToCompile};
ghost use Rattle.dh_plan.specs.SeenPlans.{plan_seen};
ghost use Rattle.dh_told.specs.MadePlans.{MakesPhases};
ghost use Rattle.dh_ways.specs.Seen.{led_seen};
ghost use Rattle.dh_unroll.specs.Unrolled.{IsUnrolled};

use crate::sharing::narrow_shares;
use crate::viewing::{ListedViews, list_views};
use dh_accesses::meets_of;
use dh_base::NoMemory;
use dh_code::place_all;
use dh_events::scopes_of;
use dh_expressions::{Scene, Through};
use dh_gathering::{Phased, phases_made};
use dh_inline::Flat;
use dh_plan::Plan;
use dh_tree::{Typed, copy_table};
use dh_ways::{WayTable, hidden_in, ways_in};
use std::alloc::Global;

/// The phases of a program with these ways, over the registers of its variables.
fn phases_of(
    alloc: Global,
    program: &Typed,
    ways: &WayTable,
    through: &[Through],
    shared: &[Option<usize>],
) -> Result<Phased, NoMemory>
    requires asked { IsToCompile (program_seen program.now) }
    requires shared { TellsShares (program_seen program.now) shared.now }
    requires ways { map led_seen ways.now ≡ ways_of (program_seen program.now) }
    ensures { IfOk result (λ phased. MakesPhases program.now through.now phased) }
{
    let tree = program.tree();
    let hidden = hidden_in(alloc, program)?;
    let kept = hidden.as_slice();
    let places = place_all(alloc, &tree.body, kept, tree.entities.len())?;
    let scopes = scopes_of(alloc, &tree.body, ways, kept)?;
    let shares = narrow_shares(alloc, shared)?;
    let scene = Scene {
        alloc,
        program,
        ways,
        through,
        held: places.held.as_slice(),
        scopes: scopes.as_slice(),
        shares: shares.as_slice(),
    };
    phases_made(&scene, places.count, &tree.body)
}

/// The plan of a program that is to be compiled, of whose accesses it is known which earlier read each shares. It has the
/// program's views in text order, and each register has from 1 to 64 bits.
///
/// # Errors
///
/// `NoMemory` where an allocation was refused.
pub fn unroll(alloc: Global, flat: &Flat, shared: &[Option<usize>]) -> Result<Plan, NoMemory>
    requires asked { IsToCompile (program_seen flat.now.program.now) }
    requires shared { TellsShares (program_seen flat.now.program.now) shared.now }
    ensures { IfOk result (λ plan. IsUnrolled (program_seen flat.now.program.now)
        (plan_seen plan)) }
{
    let program = flat.typed();
    let ways = ways_in(alloc, program)?;
    let ListedViews { views, through } = list_views(alloc, &ways)?;
    let taken = through.as_slice();
    let Phased {
        nodes,
        blocks,
        registers,
        faults,
    } = phases_of(alloc, program, &ways, taken, shared)?;
    Ok(Plan {
        table: copy_table(alloc, program.memories().as_slice())?,
        views,
        registers,
        blocks,
        body: nodes,
        meets: meets_of(alloc, &program.tree().body)?,
        faults,
    })
}
