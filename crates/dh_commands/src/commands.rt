//! Operations from straight commands, each at all its paths before the next one.

ghost use Rattle.std.specs.Prelude.{◌≡◌, IfOk, OnOk};
ghost use Rattle.dh_tree.specs.Seen.{action_seen, all_parts_seen, maybe_block_seen};
ghost use Rattle.dh_commands.specs.Done.{DoesCommand};
ghost use Rattle.dh_commands.specs.Parted.{DoesArm, DoesGroups, DoesOther, JoinsAll};
ghost use Rattle.dh_commands.specs.MadeCommands.{MadeArm, MadeCommand, MadeGroups, MadeJoined, MadeOther};

use crate::assigning::{assign_all, clear_all, reduce_all};
use crate::buildings::Building;
use crate::choices::{Left, choose, end_arm, join_arms};
use crate::guarding::guards_of;
use crate::keeping::keep_view;
use crate::storing::store_all;
use crate::testing::test_all;
use dh_base::NoMemory;
use dh_expressions::{Around, Scene};
use dh_phases::behind_command;
use dh_tree::{Command, CommandForm};
use std::alloc::Global;

/// What stands round an arm, which is done at each path where its guard holds.
fn arm_of<'b>(around: Around<'b>, guards: &'b [Option<u64>]) -> Around<'b>
    ensures levels { result.levels.now ≡ around.entry.levels.now }
    ensures guards { result.guards.now ≡ guards.now }
{
    Around {
        levels: around.levels,
        guards,
    }
}

/// Chooses each variable that an arm of an `if` assigned.
fn join_all(
    alloc: Global,
    building: &mut Building,
    tests: &[u64],
    chosen: &[Left],
    other: &[Left],
) -> Result<(), NoMemory>
    ensures means { OnOk result (JoinsAll building.old building.new
        tests.now chosen.now other.now) }
    ensures made { OnOk result (MadeJoined tests.now chosen.now other.now
        building.old building.new) }
{
    let choices = join_arms(alloc, &mut building.values, chosen, other)?;
    choose(
        &mut building.draft,
        &mut building.values,
        tests,
        choices.as_slice(),
    )
}

/// Adds the operations of a straight command whose accesses are numbered from `first` on. Gives the number of the
/// next access.
#[cycle(commands)]
pub fn push_command(
    scene: &Scene<'_>,
    around: Around<'_>,
    building: &mut Building,
    first: u32,
    command: &Command,
) -> Result<u32, NoMemory>
    ensures means { IfOk result (λ next. DoesCommand scene.now around.entry (action_seen
        command.now) first next building.old building.new) }
    ensures made { IfOk result (λ next. MadeCommand scene.now (action_seen command.now) around.entry
        building.old building.new first next) }
{
    match &command.form {
        CommandForm::Let { name, value, .. } => {
            let value = value.as_ref();
            match value {
                Some(value) => assign_all(scene, around, building, first, name, value),
                None => {
                    clear_all(scene, around, building, name)?;
                    Ok(first)
                }
            }
        }
        CommandForm::Assign { target, value } => {
            assign_all(scene, around, building, first, target, value)
        }
        CommandForm::Store { sides } => {
            let sides = sides.as_ref();
            store_all(scene, around, building, first, &sides.target, &sides.value)
        }
        CommandForm::Reduce { op, target, value } => {
            reduce_all(scene, around, building, first, target, *op, value)
        }
        CommandForm::If { test, then, other } => {
            let (tests, next) = test_all(scene, around, building, first, test)?;
            let tests = tests.as_slice();
            let (next, chosen) = push_arm(scene, around, building, next, tests, true, then)?;
            let (next, other) = push_other(scene, around, building, next, tests, other)?;
            join_all(
                scene.alloc,
                building,
                tests,
                chosen.as_slice(),
                other.as_slice(),
            )?;
            Ok(next)
        }
        CommandForm::Block { body } => push_parts(scene, around, building, first, body.as_slice()),
        CommandForm::LetMemory { .. } => Ok(first),
        CommandForm::Call { .. } => Ok(first),
        // in a straight command a loop has no turn; its accesses have their numbers all the same
        CommandForm::While { .. } => Ok(behind_command(first, command)),
        CommandForm::For { .. } => Ok(behind_command(first, command)),
        CommandForm::View { name, form, .. } => {
            let idle = behind_command(first, command);
            keep_view(scene, around, building, first, idle, name, form)
        }
    }
}

/// Adds those of the second arm of an `if`, where there is one.
#[cycle(commands)]
fn push_other(
    scene: &Scene<'_>,
    around: Around<'_>,
    building: &mut Building,
    first: u32,
    tests: &[u64],
    other: &Option<Box<Command>>,
) -> Result<(u32, Vec<Left>), NoMemory>
    ensures means { IfOk result (λ r. DoesOther scene.now around.entry tests.now (maybe_block_seen
        other.now) first r.0 building.old building.new r.1.items) }
    ensures made { IfOk result (λ r. MadeOther scene.now (maybe_block_seen other.now) around.entry
        tests.now building.old building.new first r.0 r.1.items) }
{
    match other {
        Some(block) => push_arm(scene, around, building, first, tests, false, block),
        None => Ok((first, Vec::new(scene.alloc))),
    }
}

/// Adds those of an arm of an `if`, done where its test comes out so, and takes back what it assigned. Gives the
/// number of the next access, and what the arm left.
#[cycle(commands)]
fn push_arm(
    scene: &Scene<'_>,
    around: Around<'_>,
    building: &mut Building,
    first: u32,
    tests: &[u64],
    holds: bool,
    command: &Command,
) -> Result<(u32, Vec<Left>), NoMemory>
    ensures means { IfOk result (λ r. DoesArm scene.now around.entry tests.now holds (action_seen
        command.now) first r.0 building.old building.new r.1.items) }
    ensures made { IfOk result (λ r. MadeArm (MadeCommand scene.now (action_seen command.now))
        around.entry holds tests.now building.old building.new first r.0 r.1.items) }
{
    let floor = building.values.log.len();
    let guards = guards_of(
        scene.alloc,
        &mut building.draft,
        around.guards,
        tests,
        holds,
    )?;
    let arm = arm_of(around, guards.as_slice());
    let next = push_command(scene, arm, building, first, command)?;
    let left = end_arm(scene.alloc, &mut building.values, floor)?;
    Ok((next, left))
}

/// Adds those of the parts of a block.
#[cycle(commands)]
#[tactic(auto, using(dh_tree::proofs::SeenActions::actions_are))]
fn push_parts(
    scene: &Scene<'_>,
    around: Around<'_>,
    building: &mut Building,
    first: u32,
    parts: &[Vec<Command>],
) -> Result<u32, NoMemory>
    ensures means { IfOk result (λ next. DoesGroups scene.now around.entry (all_parts_seen
        parts.now) first next building.old building.new) }
    ensures made { IfOk result (λ next. MadeGroups scene.now (all_parts_seen parts.now) around.entry
        building.old building.new first next) }
{
    let mut next = first;
    for part in parts {
        for command in part {
            next = push_command(scene, around, building, next, command)?;
        }
    }
    Ok(next)
}
