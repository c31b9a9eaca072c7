//! The blocks of straight commands and of tests. A block is made whole before the next one begins, so that the
//! operations of a block have numbers that follow one another.

ghost use Rattle.std.specs.Prelude.{◌≡◌, ◌∷◌, [], None, IfOk, OnOk, map, replicate};
ghost use Rattle.dh_tree.specs.Seen.{term_seen};
ghost use Rattle.dh_phases.specs.GatheredPhases.{numbered_seen};
ghost use Rattle.dh_gathering.specs.MadeBlocks.{PutsFlag};
ghost use Rattle.dh_gathering.specs.NamedOnce.{NamesOnce};
ghost use Rattle.dh_gathering.specs.PushedSets.{SetsLogged, SetsGivenRegister};
ghost use Rattle.dh_gathering.specs.Gathered.{DoesNumbered, EndsBlock, MakesStraightIn, MakesTestIn, SetsFirst};

use dh_base::{Items, NoMemory};
use dh_commands::{Building, push_command, test_all};
use dh_expressions::{Around, Draft, Paths, Scene, is_read, push_compute, push_set};
use dh_phases::NumberedCommand;
use dh_tree::{Expr, Kind};
use dh_value::Op;
use std::alloc::Global;

/// What is made of a program.
#[derive(Drop)]
pub struct Made {
    /// Its operations.
    pub building: Building,
    /// Where the operations of each block begin.
    pub starts: Vec<usize>,
    /// The kinds of the registers.
    pub registers: Items<Kind>,
}

/// No guard at any of so many paths.
fn no_guards(alloc: Global, paths: u64) -> Result<Vec<Option<u64>>, NoMemory>
    ensures { IfOk result (λ guards. guards.items ≡ replicate paths None) }
{
    let mut guards = Vec::new(alloc);
    for _ in 0..paths {
        guards.push(None)?;
    }
    Ok(guards)
}

/// Sets a register, where its variable was given a value in this step.
fn set_register(building: &mut Building, register: u64) -> Result<(), NoMemory>
    ensures { OnOk result (SetsGivenRegister building.old building.new register) }
{
    let at = register as usize;
    if at < building.values.current.len() {
        if let Some(value) = building.values.current[at] {
            push_set(&mut building.draft, register, value)?;
            building.values.current[at] = None;
        }
    }
    Ok(())
}

/// Sets the registers of all variables that were given a value in this step.
fn push_sets(building: &mut Building) -> Result<(), NoMemory>
    ensures { OnOk result (SetsLogged building.old building.new) }
{
    for i in 0..building.values.log.len() {
        if i < building.values.log.len() {
            let change = building.values.log[i];
            set_register(building, change.register)?;
        }
    }
    building.values.log.clear();
    Ok(())
}

/// Ends a block whose operations begin here. Gives its number.
fn end_block(made: &mut Made, start: usize) -> Result<u64, NoMemory>
    ensures { IfOk result (λ block. EndsBlock made.old made.new start block) }
{
    let block = made.starts.len();
    made.starts.push(start)?;
    Ok(block as u64)
}

/// Adds the operations of commands at all paths, one after the other.
fn push_commands(
    scene: &Scene<'_>,
    around: Around<'_>,
    building: &mut Building,
    commands: &[NumberedCommand<'_>],
) -> Result<(), NoMemory>
    ensures { OnOk result (DoesNumbered scene.now around.entry (map numbered_seen commands.now)
        building.old building.new) }
{
    for numbered in commands {
        push_command(scene, around, building, numbered.first, numbered.command)?;
    }
    Ok(())
}

/// The block of straight commands.
pub fn straight_block(
    scene: &Scene<'_>,
    made: &mut Made,
    paths: &Paths,
    commands: &[NumberedCommand<'_>],
) -> Result<u64, NoMemory>
    ensures made { IfOk result (λ block. MakesStraightIn scene.now paths.now made.old made.new
        (map numbered_seen commands.now) block) }
    ensures once { IfOk result (λ block. NamesOnce made.old made.new (block ∷ [])) }
{
    let start = made.building.draft.operations.len();
    let guards = no_guards(scene.alloc, paths.count)?;
    let around = Around {
        levels: paths.levels.as_slice(),
        guards: guards.as_slice(),
    };
    push_commands(scene, around, &mut made.building, commands)?;
    push_sets(&mut made.building)?;
    end_block(made, start)
}

/// A block that makes a test, and the register that is then its flag.
#[derive(Clone, Copy)]
pub struct TestingBlock {
    /// The number of the block.
    pub block: u64,
    /// The register.
    pub flag: u64,
}

/// Sets a flag to the value of a test. What memories hold need be no word: the flag is 1 where it is true, else 0.
fn push_flag(draft: &mut Draft, test: &Expr, value: u64, flag: u64) -> Result<(), NoMemory>
    ensures { OnOk result (PutsFlag draft.old draft.new (term_seen test.now) value flag) }
{
    let value = if is_read(test) {
        push_compute(draft, Op::Both, value, value)?
    } else {
        value
    };
    push_set(draft, flag, value)?;
    Ok(())
}

/// Sets a flag to the value of a test at the first path, if there is one.
fn push_first(draft: &mut Draft, test: &Expr, tests: &[u64], flag: u64) -> Result<(), NoMemory>
    ensures { OnOk result (SetsFirst draft.old draft.new (term_seen test.now) tests.now flag) }
{
    match tests {
        [] => Ok(()),
        [value, ..] => push_flag(draft, test, *value, flag),
    }
}

/// The block of a test.
pub fn test_block(
    scene: &Scene<'_>,
    made: &mut Made,
    paths: &Paths,
    first: u32,
    test: &Expr,
) -> Result<TestingBlock, NoMemory>
    ensures made { IfOk result (λ t. MakesTestIn scene.now paths.now made.old made.new first
        (term_seen test.now) t.flag t.block) }
    ensures once { IfOk result (λ t. NamesOnce made.old made.new (t.block ∷ [])) }
{
    let start = made.building.draft.operations.len();
    let guards = no_guards(scene.alloc, paths.count)?;
    let around = Around {
        levels: paths.levels.as_slice(),
        guards: guards.as_slice(),
    };
    let (tests, _) = test_all(scene, around, &mut made.building, first, test)?;
    let flag = made.registers.len() as u64;
    made.registers.push(Kind::Bool)?;
    push_first(&mut made.building.draft, test, tests.as_slice(), flag)?;
    let block = end_block(made, start)?;
    Ok(TestingBlock { block, flag })
}
