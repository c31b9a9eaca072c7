//! What a run begins with: the slots of its variables, the phases of its program, and its first block.

ghost use Rattle.std.specs.Prelude.{◌≡◌, ◌≤◌, [], IfOk, length, map, replicate};
ghost use Rattle.std.specs.List.{AllByRecursion};
ghost use Rattle.dh_tree.specs.Memories.{table_of};
ghost use Rattle.dh_tree.specs.Seen.{program_seen};
ghost use Rattle.dh_tree.specs.Shapes.{IsProgramTable, IsMemory};
ghost use Rattle.dh_tree.specs.Tables.{elements_in, most_elements};
ghost use Rattle.dh_meaning.specs.Ways.{ways_of};
ghost use Rattle.dh_ways.specs.Seen.{led_seen};
ghost use Rattle.dh_code.specs.Banks.{AreFirsts, all_banks};
ghost use Rattle.dh_code.specs.Declarations.{placing_of, slots_of};
ghost use Rattle.dh_sem.specs.Held.{HoldsProgram, IsSoundMade};
ghost use Rattle.dh_sem.specs.Lanes.{AreFirstLanes};
ghost use Rattle.dh_sem.specs.Phased.{AreLinked};
ghost use Rattle.dh_code.specs.Scenes.{IsEarlier};
ghost use Rattle.dh_sem.specs.Runnable.{IsRunnable};
ghost use Rattle.dh_sem.specs.Starts.{ArePlacesOf, HoldsProgramAndSlots, IsBegunRun, IsNothingMade, IsUnused, ReachesFirstBlock};

use crate::holding::{MadeRun, hold_all};
use crate::lanes::first_lanes;
use crate::phases::Frame;
use crate::stepping::{Course, go_on};
use dh_base::{Items, NoMemory};
use dh_code::{Code, Names, Places, StepState, VariableSlots, place_all, unused};
use dh_extents::measure;
use dh_tree::{MemEntry, Typed};
use dh_ways::{WayTable, hidden_in, ways_in};
use std::alloc::Global;

/// What a run has before its first step.
#[derive(Drop)]
pub struct Begun {
    /// By memory the number of its first bank.
    pub firsts: Vec<usize>,
    /// The code, the phases of the program and the paths at which they are done.
    pub made: MadeRun,
    /// The variables and what is spent of the banks.
    pub state: StepState,
    /// What is still to come behind the first block.
    pub frames: Vec<Frame>,
    /// The phase of the first block, if there is one.
    pub place: Option<usize>,
}

/// The number of the first bank of each memory.
fn first_banks(alloc: Global, entries: &[MemEntry]) -> Result<Vec<usize>, NoMemory>
    requires table { AllByRecursion IsMemory entries.now }
    requires few { elements_in entries.now ≤ most_elements }
    ensures { IfOk result (λ firsts. AreFirsts entries.now firsts.items) }
{
    let mut firsts = Vec::new(alloc);
    let mut banks = 0;
    for entry in entries {
        firsts.push(banks)?;
        banks += measure(entry.shape.dims.as_slice()).banks as usize;
    }
    Ok(firsts)
}

/// How many banks all memories have.
fn count_banks(entries: &[MemEntry]) -> usize
    requires table { AllByRecursion IsMemory entries.now }
    requires few { elements_in entries.now ≤ most_elements }
    ensures { result ≡ all_banks entries.now }
{
    let mut banks = 0;
    for entry in entries {
        banks += measure(entry.shape.dims.as_slice()).banks as usize;
    }
    banks
}

/// So many zeros.
fn zeros(alloc: Global, count: usize) -> Result<Vec<u64>, NoMemory>
    ensures { IfOk result (λ list. list.items ≡ replicate count 0) }
{
    let mut list = Vec::new(alloc);
    for _ in 0..count {
        list.push(0)?;
    }
    Ok(list)
}

/// The slots of the variables of a program.
fn places_of(alloc: Global, program: &Typed) -> Result<Places, NoMemory>
    requires runnable { IsRunnable (program_seen program.now) }
    ensures { IfOk result (ArePlacesOf (program_seen program.now)) }
{
    let tree = program.tree();
    let hidden = hidden_in(alloc, program)?;
    let kept = hidden.as_slice();
    place_all(alloc, &tree.body, kept, tree.entities.len())
}

/// Nothing made yet, at the one path outside all loops.
fn nothing_made(alloc: Global) -> Result<MadeRun, NoMemory>
    ensures { IfOk result IsNothingMade }
{
    let lanes = first_lanes(alloc)?;
    Ok(MadeRun {
        code: Code {
            operations: Items::new(alloc),
            steps: Items::new(alloc),
        },
        phases: Vec::new(alloc),
        lanes,
    })
}

/// Makes the phases of a program of which these are the ways and the slots.
fn hold_program(
    alloc: Global,
    program: &Typed,
    ways: &WayTable,
    places: &[VariableSlots],
    made: &mut MadeRun,
) -> Result<Option<usize>, NoMemory>
    requires table { IsProgramTable (table_of (program_seen program.now)) }
    requires runnable { IsRunnable (program_seen program.now) }
    requires ways { map led_seen ways.now ≡ ways_of (program_seen program.now) }
    requires places { places.now ≡ (placing_of (program_seen program.now)).held }
    requires lanes { AreFirstLanes made.old.lanes.items }
    requires sound { IsSoundMade (table_of (program_seen program.now)) made.old }
    ensures { IfOk result (λ first. HoldsProgram (program_seen program.now) made.new first) }
{
    let tree = program.tree();
    let names = Names {
        alloc,
        program,
        ways,
        places,
    };
    hold_all(&names, made, &tree.body)
}

/// Makes the phases of a program of which these are the slots.
fn hold_placed(
    alloc: Global,
    program: &Typed,
    places: &[VariableSlots],
    made: &mut MadeRun,
) -> Result<Option<usize>, NoMemory>
    requires table { IsProgramTable (table_of (program_seen program.now)) }
    requires runnable { IsRunnable (program_seen program.now) }
    requires places { places.now ≡ (placing_of (program_seen program.now)).held }
    requires lanes { AreFirstLanes made.old.lanes.items }
    requires sound { IsSoundMade (table_of (program_seen program.now)) made.old }
    ensures { IfOk result (λ first. HoldsProgram (program_seen program.now) made.new first) }
{
    let ways = ways_in(alloc, program)?;
    hold_program(alloc, program, &ways, places, made)
}

/// Makes the phases of a program; tells the first of them, and how many slots its variables have.
fn hold_first(
    alloc: Global,
    program: &Typed,
    made: &mut MadeRun,
) -> Result<(Option<usize>, u32), NoMemory>
    requires table { IsProgramTable (table_of (program_seen program.now)) }
    requires runnable { IsRunnable (program_seen program.now) }
    requires none { IsNothingMade made.old }
    ensures { IfOk result
        (λ held. HoldsProgramAndSlots (program_seen program.now) made.new held.0 held.1) }
{
    let places = places_of(alloc, program)?;
    match hold_placed(alloc, program, places.held.as_slice(), made) {
        Ok(first) => Ok((first, places.count)),
        Err(fault) => Err(fault),
    }
}

/// So many slots, room for what so many operations give, and so many banks of which nothing is spent.
fn first_state(
    alloc: Global,
    slots: usize,
    operations: usize,
    banks: usize,
) -> Result<StepState, NoMemory>
    ensures { IfOk result (IsUnused slots operations banks) }
{
    let variables = zeros(alloc, slots)?;
    let given = zeros(alloc, operations)?;
    let unspent = unused(alloc, banks)?;
    Ok(StepState {
        variables,
        given,
        banks: unspent,
        writes: Vec::new(alloc),
        changes: Vec::new(alloc),
    })
}

/// Goes to the first block of a list of phases, where there is one.
fn go_to_first(
    course: &Course<'_>,
    state: &mut StepState,
    frames: &mut Vec<Frame>,
    first: Option<usize>,
) -> Result<Option<usize>, NoMemory>
    requires course { AreLinked course.now.phases.now course.now.lanes.now }
    requires first { IsEarlier (length course.now.phases.now) first }
    requires none { frames.old.items ≡ [] }
    ensures { IfOk result (λ place. ReachesFirstBlock course.now first place state.old state.new
        frames.new.items) }
{
    frames.push(Frame::List { list: first })?;
    let place = go_on(course, state, frames, false)?;
    Ok(place)
}

/// What a run begins with, by what was made of its program.
fn stand_first(
    alloc: Global,
    program: &Typed,
    made: MadeRun,
    first: Option<usize>,
    slots: u32,
) -> Result<Begun, NoMemory>
    requires table { IsProgramTable (table_of (program_seen program.now)) }
    requires holds { HoldsProgram (program_seen program.now) made first }
    requires slots { slots ≡ slots_of (program_seen program.now) }
    ensures { IfOk result (IsBegunRun (program_seen program.now)) }
{
    let entries = program.memories().as_slice();
    let firsts = first_banks(alloc, entries)?;
    let operations = made.code.operations.len();
    let banks = count_banks(entries);
    let mut state = first_state(alloc, slots as usize, operations, banks)?;
    let mut frames = Vec::new(alloc);
    let course = Course {
        phases: made.phases.as_slice(),
        lanes: made.lanes.as_slice(),
    };
    let place = go_to_first(&course, &mut state, &mut frames, first)?;
    Ok(Begun {
        firsts,
        made,
        state,
        frames,
        place,
    })
}

/// What a run of a program begins with.
///
/// # Errors
///
/// `NoMemory` where an allocation was refused.
pub fn begin(alloc: Global, program: &Typed) -> Result<Begun, NoMemory>
    requires table { IsProgramTable (table_of (program_seen program.now)) }
    requires runnable { IsRunnable (program_seen program.now) }
    ensures { IfOk result (IsBegunRun (program_seen program.now)) }
{
    let mut made = nothing_made(alloc)?;
    let (first, slots) = hold_first(alloc, program, &mut made)?;
    stand_first(alloc, program, made, first, slots)
}
