//! One logical step, and where a run then stands.

ghost use Rattle.std.specs.Prelude.{◌≡◌, ◌+◌, ◌*◌, ◌%◌, ◌-◌, ◌^◌, ◌<◌, ◌≤◌, ◌==◌, Bool, if◌then◌else◌, IfOk, Some, length, slice_get};
ghost use Rattle.std.specs.List.{AllByRecursion};
ghost use Rattle.dh_code.specs.Scenes.{IsHeld, IsScene, IsEarlier};
ghost use Rattle.dh_code.specs.States.{IsReadyState, KeepsBack, memories_written};
ghost use Rattle.dh_sem.specs.declared.phases.Frame.TheVariants.{Turn};
ghost use Rattle.dh_sem.specs.Phased.{AreLinked, IsSoundCourse, IsSoundFrame, taken_branch, turns_in};
ghost use Rattle.dh_sem.specs.Steps.{Advances, BackIfStopped, BeginsTurn, Descends, FollowsFrame, GoesOn, IsRested, Lightens, NowhereIfNone, OnlyVariables, RunsBlock, RunsNext, SetsCopy, TestsAllPaths, course_seen, which};

use crate::lanes::Lanes;
use crate::phases::{Frame, HeldPhase, PhaseForm, Turns};
use dh_base::NoMemory;
use dh_code::{
    FlatExpression, StepContext, StepState, StepStop, Write, decide, release, run, set_slot, slot,
    undo, write_all,
};
use dh_tree::Memories;
use std::alloc::Global;
use std::mem;

/// What a run goes through.
#[derive(Clone, Copy)]
pub struct Course<'a> {
    /// The phases of the program.
    pub phases: &'a [HeldPhase],
    /// The paths at which they are done.
    pub lanes: &'a [Lanes],
}

/// Evaluates a test at all paths. Gives whether it holds at the first one.
fn test(
    scene: &StepContext<'_>,
    state: &mut StepState,
    lanes: &Lanes,
    test: &FlatExpression,
) -> Result<bool, StepStop>
    requires scene { IsScene scene.now }
    requires ready { IsReadyState scene.now state.old }
    requires held { IsHeld scene.now.code.now.operations test.now }
    ensures ready { IsReadyState scene.now state.new }
    ensures back { KeepsBack state.old state.new }
    ensures tests { TestsAllPaths scene.now state.old result state.new lanes.now test.now }
{
    let mut first = false;
    let rows = lanes.rows.as_slice();
    for (i, row) in rows.iter().enumerate() {
        let holds = decide(scene, state, row.as_slice(), test)?;
        first = first_of(i, first, holds);
    }
    Ok(first)
}

/// Whether the first test holds, once that of a number is done.
fn first_of(i: usize, first: bool, holds: bool) -> bool
    ensures { result ≡ (if i == 0 then holds else first) }
{
    if i == 0 { holds } else { first }
}

/// Does the block of a phase. Gives whether its test holds, where it has one.
fn run_block(
    scene: &StepContext<'_>,
    course: &Course<'_>,
    state: &mut StepState,
    at: usize,
) -> Result<bool, StepStop>
    requires scene { IsScene scene.now }
    requires ready { IsReadyState scene.now state.old }
    requires course { IsSoundCourse (course_seen scene.now course.now) }
    requires there { at < length course.now.phases.now }
    ensures ready { IsReadyState scene.now state.new }
    ensures back { KeepsBack state.old state.new }
    ensures runs { RunsBlock scene.now course.now state.old result state.new at }
{
    let phase = phase_at(course.phases, at);
    let lanes = lanes_at(course.lanes, phase.paths);
    match &phase.form {
        PhaseForm::Straight { list } => {
            run(
                scene,
                state,
                lanes.rows.as_slice(),
                lanes.all.as_slice(),
                *list,
            )?;
            Ok(false)
        }
        PhaseForm::Loop {
            test: condition,
            ..
        } => test(scene, state, lanes, condition),
        PhaseForm::Choice {
            test: condition,
            ..
        } => test(scene, state, lanes, condition),
        PhaseForm::Turns { .. } => Ok(false),
    }
}

/// Sets the copy of an iterator at a path of these ranks. (An iterator that is not declared by its
/// loop has none there.)
fn set_copy(state: &mut StepState, ranks: &[u32], turns: &Turns, value: u64) -> Result<(), NoMemory>
    ensures only { OnlyVariables state.old state.new }
    ensures sets { IfOk result (λ _. SetsCopy state.old state.new ranks.now turns.now value) }
{
    if ranks.len() == turns.depth as usize + 1 {
        set_slot(state, slot(turns.first, turns.depth, ranks), value)?;
    }
    Ok(())
}

/// Which copy of its turn a path of a number does, in a loop of so many copies. (A division takes
/// long, and a loop that stands in no other one has no path beyond its copies.)
fn copy_of(number: u64, factor: u64) -> u64
    requires some { 1 ≤ factor }
    ensures { result ≡ number % factor }
{
    if number < factor {
        number
    } else {
        number % factor
    }
}

/// Begins a turn of a `for`: at each path inside it the iterator has its value.
fn begin_turn(
    state: &mut StepState,
    lanes: &Lanes,
    turns: &Turns,
    turn: u64,
) -> Result<(), NoMemory>
    requires some_factor { 1 ≤ turns.now.factor }
    requires counted { turns.now.low + (turn + 1) * turns.now.factor ≤ 2 ^ 64 - 1 }
    ensures only { OnlyVariables state.old state.new }
    ensures begins { IfOk result (λ _. BeginsTurn state.old state.new lanes.now turns.now turn) }
{
    let base = turns.low + turn * turns.factor;
    let rows = lanes.rows.as_slice();
    for (i, row) in rows.iter().enumerate() {
        let copy = copy_of(i as u64, turns.factor);
        set_copy(state, row.as_slice(), turns, base + copy)?;
    }
    Ok(())
}

/// The phase of a number.
fn phase_at(phases: &[HeldPhase], at: usize) -> &HeldPhase
    requires there { at < length phases.now }
    ensures { slice_get phases.now at ≡ Some result.now }
{
    &phases[at]
}

/// The lanes of a number.
fn lanes_at(lanes: &[Lanes], at: usize) -> &Lanes
    requires there { at < length lanes.now }
    ensures { slice_get lanes.now at ≡ Some result.now }
{
    &lanes[at]
}

/// Goes into a list of phases, to its first block. Gives the phase of that; None where the list has
/// no phase.
fn descend(
    course: &Course<'_>,
    state: &mut StepState,
    frames: &mut Vec<Frame>,
    list: Option<usize>,
) -> Result<Option<usize>, NoMemory>
    requires course { AreLinked course.now.phases.now course.now.lanes.now }
    requires list { IsEarlier (length course.now.phases.now) list }
    requires frames { AllByRecursion (IsSoundFrame (length course.now.phases.now))
        frames.old.items }
    ensures only { OnlyVariables state.old state.new }
    ensures frames { IfOk result
        (λ _. AllByRecursion (IsSoundFrame (length course.now.phases.now)) frames.new.items) }
    ensures place { IfOk result (λ at. IsEarlier (length course.now.phases.now) at) }
    ensures none { IfOk result (λ at.
        NowhereIfNone list at state.old state.new frames.old.items frames.new.items) }
    ensures descends { IfOk result (λ at.
        Descends course.now list at state.old state.new frames.old.items frames.new.items) }
{
    let Some(at) = list else {
        return Ok(None);
    };
    let phase = phase_at(course.phases, at);
    frames.push(Frame::List { list: phase.next })?;
    match &phase.form {
        PhaseForm::Straight { .. } => Ok(Some(at)),
        PhaseForm::Loop { .. } => {
            frames.push(Frame::Test { at })?;
            Ok(Some(at))
        }
        PhaseForm::Choice { .. } => {
            frames.push(Frame::Pick { at })?;
            Ok(Some(at))
        }
        PhaseForm::Turns { turns } => {
            begin_turn(state, lanes_at(course.lanes, turns.inside), turns, 0)?;
            frames.push(Frame::Turn { at, turn: 0 })?;
            descend(course, state, frames, turns.body)
        }
    }
}

/// Goes into a list of phases, as `descend` does. (Often nothing is left of it, which takes no call.)
#[inline(always)]
fn go_into(
    course: &Course<'_>,
    state: &mut StepState,
    frames: &mut Vec<Frame>,
    list: Option<usize>,
) -> Result<Option<usize>, NoMemory>
    requires course { AreLinked course.now.phases.now course.now.lanes.now }
    requires list { IsEarlier (length course.now.phases.now) list }
    requires frames { AllByRecursion (IsSoundFrame (length course.now.phases.now))
        frames.old.items }
    ensures only { OnlyVariables state.old state.new }
    ensures frames { IfOk result
        (λ _. AllByRecursion (IsSoundFrame (length course.now.phases.now)) frames.new.items) }
    ensures place { IfOk result (λ at. IsEarlier (length course.now.phases.now) at) }
    ensures none { IfOk result (λ at.
        NowhereIfNone list at state.old state.new frames.old.items frames.new.items) }
    ensures descends { IfOk result (λ at.
        Descends course.now list at state.old state.new frames.old.items frames.new.items) }
{
    if list.is_none() {
        return Ok(None);
    }
    descend(course, state, frames, list)
}

/// The body of a phase that is a `while`, or the arm of an `if` by its test.
fn arm(phase: &HeldPhase, holds: bool) -> Option<usize>
    ensures { result ≡ taken_branch phase.now.form holds }
{
    match &phase.form {
        PhaseForm::Loop { body, .. } => *body,
        PhaseForm::Choice { chosen, other, .. } => if holds { *chosen } else { *other },
        PhaseForm::Straight { .. } => None,
        PhaseForm::Turns { .. } => None,
    }
}

/// The turns of a phase that is a `for`.
fn turns_of(phase: &HeldPhase) -> Option<Turns>
    ensures { result ≡ turns_in phase.now.form }
{
    match &phase.form {
        PhaseForm::Turns { turns } => Some(*turns),
        PhaseForm::Straight { .. } => None,
        PhaseForm::Loop { .. } => None,
        PhaseForm::Choice { .. } => None,
    }
}

/// The next turn of a `for`, where there is one.
fn next_turn(
    course: &Course<'_>,
    state: &mut StepState,
    frames: &mut Vec<Frame>,
    at: usize,
    turn: u64,
) -> Result<Option<usize>, NoMemory>
    requires course { AreLinked course.now.phases.now course.now.lanes.now }
    requires there { at < length course.now.phases.now }
    requires turn { turn < 2 ^ 64 - 1 }
    requires frames { AllByRecursion (IsSoundFrame (length course.now.phases.now))
        frames.old.items }
    ensures only { OnlyVariables state.old state.new }
    ensures frames { IfOk result
        (λ _. AllByRecursion (IsSoundFrame (length course.now.phases.now)) frames.new.items) }
    ensures place { IfOk result (λ at. IsEarlier (length course.now.phases.now) at) }
    ensures light { IfOk result (λ next. Lightens next (Turn at turn) state.old state.new
        frames.old.items frames.new.items) }
    ensures follows { (holds : Bool) → IfOk result (λ next. FollowsFrame course.now (Turn at turn) holds
        next state.old state.new frames.old.items frames.new.items) }
{
    let phase = phase_at(course.phases, at);
    let Some(turns) = turns_of(phase) else {
        return Ok(None);
    };
    let next = turn + 1;
    if next >= turns.count {
        return Ok(None);
    }
    begin_turn(state, lanes_at(course.lanes, turns.inside), &turns, next)?;
    frames.push(Frame::Turn { at, turn: next })?;
    descend(course, state, frames, turns.body)
}

/// Goes on to the next block behind a frame, where that leads to one.
fn follow(
    course: &Course<'_>,
    state: &mut StepState,
    frames: &mut Vec<Frame>,
    frame: Frame,
    holds: bool,
) -> Result<Option<usize>, NoMemory>
    requires course { AreLinked course.now.phases.now course.now.lanes.now }
    requires frame { IsSoundFrame (length course.now.phases.now) frame }
    requires frames { AllByRecursion (IsSoundFrame (length course.now.phases.now))
        frames.old.items }
    ensures only { OnlyVariables state.old state.new }
    ensures frames { IfOk result
        (λ _. AllByRecursion (IsSoundFrame (length course.now.phases.now)) frames.new.items) }
    ensures place { IfOk result (λ at. IsEarlier (length course.now.phases.now) at) }
    ensures light { IfOk result (λ next. Lightens next frame state.old state.new
        frames.old.items frames.new.items) }
    ensures follows { IfOk result (λ next. FollowsFrame course.now frame holds
        next state.old state.new frames.old.items frames.new.items) }
{
    match frame {
        Frame::List { list } => go_into(course, state, frames, list),
        Frame::Turn { at, turn } => next_turn(course, state, frames, at, turn),
        Frame::Test { at } => {
            if !holds {
                return Ok(None);
            }
            let phase = phase_at(course.phases, at);
            frames.push(Frame::Again { at })?;
            descend(course, state, frames, arm(phase, true))
        }
        Frame::Again { at } => {
            frames.push(Frame::Test { at })?;
            Ok(Some(at))
        }
        Frame::Pick { at } => {
            let phase = phase_at(course.phases, at);
            descend(course, state, frames, arm(phase, holds))
        }
    }
}

/// Goes on to the next block, where there is one.
pub fn go_on(
    course: &Course<'_>,
    state: &mut StepState,
    frames: &mut Vec<Frame>,
    holds: bool,
) -> Result<Option<usize>, NoMemory>
    requires course { AreLinked course.now.phases.now course.now.lanes.now }
    requires frames { AllByRecursion (IsSoundFrame (length course.now.phases.now))
        frames.old.items }
    ensures only { OnlyVariables state.old state.new }
    ensures frames { IfOk result
        (λ _. AllByRecursion (IsSoundFrame (length course.now.phases.now)) frames.new.items) }
    ensures place { IfOk result (λ at. IsEarlier (length course.now.phases.now) at) }
    ensures goes { IfOk result (λ at. GoesOn course.now at state.old state.new
        frames.old.items frames.new.items holds) }
{
    while let Some(frame) = frames.pop() {
        match follow(course, state, frames, frame, holds)? {
            Some(at) => return Ok(Some(at)),
            None => {}
        }
    }
    Ok(None)
}

/// Does the block of a phase, and goes on to the next one. Gives the phase of that, if there is one,
/// in `next`.
fn run_next(
    scene: &StepContext<'_>,
    course: &Course<'_>,
    state: &mut StepState,
    frames: &mut Vec<Frame>,
    at: usize,
    next: &mut Option<usize>,
) -> Result<(), StepStop>
    requires scene { IsScene scene.now }
    requires ready { IsReadyState scene.now state.old }
    requires course { IsSoundCourse (course_seen scene.now course.now) }
    requires frames { AllByRecursion (IsSoundFrame (length course.now.phases.now))
        frames.old.items }
    requires there { at < length course.now.phases.now }
    ensures ready { IsReadyState scene.now state.new }
    ensures back { KeepsBack state.old state.new }
    ensures frames { IfOk result
        (λ _. AllByRecursion (IsSoundFrame (length course.now.phases.now)) frames.new.items) }
    ensures place { IfOk result (λ _. IsEarlier (length course.now.phases.now) next.new) }
    ensures runs { RunsNext scene.now course.now state.old (which result next.new) state.new at
        frames.old.items frames.new.items }
{
    let holds = run_block(scene, course, state, at)?;
    *next = go_on(course, state, frames, holds)?;
    Ok(())
}

/// Does the block of a phase, and goes on to the next one, which it gives in `next`. After a stop the
/// variables are as before, and only the frames and `next` are not.
pub fn advance(
    scene: &StepContext<'_>,
    course: &Course<'_>,
    state: &mut StepState,
    frames: &mut Vec<Frame>,
    at: usize,
    next: &mut Option<usize>,
) -> Result<(), StepStop>
    requires scene { IsScene scene.now }
    requires rested { IsRested scene.now state.old }
    requires course { IsSoundCourse (course_seen scene.now course.now) }
    requires frames { AllByRecursion (IsSoundFrame (length course.now.phases.now))
        frames.old.items }
    requires there { at < length course.now.phases.now }
    ensures ready { IsReadyState scene.now state.new }
    ensures back { BackIfStopped result state.old state.new }
    ensures frames { IfOk result
        (λ _. AllByRecursion (IsSoundFrame (length course.now.phases.now)) frames.new.items) }
    ensures place { IfOk result (λ _. IsEarlier (length course.now.phases.now) next.new) }
    ensures advances { Advances scene.now course.now state.old (which result next.new) state.new at
        frames.old.items frames.new.items }
{
    state.writes.clear();
    state.changes.clear();
    match run_next(scene, course, state, frames, at, next) {
        Ok(()) => Ok(()),
        Err(stop) => {
            undo(state.variables.as_mut_slice(), state.changes.as_slice());
            release(state.banks.as_mut_slice());
            Err(stop)
        }
    }
}

/// Makes writes to memories, in order.
pub fn make_writes(alloc: Global, memories: &mut Memories, writes: &[Write])
    ensures { memories.new ≡ memories_written writes.now memories.old }
{
    if writes.is_empty() {
        return;
    }
    let held = mem::replace(memories, Memories::new(Vec::new(alloc)));
    let mut lists = held.into_lists();
    write_all(&mut lists, writes);
    *memories = Memories::new(lists);
}
