//! The phases of a program as a run goes along them: each with its code, held in one list.

ghost use Rattle.std.specs.Prelude.{◌≡◌, IfOk, map};
ghost use Rattle.dh_phases.specs.GatheredPhases.{all_gathered, header_seen, phase_seen, phases_seen};
ghost use Rattle.dh_sem.specs.Held.{FixesForm, HoldsAll, HoldsList, turns_counted};
ghost use Rattle.dh_sem.specs.Lanes.{LeadsInside, MoreLanes};

use crate::lanes::{Lanes, inside};
use crate::phases::{HeldPhase, PhaseForm, Turns};
use dh_base::NoMemory;
use dh_code::{Code, Names, VariableSlots, flat, flatten_commands, place_of};
use dh_phases::{NumberedCommand, Phase, gather};
use dh_tree::{Command, LoopHeader};
use std::alloc::Global;

/// What is made of a program.
pub struct MadeRun {
    /// The code of its commands.
    pub code: Code,
    /// Its phases.
    pub phases: Vec<HeldPhase>,
    /// The paths at which they are done.
    pub lanes: Vec<Lanes>,
}

/// A call, and not the drop of each list where it is dropped: that would stand in the proof of each such
/// function.
impl Drop for MadeRun {
    fn drop(self) {
        let MadeRun {
            code: _code,
            phases: _phases,
            lanes: _lanes,
        } = self;
    }
}

/// The number of the lanes inside a loop; where those outside are not there, it is theirs.
fn lanes_inside(
    alloc: Global,
    lanes: &mut Vec<Lanes>,
    outside: usize,
    factor: u64,
) -> Result<usize, NoMemory>
    ensures more { IfOk result (λ number. MoreLanes lanes.old.items lanes.new.items) }
    ensures lead { IfOk result
        (λ number. LeadsInside lanes.old.items lanes.new.items outside factor number) }
{
    if outside < lanes.len() {
        inside(alloc, lanes, outside, factor)
    } else {
        Ok(outside)
    }
}

/// Commands without their numbers.
fn unnumbered<'a>(
    alloc: Global,
    numbered: &[NumberedCommand<'a>],
) -> Result<Vec<&'a Command>, NoMemory>
    ensures { IfOk result (λ commands. commands.items ≡ map (λ c. c.command) numbered.now) }
{
    let mut commands = Vec::new(alloc);
    for each in numbered {
        commands.push(each.command)?;
    }
    Ok(commands)
}

/// So many turns of a `for` whose body is held.
fn counted_turns(
    places: &[VariableSlots],
    header: &LoopHeader,
    count: u64,
    body: Option<usize>,
    within: usize,
) -> Turns
    ensures { result ≡ turns_counted places.now (header_seen header.now) count body within }
{
    let held = place_of(places, &header.iterator);
    Turns {
        first: held.first,
        depth: held.depth,
        low: header.low,
        factor: header.factor,
        count,
        body,
        inside: within,
    }
}

/// A phase with its code, done at these paths. The phases inside it are held.
#[cycle(holding)]
fn fixed(
    names: &Names<'_>,
    made: &mut MadeRun,
    paths: usize,
    phase: &Phase<'_>,
) -> Result<PhaseForm, NoMemory>
    ensures { IfOk result (λ form. FixesForm names.now paths made.old made.new
        (phase_seen phase.now) form) }
{
    match phase {
        Phase::Straight { commands } => {
            let commands = unnumbered(names.alloc, commands.as_slice())?;
            let list = flatten_commands(names, &mut made.code, commands.as_slice())?;
            Ok(PhaseForm::Straight { list })
        }
        Phase::Turns {
            header,
            count,
            body,
            ..
        } => {
            let within = lanes_inside(names.alloc, &mut made.lanes, paths, header.factor)?;
            let body = hold(names, made, within, body.as_slice())?;
            let turns = counted_turns(names.places, header, *count, body, within);
            Ok(PhaseForm::Turns { turns })
        }
        Phase::Loop { test, body, .. } => {
            let test = flat(names, &mut made.code, test)?;
            let body = hold(names, made, paths, body.as_slice())?;
            Ok(PhaseForm::Loop { test, body })
        }
        Phase::Choice {
            test,
            then,
            other,
            ..
        } => {
            let test = flat(names, &mut made.code, test)?;
            let chosen = hold(names, made, paths, then.as_slice())?;
            let other = hold(names, made, paths, other.as_slice())?;
            Ok(PhaseForm::Choice {
                test,
                chosen,
                other,
            })
        }
    }
}

/// Holds a list of phases, done at these paths, from its last one on. Gives its first one, if it has
/// one.
#[cycle(holding)]
fn hold(
    names: &Names<'_>,
    made: &mut MadeRun,
    paths: usize,
    phases: &[Phase<'_>],
) -> Result<Option<usize>, NoMemory>
    ensures { IfOk result (λ first. HoldsList names.now paths made.old made.new
        (all_gathered (phases_seen phases.now)) first) }
{
    let mut next = None;
    for i in (0..phases.len()).rev() {
        let form = fixed(names, made, paths, &phases[i])?;
        let at = made.phases.len();
        made.phases.push(HeldPhase { form, next, paths })?;
        next = Some(at);
    }
    Ok(next)
}

/// Holds the phases of a program's body. Gives the first of them.
pub fn hold_all(
    names: &Names<'_>,
    made: &mut MadeRun,
    command: &Command,
) -> Result<Option<usize>, NoMemory>
    ensures { IfOk result (λ first. HoldsAll names.now made.old made.new command.now first) }
{
    let phases = gather(names.alloc, command)?;
    hold(names, made, 0, phases.as_slice())
}
