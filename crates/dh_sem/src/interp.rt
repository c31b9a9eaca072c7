//! A run of a typed program, step by step.

ghost use Rattle.std.specs.Prelude.{◌≡◌, ◌-◌, ◌<◌, ◌^◌, IfOk};
ghost use Rattle.dh_tree.specs.Memories.{table_of};
ghost use Rattle.dh_tree.specs.Seen.{program_seen};
ghost use Rattle.dh_tree.specs.Shapes.{IsProgramTable};
ghost use Rattle.dh_tree.specs.Tables.{Fits};
ghost use Rattle.dh_sem.specs.Runnable.{IsRunnable};
ghost use Rattle.dh_sem.specs.Runs.{StandsAt, StepsOn, place_outcome};
ghost use Rattle.dh_sem.specs.Steps.{stop_outcome};

use crate::holding::MadeRun;
use crate::phases::Frame;
use crate::starting::begin;
use crate::stepping::{Course, advance, make_writes};
use dh_base::{NoMemory, Outcome};
use dh_code::{StepContext, StepState, StepStop};
use dh_tree::{MemEntry, Memories, Typed};
use std::alloc::Global;
use std::marker::Model;
use std::mem;

/// A program in a run, after a number of logical steps.
#[derive(Drop)]
pub struct Interp<'a> {
    alloc: Global,
    entries: &'a [MemEntry],
    // by memory the number of its first bank
    firsts: Vec<usize>,
    // the code, the phases of the program and the paths at which they are done
    made: MadeRun,
    // what is still to come behind the next block
    frames: Vec<Frame>,
    // where a step works out what is to come after it
    spare: Vec<Frame>,
    state: StepState,
    memories: Memories,
    steps: u64,
    // the phase of the next block, if there is one
    place: Option<usize>,
    outcome: Outcome,
}

impl<'a> Model for Interp<'a> {
    ghost use Rattle.dh_sem.specs.Runs.{InterpreterState, IsSteady};

    ghost Value = { InterpreterState };

    ghost view = { λ i. record {
      table = i.entries.now;
      course = record {
        code = i.made.code;
        phases = i.made.phases.items;
        lanes = i.made.lanes.items;
      };
      outcome = i.outcome;
      steps = i.steps;
      memories = i.memories;
      slots = i.state.variables.items;
      place = i.place;
      frames = i.frames.items;
    } };

    ghost invariant = { λ i. IsSteady (record {
      table = i.entries.now;
      course = record {
        code = i.made.code;
        phases = i.made.phases.items;
        lanes = i.made.lanes.items;
      };
      outcome = i.outcome;
      steps = i.steps;
      memories = i.memories;
      slots = i.state.variables.items;
      place = i.place;
      frames = i.frames.items;
    })
        i.state.given.items i.state.banks.items i.firsts.items };
}

/// The outcome where there is a next block, or none.
fn outcome_at(place: Option<usize>) -> Outcome
    ensures { result ≡ place_outcome place }
{
    match place {
        Some(_) => Outcome::Going,
        None => Outcome::Ended,
    }
}

/// The outcome at a stop; None at want of memory.
fn stopped_at(stop: StepStop) -> Option<Outcome>
    ensures { result ≡ stop_outcome stop }
{
    match stop {
        StepStop::At(outcome) => Some(outcome),
        StepStop::NoMemory => None,
    }
}

impl<'a> Interp<'a> {
    /// The program before its first step, with these memories.
    ///
    /// # Errors
    ///
    /// `NoMemory` where an allocation was refused.
    pub fn new(
        alloc: Global,
        program: &'a Typed,
        memories: Memories,
    ) -> Result<Interp<'a>, NoMemory>
        requires table { IsProgramTable (table_of (program_seen program.now)) }
        requires runnable { IsRunnable (program_seen program.now) }
        requires fits { Fits (table_of (program_seen program.now)) memories }
        ensures { IfOk result (λ i. StandsAt (program_seen program.now) memories 0 i) }
    {
        let entries = program.memories().as_slice();
        match begin(alloc, program) {
            Ok(begun) => Ok(Interp {
                alloc,
                entries,
                firsts: begun.firsts,
                made: begun.made,
                frames: begun.frames,
                spare: Vec::new(alloc),
                state: begun.state,
                memories,
                steps: 0,
                place: begun.place,
                outcome: outcome_at(begun.place),
            }),
            Err(fault) => Err(fault),
        }
    }

    /// Does the next logical step, where there is one, and tells the outcome then. After want of
    /// memory everything is as before.
    ///
    /// # Errors
    ///
    /// `NoMemory` where an allocation was refused, which a run that goes on alone asks for.
    pub fn step(&mut self) -> Result<Outcome, NoMemory>
        requires steps { self.old.steps < 2 ^ 64 - 1 }
        ensures { StepsOn self.old result self.new }
    {
        let Outcome::Going = self.outcome else {
            return Ok(self.outcome);
        };
        let Some(at) = self.place else {
            return Ok(self.outcome);
        };
        let scene = StepContext {
            alloc: self.alloc,
            code: &self.made.code,
            entries: self.entries,
            firsts: self.firsts.as_slice(),
            memories: self.memories.lists(),
            step: self.steps + 1,
        };
        let course = Course {
            phases: self.made.phases.as_slice(),
            lanes: self.made.lanes.as_slice(),
        };
        self.spare.clear();
        self.spare.extend_from_slice(self.frames.as_slice())?;
        let mut next = None;
        match advance(
            &scene,
            &course,
            &mut self.state,
            &mut self.spare,
            at,
            &mut next,
        ) {
            Ok(_) => {
                make_writes(self.alloc, &mut self.memories, self.state.writes.as_slice());
                mem::swap(&mut self.frames, &mut self.spare);
                self.steps += 1;
                self.place = next;
                self.outcome = outcome_at(next);
                Ok(self.outcome)
            }
            Err(stop) => match stopped_at(stop) {
                Some(outcome) => {
                    self.outcome = outcome;
                    Ok(outcome)
                }
                None => Err(NoMemory),
            },
        }
    }

    /// How the run stands.
    pub fn outcome(&self) -> Outcome
        ensures { result ≡ self.now.outcome }
    {
        self.outcome
    }

    /// How many logical steps were done.
    pub fn steps(&self) -> u64
        ensures { result ≡ self.now.steps }
    {
        self.steps
    }

    /// The memories as they stand.
    pub fn memories(&self) -> &Memories
        ensures { result.now ≡ self.now.memories }
    {
        &self.memories
    }
}
