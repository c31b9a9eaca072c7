//! What is left of some slots, while steps are taken.

ghost use Rattle.std.specs.Prelude.{◌≡◌, [], ℕ, ◌≤◌, ◌+◌, IfOk, length, slice_index};
ghost use Rattle.dh_ports.specs.Levels.{level_at, start, taken, begun, kept_back, gone_back, advance, left_before, LevelsKept, SettlesLevels, Turns};

use crate::marks::{SlotMark, lower, note_lows, undo};
use dh_base::NoMemory;
use std::alloc::Global;
use std::mem;

/// A step that concerns slots.
#[derive(Clone, Copy)]
pub enum Step {
    /// It concerns none.
    Other,
    /// An access of a slot, which takes so much of what is left there.
    Access {
        /// The slot.
        slot: usize,
        /// How much it takes.
        takes: usize,
    },
    /// Here parts begin, each of which starts from what is left here.
    Begin,
    /// The next of these parts begins.
    Next,
    /// They end. Of each slot the least that a part left is left.
    End,
    /// A part ends, and all that it took is given back.
    Back,
}

/// What is noted of the parts round the present one.
#[derive(Drop)]
pub struct PartFrame {
    /// What was left before each change in the part.
    pub log: Vec<SlotMark>,
    /// What the parts before it left.
    pub lows: Vec<SlotMark>,
}

/// What is left of each slot, with what is noted of the present part and of those round it.
#[derive(Drop)]
pub struct Levels {
    /// What is left.
    pub left: Vec<usize>,
    /// What was left before each change in the present part.
    pub log: Vec<SlotMark>,
    /// What the parts beside it and before it left.
    pub lows: Vec<SlotMark>,
    /// The parts round it, from the outside.
    pub outer: Vec<PartFrame>,
    /// The lists of parts that ended, for parts to come: what stands in them counts for nothing.
    pub spare: Vec<PartFrame>,
}

/// The lists of a part of which nothing is noted: those of one that ended, where there are some.
fn blank(alloc: Global, spare: &mut Vec<PartFrame>) -> PartFrame
    ensures log { result.log.items ≡ [] }
    ensures lows { result.lows.items ≡ [] }
{
    match spare.pop() {
        Some(frame) => {
            let PartFrame { mut log, mut lows } = frame;
            log.clear();
            lows.clear();
            PartFrame { log, lows }
        }
        None => PartFrame {
            log: Vec::new(alloc),
            lows: Vec::new(alloc),
        },
    }
}

impl Levels {
    /// So much is left of each slot, and no part is begun.
    pub fn new(alloc: Global, left: Vec<usize>) -> Levels
        ensures kept { LevelsKept result }
        ensures starts { (s : ℕ) → level_at result s ≡ start (slice_index left.items s) }
    {
        Levels {
            left,
            log: Vec::new(alloc),
            lows: Vec::new(alloc),
            outer: Vec::new(alloc),
            spare: Vec::new(alloc),
        }
    }

    /// Takes so much of a slot, as far as it is there.
    #[inline(never)]
    fn take(&mut self, slot: usize, takes: usize) -> Result<(), NoMemory>
        requires kept { LevelsKept self.old }
        ensures kept { IfOk result (λ _. LevelsKept self.new) }
        ensures taken { IfOk result (λ _. Turns self.old self.new (λ s l. taken slot takes s l)) }
        ensures few { IfOk result (λ _. length self.new.log.items ≤ length self.old.log.items + 1) }
    {
        if slot < self.left.len() {
            let left = self.left[slot];
            if left > 0 {
                self.log.push(SlotMark { slot, left })?;
                self.left[slot] = left.saturating_sub(takes);
            }
        }
        Ok(())
    }

    /// Begins parts.
    #[inline(never)]
    fn begin(&mut self, alloc: Global) -> Result<(), NoMemory>
        requires kept { LevelsKept self.old }
        ensures kept { IfOk result (λ _. LevelsKept self.new) }
        ensures begun { IfOk result (λ _. Turns self.old self.new (λ s l. begun l)) }
    {
        let PartFrame { log, lows } = blank(alloc, &mut self.spare);
        let outer_log = mem::replace(&mut self.log, log);
        let outer_lows = mem::replace(&mut self.lows, lows);
        self.outer.push(PartFrame {
            log: outer_log,
            lows: outer_lows,
        })?;
        Ok(())
    }

    /// Gives back what the present part took, and notes what it left.
    #[inline(never)]
    fn give_back(&mut self) -> Result<(), NoMemory>
        requires kept { LevelsKept self.old }
        ensures kept { IfOk result (λ _. LevelsKept self.new) }
        ensures back { IfOk result (λ _. Turns self.old self.new (λ s l. kept_back l)) }
    {
        note_lows(self.left.as_slice(), self.log.as_slice(), &mut self.lows)?;
        undo(&mut self.left, self.log.as_slice());
        self.log.clear();
        Ok(())
    }

    /// Ends parts of which the last was given back.
    #[inline(never)]
    fn settle(&mut self) -> Result<(), NoMemory>
        requires kept { LevelsKept self.old }
        ensures kept { IfOk result (λ _. LevelsKept self.new) }
        ensures settled { IfOk result (λ _. SettlesLevels self.old self.new) }
    {
        let Some(frame) = self.outer.pop() else {
            return Ok(());
        };
        let PartFrame { mut log, lows } = frame;
        lower(&mut self.left, self.lows.as_slice(), &mut log)?;
        let ended_log = mem::replace(&mut self.log, log);
        let ended_lows = mem::replace(&mut self.lows, lows);
        self.spare.push(PartFrame {
            log: ended_log,
            lows: ended_lows,
        })?;
        Ok(())
    }

    /// Ends a part, of which nothing stays.
    #[inline(never)]
    fn back(&mut self) -> Result<(), NoMemory>
        requires kept { LevelsKept self.old }
        ensures kept { IfOk result (λ _. LevelsKept self.new) }
        ensures gone { IfOk result (λ _. Turns self.old self.new (λ s l. gone_back l)) }
    {
        undo(&mut self.left, self.log.as_slice());
        let Some(frame) = self.outer.pop() else {
            self.log.clear();
            return Ok(());
        };
        let PartFrame { log, lows } = frame;
        let ended_log = mem::replace(&mut self.log, log);
        let ended_lows = mem::replace(&mut self.lows, lows);
        self.spare.push(PartFrame {
            log: ended_log,
            lows: ended_lows,
        })?;
        Ok(())
    }

    /// Takes a step.
    #[inline(always)]
    pub fn step(&mut self, alloc: Global, step: Step) -> Result<(), NoMemory>
        requires kept { LevelsKept self.old }
        ensures kept { IfOk result (λ _. LevelsKept self.new) }
        ensures stepped { IfOk result (λ _. Turns self.old self.new (λ s l. advance s step l)) }
    {
        match step {
            Step::Other => Ok(()),
            Step::Access { slot, takes } => {
                if takes > 0 {
                    self.take(slot, takes)?;
                }
                Ok(())
            }
            Step::Begin => self.begin(alloc),
            Step::Next => self.give_back(),
            Step::End => {
                self.give_back()?;
                self.settle()
            }
            Step::Back => self.back(),
        }
    }

    /// What is left where a step accesses a slot; 0 where it accesses none.
    pub fn left_at(&self, step: Step) -> usize
        ensures { result ≡ left_before step (λ s. level_at self.now s) }
    {
        match step {
            Step::Access { slot, .. } => {
                if slot < self.left.len() {
                    self.left[slot]
                } else {
                    0
                }
            }
            Step::Other | Step::Begin | Step::Next | Step::End | Step::Back => 0,
        }
    }
}
