//! The first read of each class of which all arms are open.

ghost use Rattle.std.specs.Prelude.{◌≡◌, ℕ, ◌<◌, IfOk, OnOk, None, length};
ghost use Rattle.dh_lengths.specs.LiveFirsts.{cleared, arm_closed, first_read_at, live_first, met_read, none_read, opened, FirstsAre};

use dh_base::NoMemory;
use std::alloc::Global;
use std::mem;

/// Of each class the first read of which all arms are open, which later ones share.
#[derive(Drop)]
pub struct Live {
    /// The number of that read, by the number of its class.
    pub firsts: Vec<Option<usize>>,
    /// The classes of those reads that stand in the innermost open arm itself.
    pub log: Vec<usize>,
    /// The same of the arms round it and of what is outside all arms, from the outside.
    pub outer: Vec<Vec<usize>>,
}

/// Forgets the reads of classes.
#[tactic(auto, using(crate::proofs::LiveTurns::forget_turn))]
fn forget(firsts: &mut [Option<usize>], classes: &[usize])
    ensures gone { (class : ℕ) → live_first firsts.new class
        ≡ cleared classes.now class (live_first firsts.old class) }
    ensures long { length firsts.new ≡ length firsts.old }
{
    for class in classes {
        let class = *class;
        if class < firsts.len() {
            firsts[class] = None;
        }
    }
}

/// So many classes of which nothing was read.
fn no_reads(alloc: Global, classes: usize) -> Result<Vec<Option<usize>>, NoMemory>
    ensures none { IfOk result (λ firsts. (class : ℕ) → live_first firsts.items class ≡ None) }
    ensures long { IfOk result (λ firsts. length firsts.items ≡ classes) }
{
    let mut firsts = Vec::new(alloc);
    for _ in 0..classes {
        firsts.push(None)?;
    }
    Ok(firsts)
}

impl Live {
    /// Nothing was read of so many classes, and no arm is open.
    pub fn new(alloc: Global, classes: usize) -> Result<Live, NoMemory>
        ensures none { IfOk result (λ live. (class : ℕ) → first_read_at live class
            ≡ none_read class) }
        ensures long { IfOk result (λ live. length live.firsts.items ≡ classes) }
    {
        let firsts = no_reads(alloc, classes)?;
        Ok(Live {
            firsts,
            log: Vec::new(alloc),
            outer: Vec::new(alloc),
        })
    }

    /// A read of a class and its own number: the earlier one that it shares. Where there is none, it
    /// may be shared itself.
    pub fn read(&mut self, class: usize, number: usize) -> Result<Option<usize>, NoMemory>
        requires within { class < length self.old.firsts.items }
        ensures shared { IfOk result (λ shared. shared ≡ (first_read_at self.old class).now) }
        ensures met { OnOk result (FirstsAre self.old self.new
            (λ other f. met_read class number other f)) }
        ensures long { OnOk result (length self.new.firsts.items ≡ length self.old.firsts.items) }
    {
        let earlier = self.firsts[class];
        if earlier.is_none() {
            self.log.push(class)?;
            self.firsts[class] = Some(number);
        }
        Ok(earlier)
    }

    /// An arm begins.
    pub fn begin(&mut self, alloc: Global) -> Result<(), NoMemory>
        ensures opened { OnOk result (FirstsAre self.old self.new (λ class f. opened f)) }
        ensures long { OnOk result (length self.new.firsts.items ≡ length self.old.firsts.items) }
    {
        let log = mem::replace(&mut self.log, Vec::new(alloc));
        Ok(self.outer.push(log)?)
    }

    /// The innermost open arm ends, and what was read in it is shared no more.
    pub fn end(&mut self)
        ensures closed { FirstsAre self.old self.new (λ class f. arm_closed f) }
        ensures long { length self.new.firsts.items ≡ length self.old.firsts.items }
    {
        let Some(log) = self.outer.pop() else {
            return;
        };
        forget(self.firsts.as_mut_slice(), self.log.as_slice());
        self.log = log;
    }
}
