//! The walk of the tree of accesses: each access is granted, of each bank that it charges, ports behind those of what
//! stands before it and may meet it. The parts of an All go one behind the other. Each part of a One begins where the
//! whole begins, and the whole ends at the greatest end. One walk serves all banks, and a log says how to come back.

ghost use Rattle.std.specs.Prelude.{◌≡◌, ℕ, ◌<◌, ◌≤◌, IfOk, OnOk, Some, length};
ghost use Rattle.dh_plan.specs.Passes.{MayBind};
ghost use Rattle.dh_plan.specs.SeenPlans.{plan_seen};
ghost use Rattle.dh_bind.specs.Ledgers.{AreMarks, Rises};

use crate::binder::Binder;
use crate::costs::{CostTables, costs_of};
use crate::ledgers::{LedgerMark, back_to, grant_in, ledgers_of, note_ends, rise_in};
use crate::tables::places;
use dh_base::{Items, NoMemory};
use dh_ledger::{CountLedger, Ledger};
use dh_plan::Plan;
use std::alloc::Global;
use std::marker::Model;

/// Why a walk stops.
#[derive(Clone, Copy)]
pub enum WalkStop {
    /// Want of memory.
    NoMemory,
    /// A bank is charged beyond its ports.
    Full,
}

/// A walk with what it knows of accesses, where ledgers stand, and the ports that were granted.
#[derive(Drop)]
pub struct Walker<'a> {
    binder: Binder<'a>,
    wide: usize,
    memories: Vec<Option<u32>>,
    counts: Vec<u32>,
    ledgers: Vec<CountLedger>,
    log: Vec<LedgerMark>,
}

impl<'a> Model for Walker<'a> {
    ghost use Rattle.std.specs.Coded.{codes};
    ghost use Rattle.dh_plan.specs.contracts.plans.Node as node;
    ghost use Rattle.dh_plan.specs.contracts.plans.Meets as meets;
    ghost use Rattle.dh_bind.specs.Costs.{costs_in};
    ghost use Rattle.dh_bind.specs.Standings.{Standing, IsStanding};

    ghost Value = { Standing };

    ghost coded = { Prim.hlevel (codes, node.the_row.coded, meets.the_row.coded) };

    ghost view = { λ w. record {
      costs = costs_in w.wide w.memories.items w.counts.items;
      ledgers = w.ledgers.items;
      log = w.log.items;
      draft = w.binder;
    } };

    ghost invariant = { λ w. IsStanding (record {
      costs = costs_in w.wide w.memories.items w.counts.items;
      ledgers = w.ledgers.items;
      log = w.log.items;
      draft = w.binder;
    }) };
}

impl<'a> Walker<'a> {
    ghost use Rattle.dh_bind.specs.Costs.{memory_of_access};
    ghost use Rattle.dh_bind.specs.Standings.{ChargesBank, TakenBack, KeepsCostsAndPlan, IsBegun, log_marked};
    ghost use Rattle.dh_bind.specs.Drafts.{PortsFit, draft_uses};

    /// A walk of which nothing is done yet.
    pub(crate) fn new(alloc: Global, plan: &'a Plan) -> Result<Walker<'a>, NoMemory>
        requires { MayBind (plan_seen plan.now) }
        ensures { IfOk result (λ w. IsBegun plan.now w) }
    {
        let CostTables {
            wide,
            memories,
            counts,
        } = costs_of(alloc, plan)?;
        let binder = Binder::new(alloc, plan)?;
        let ledgers = ledgers_of(alloc, plan.table.as_slice())?;
        Ok(Walker {
            binder,
            wide,
            memories,
            counts,
            ledgers,
            log: Vec::new(alloc),
        })
    }

    /// The ports that were granted, for each operation.
    pub(crate) fn ports(self, alloc: Global) -> Result<Items<Items<(u32, u32)>>, NoMemory>
        requires { PortsFit self.draft }
        ensures { IfOk result (λ all. all ≡ (draft_uses self.entry.draft).ports) }
    {
        let Walker {
            binder,
            wide: _,
            memories: _,
            counts: _,
            ledgers: _,
            log: _,
        } = self;
        binder.ports(alloc)
    }

    /// The memory of an access, where an operation uses it.
    pub(crate) fn memory_of(&self, access: u32) -> Option<u32>
        ensures memory { result ≡ memory_of_access self.now.costs.memories access }
        ensures row { (memory : ℕ) → result ≡ Some memory
            → access < length self.now.costs.memories }
        ensures inside { (memory : ℕ) → result ≡ Some memory → memory < length self.now.ledgers }
    {
        let at = access as usize;
        let memories = self.memories.as_slice();
        if at < memories.len() {
            memories[at]
        } else {
            None
        }
    }

    /// One more than the greatest bank that an operation lists; no access charges a bank from this one on.
    pub(crate) fn width(&self) -> u32
        ensures { result ≡ self.now.costs.wide }
    {
        self.wide as u32
    }

    /// Logs where a memory's ledger stands.
    pub(crate) fn note(&mut self, memory: u32) -> Result<(), NoMemory>
        requires { memory < length self.old.ledgers }
        ensures { OnOk result (self.new ≡ log_marked self.old memory) }
    {
        let state = self.ledgers[memory as usize].mark();
        self.log.push(LedgerMark { memory, state })?;
        Ok(())
    }

    /// Grants an access the ports that it charges on a bank.
    pub(crate) fn charge_bank(
        &mut self,
        access: u32,
        memory: u32,
        bank: u32,
    ) -> Result<(), WalkStop>
        requires row { access < length self.old.costs.memories }
        requires memory { memory < length self.old.ledgers }
        requires bank { bank < self.old.costs.wide }
        ensures { ChargesBank access memory bank self.old self.new result }
    {
        let count = self.counts[places(access as usize, self.wide) + bank as usize];
        if count == 0 {
            return Ok(());
        }
        match grant_in(&mut self.ledgers, memory, bank, count) {
            Ok(token) => {
                self.binder.drive(token, access);
                Ok(())
            }
            Err(_) => Err(WalkStop::Full),
        }
    }

    /// How much is logged.
    pub(crate) fn logged(&self) -> usize
        ensures { result ≡ length self.now.log }
    {
        self.log.len()
    }

    /// Takes back all that was logged since, and notes where it ended.
    pub(crate) fn take_back(
        &mut self,
        begun: usize,
        ends: &mut Vec<LedgerMark>,
    ) -> Result<(), NoMemory>
        requires { begun ≤ length self.old.log }
        ensures { OnOk result (TakenBack begun self.old self.new ends.old.items ends.new.items) }
    {
        note_ends(self.ledgers.as_slice(), &self.log.as_slice()[begun..], ends)?;
        back_to(&mut self.ledgers, &mut self.log, begun);
        Ok(())
    }

    /// Raises each bank to the greatest of the ends.
    pub(crate) fn raise(&mut self, ends: &[LedgerMark]) -> Result<(), NoMemory>
        requires { AreMarks self.old.ledgers ends.now }
        ensures rises { OnOk result
            (Rises ends.now self.old.ledgers self.new.ledgers self.old.log self.new.log) }
        ensures costs { self.new.costs ≡ self.old.costs }
        ensures draft { self.new.draft ≡ self.old.draft }
    {
        rise_in(&mut self.ledgers, ends, &mut self.log)
    }
}
