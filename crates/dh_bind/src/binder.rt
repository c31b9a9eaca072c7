//! The binder: it takes the tokens of ports that accesses were granted, and gives operations their ports.

ghost use Rattle.std.specs.Prelude.{◌≡◌, ◌+◌, ◌<◌, ◌≤◌, ◌*◌, ◌^◌, IfOk, length, replicate};
ghost use Rattle.dh_plan.specs.Passes.{Drives};
ghost use Rattle.dh_plan.specs.SeenPlans.{plan_seen};
ghost use Rattle.dh_plan.specs.SoundPlans.{IsFormed};
ghost use Rattle.dh_bind.specs.Drafts.{put_first};

use crate::operations::{rows_needed, width_needed};
use crate::pairs::push_pairs;
use crate::tables::{nothing, places};
use dh_base::{Items, NoMemory};
use dh_ledger::Token;
use dh_plan::Plan;
use std::alloc::Global;
use std::marker::Model;

/// Ports of the operations of a plan, under construction.
#[derive(Drop)]
pub struct Binder<'a> {
    plan: &'a Plan,
    // one more than the greatest bank that an operation lists
    wide: usize,
    // of each access a row of so many banks, each with the first port that it was granted there
    firsts: Vec<Option<u32>>,
}

impl<'a> Model for Binder<'a> {
    ghost use Rattle.std.specs.Coded.{codes};
    ghost use Rattle.dh_plan.specs.contracts.plans.Node as node;
    ghost use Rattle.dh_plan.specs.contracts.plans.Meets as meets;
    ghost use Rattle.dh_bind.specs.Drafts.{Draft, IsKept};

    ghost Value = { Draft };

    ghost coded = { Prim.hlevel (codes, node.the_row.coded, meets.the_row.coded) };

    ghost view = { λ b. record { plan = b.plan.now; firsts = b.firsts.items } };

    ghost invariant = { λ b. IsKept b.wide (record { plan = b.plan.now; firsts = b.firsts.items }) };
}

impl<'a> Binder<'a> {
    ghost use Rattle.std.specs.Prelude.{[], None};
    ghost use Rattle.dh_bind.specs.Drafts.{draft_uses, draft_access_count, granted_at, all_operations, operations_rows, draft_width, first_at, PortsFit};

    /// A binder of a plan, in which no operation has a port.
    pub fn new(alloc: Global, plan: &'a Plan) -> Result<Binder<'a>, NoMemory>
        requires { IsFormed (plan_seen plan.now) }
        ensures of { IfOk result (λ b. b.plan ≡ plan.now) }
        ensures none { IfOk result (λ b. b.firsts ≡ replicate (draft_access_count b * draft_width b) None) }
    {
        let blocks = plan.blocks.as_slice();
        let wide = width_needed(blocks);
        let firsts = nothing(alloc, places(rows_needed(blocks), wide))?;
        Ok(Binder { plan, wide, firsts })
    }

    /// Gives each operation of the access that can reach the token's bank the port that its place there says, from
    /// the token's first one on. All else stays.
    pub fn drive(&mut self, token: Token, access: u32)
        requires access { access < draft_access_count self.old }
        requires bank { token.bank < 64 }
        ensures drives { Drives (plan_seen self.old.plan) access token.memory token.bank token.first
            (draft_uses self.old) (draft_uses self.new) }
        ensures granted { self.new ≡ granted_at self.old access token.bank token.first }
    {
        let (_memory, bank, first, _count) = token.end();
        set_first(&mut self.firsts, self.wide, access, bank, first);
    }

    /// The bank and port pairs of each operation of the plan.
    pub fn ports(self, alloc: Global) -> Result<Items<Items<(u32, u32)>>, NoMemory>
        requires { PortsFit self }
        ensures { IfOk result (λ all. all ≡ (draft_uses self.entry).ports) }
    {
        let Binder { plan, wide, firsts } = self;
        let mut all = Items::with_room(alloc, plan.operation_count())?;
        for block in plan.blocks.as_slice() {
            push_pairs(
                alloc,
                wide,
                firsts.as_slice(),
                block.operations.as_slice(),
                &mut all,
            )?;
        }
        Ok(all)
    }
}

/// Notes a first port, where the bank has a place in a row.
fn set_first(firsts: &mut Vec<Option<u32>>, wide: usize, access: u32, bank: u32, first: u32)
    requires wide { wide ≤ 64 }
    requires row { access * wide + wide ≤ length firsts.old.items }
    ensures { firsts.new.items ≡ put_first wide firsts.old.items access bank first }
{
    if (bank as usize) < wide {
        firsts[places(access as usize, wide) + bank as usize] = Some(first);
    }
}
