//! Reads and writes of elements at one path: a probe, which has the fault of an access that is
//! out of range, and behind it the read or write. A read that an earlier path or access has made
//! is found again.

ghost use Rattle.std.specs.Prelude.{◌≡◌, ◌<◌, ◌++◌, ◌∷◌, [], length, if◌then◌else◌, IfOk, OnOk};
ghost use Rattle.dh_plan.specs.declared.operations.OperationForm.TheVariants.{Probe, Write};
ghost use Rattle.dh_tree.specs.Seen.{form_seen, term_seen};
ghost use Rattle.dh_tree.specs.Shapes.{most_banks};
ghost use Rattle.dh_viewing.specs.ReachedBanks.{is_in};
ghost use Rattle.dh_expressions.specs.Drafted.{Pushes};
ghost use Rattle.dh_expressions.specs.Evaluated.{given_before, lane_guard};
ghost use Rattle.dh_expressions.specs.MadeTerms.{MadeRead, MadeWrite};
ghost use Rattle.dh_expressions.specs.Named.{banks_below, banks_told, named_banks};
ghost use Rattle.dh_expressions.specs.Reaching.{Finds, ReadsAt, StoresAt, copy_banks, reach_told};

use crate::accesses::{Accesses, copy_of, fault_of, give, given_at, touch};
use crate::copies::AccessAt;
use crate::drafts::{Draft, push};
use crate::kinds::narrow;
use crate::naming::{banks_behind, way_in};
use crate::scenes::{Lane, Scene, guard_at};
use dh_base::{Items, NoMemory};
use dh_plan::{ApartReach, OperationForm, Reach, ReachStep};
use dh_tree::{Expr, ExprForm, Ref};
use dh_viewing::BankSet;
use std::alloc::Global;

/// Which element an access names.
#[derive(Drop)]
pub struct Aim {
    /// The values of its indices.
    pub indices: Items<u64>,
    /// The views on its way, the named one first, with the values of their offsets; none of an
    /// access of a memory.
    pub steps: Items<ReachStep>,
    /// The value of its row, where it names a bank.
    pub row: Option<u64>,
    /// The number of the access itself.
    pub number: u32,
}

/// No view.
pub fn no_steps(alloc: Global) -> Items<ReachStep>
    ensures { result ≡ [] }
{
    Items::new(alloc)
}

/// No bank.
fn no_banks(alloc: Global) -> Items<(u32, u32)>
    ensures { result ≡ [] }
{
    Items::new(alloc)
}

/// One bank, with the place of an access there.
fn one_bank(alloc: Global, bank: u32, place: u32) -> Result<Items<(u32, u32)>, NoMemory>
    ensures { IfOk result (λ banks. banks ≡ (bank, place) ∷ []) }
{
    let mut banks = no_banks(alloc);
    banks.push((bank, place))?;
    Ok(banks)
}

/// Adds a bank, where it is in a set.
fn add_bank(
    banks: &mut Items<(u32, u32)>,
    set: BankSet,
    bank: u32,
    place: u32,
) -> Result<(), NoMemory>
    requires { bank < most_banks }
    ensures { OnOk result (banks.new ≡ (if is_in set bank then banks.old ++ (bank, place) ∷ []
        else banks.old)) }
{
    if set.holds(bank) {
        banks.push((bank, place))?;
    }
    Ok(())
}

/// The banks of a set, each with the same place of an access there.
fn all_banks(alloc: Global, set: BankSet, place: u32) -> Result<Items<(u32, u32)>, NoMemory>
    ensures { IfOk result (λ banks. banks ≡ banks_below set place 64) }
{
    let mut banks = no_banks(alloc);
    for bank in 0..64 {
        add_bank(&mut banks, set, bank, place)?;
    }
    Ok(banks)
}

/// The banks that an access of what a name stands for can reach from a bank of that.
fn banks_named(
    scene: &Scene<'_>,
    of: &Ref,
    bank: u32,
    place: u32,
) -> Result<Items<(u32, u32)>, NoMemory>
    ensures { IfOk result (λ banks. banks ≡ named_banks scene.now of.now bank place) }
{
    match way_in(scene, of) {
        Some(_) => all_banks(scene.alloc, banks_behind(scene, of, bank), place),
        None => one_bank(scene.alloc, bank, place),
    }
}

/// The banks that an access can reach from a bank of what it names.
fn banks_of(
    scene: &Scene<'_>,
    access: &Expr,
    bank: u32,
    place: u32,
) -> Result<Items<(u32, u32)>, NoMemory>
    ensures { IfOk result (λ banks. banks ≡ banks_told scene.now (form_seen access.now.form) bank
        place) }
{
    match &access.form {
        ExprForm::Access { of, .. } => banks_named(scene, of, bank, place),
        ExprForm::Physical { .. } => one_bank(scene.alloc, bank, place),
        ExprForm::Number { .. } => one_bank(scene.alloc, bank, place),
        ExprForm::Truth { .. } => one_bank(scene.alloc, bank, place),
        ExprForm::Variable { .. } => one_bank(scene.alloc, bank, place),
        ExprForm::Binary { .. } => one_bank(scene.alloc, bank, place),
        ExprForm::Cast { .. } => one_bank(scene.alloc, bank, place),
    }
}

/// Adds a view that is another's with its offsets.
fn copy_step(alloc: Global, steps: &mut Items<ReachStep>, step: &ReachStep) -> Result<(), NoMemory>
    ensures { OnOk result (steps.new ≡ steps.old ++ step.now ∷ []) }
{
    let offsets = Items::from_vec(Vec::from_slice(alloc, step.offsets.as_slice())?);
    steps.push(ReachStep {
        view: step.view,
        offsets,
    })
}

/// Views with their offsets once more.
fn copy_steps(alloc: Global, steps: &[ReachStep]) -> Result<Items<ReachStep>, NoMemory>
    ensures { IfOk result (λ all. all ≡ steps.now) }
{
    let mut all = Items::new(alloc);
    for step in steps {
        copy_step(alloc, &mut all, step)?;
    }
    Ok(all)
}

/// An access of a memory by these values, that can reach these banks.
fn reach_of(
    scene: &Scene<'_>,
    memory: usize,
    aim: &Aim,
    banks: Items<(u32, u32)>,
) -> Result<ApartReach, NoMemory>
    ensures { IfOk result (λ r. r ≡ reach_told memory aim.now banks) }
{
    let indices = Items::from_vec(Vec::from_slice(scene.alloc, aim.indices.as_slice())?);
    let steps = copy_steps(scene.alloc, aim.steps.as_slice())?;
    let reach = Reach {
        access: aim.number,
        memory: narrow(memory as u64),
        indices,
        steps,
        banks,
        select: None,
        row: aim.row,
    };
    ApartReach::new(scene.alloc, reach)
}

/// Adds the fault of an access at a path, where it is out of range there.
fn push_probe(
    scene: &Scene<'_>,
    lane: &Lane<'_>,
    draft: &mut Draft,
    memory: usize,
    aim: &Aim,
    fault: u32,
) -> Result<(), NoMemory>
    ensures { OnOk result (Pushes draft.old draft.new (length draft.old.operations.items)
        (lane_guard lane.now) (Probe (reach_told memory aim.now []) fault)) }
{
    let access = reach_of(scene, memory, aim, no_banks(scene.alloc))?;
    let guard = guard_at(lane.around.guards, lane.number);
    push(draft, guard, OperationForm::Probe { access, fault })?;
    Ok(())
}

/// What a read gives that was made already: by the first path with its key, or at this path by
/// the access that it shares.
fn made_before(
    scene: &Scene<'_>,
    accesses: &Accesses,
    number: u32,
    path: u64,
    leader: u64,
) -> Option<u64>
    ensures { result ≡ given_before scene.now accesses.now number path leader }
{
    match scene.shares.get(number as usize) {
        Some(Some(earlier)) => given_at(accesses, *earlier, path),
        Some(None) => given_at(accesses, number, leader),
        None => None,
    }
}

/// Adds the read of an element, unless it was made before.
fn find_or_read(
    scene: &Scene<'_>,
    draft: &mut Draft,
    read: &Expr,
    memory: usize,
    aim: &Aim,
    copy: AccessAt,
    found: Option<u64>,
) -> Result<u64, NoMemory>
    ensures { IfOk result (λ n. Finds scene.now (form_seen read.now.form) draft.old draft.new
        memory aim.now copy found n) }
{
    match found {
        Some(value) => Ok(value),
        None => {
            let banks = banks_of(scene, read, copy.bank, copy.place)?;
            let access = reach_of(scene, memory, aim, banks)?;
            push(draft, copy.guard, OperationForm::Read { access })
        }
    }
}

/// Adds the reading of an element at a path, or finds that of an earlier path or access.
pub fn push_read(
    scene: &Scene<'_>,
    lane: &Lane<'_>,
    accesses: &mut Accesses,
    draft: &mut Draft,
    access: &Expr,
    memory: usize,
    aim: &Aim,
) -> Result<u64, NoMemory>
    ensures means { IfOk result (λ n. ReadsAt scene.now lane.now draft.old draft.new accesses.old
        accesses.new (term_seen access.now) memory aim.now n) }
    ensures made { IfOk result (λ n. MadeRead scene.now lane.now (term_seen access.now) memory
        aim.now draft.old draft.new accesses.old accesses.new n) }
{
    let number = aim.number;
    touch(
        scene,
        lane.around,
        draft,
        accesses,
        number,
        memory,
        access,
        false,
    )?;
    let copy = copy_of(accesses, number, lane.number);
    let fault = fault_of(accesses, number);
    push_probe(scene, lane, draft, memory, aim, fault)?;
    let found = made_before(scene, accesses, number, lane.number, copy.leader);
    let value = find_or_read(scene, draft, access, memory, aim, copy, found)?;
    give(accesses, number, lane.number, value)?;
    Ok(value)
}

/// Adds the writing of an element at a path.
pub fn push_write(
    scene: &Scene<'_>,
    lane: &Lane<'_>,
    accesses: &mut Accesses,
    draft: &mut Draft,
    access: &Expr,
    memory: usize,
    aim: &Aim,
    value: u64,
) -> Result<(), NoMemory>
    ensures means { OnOk result (StoresAt scene.now lane.now draft.old draft.new accesses.old
        accesses.new (term_seen access.now) memory aim.now value) }
    ensures made { OnOk result (MadeWrite scene.now lane.now (term_seen access.now) memory aim.now
        value draft.old draft.new accesses.old accesses.new) }
{
    let number = aim.number;
    touch(
        scene,
        lane.around,
        draft,
        accesses,
        number,
        memory,
        access,
        true,
    )?;
    let copy = copy_of(accesses, number, lane.number);
    let fault = fault_of(accesses, number);
    push_probe(scene, lane, draft, memory, aim, fault)?;
    let banks = banks_of(scene, access, copy.bank, copy.place)?;
    let reach = reach_of(scene, memory, aim, banks)?;
    let guard = guard_at(lane.around.guards, lane.number);
    push(
        draft,
        guard,
        OperationForm::Write {
            access: reach,
            value,
        },
    )?;
    Ok(())
}
