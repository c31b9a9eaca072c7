//! What an access reaches, by the numbers of its paths.

ghost use Rattle.std.specs.Prelude.{◌≡◌, ◌<◌, ◌≤◌, ◌+◌, ◌*◌, ◌/◌, ◌%◌, IfOk};
ghost use Rattle.std.specs.List.{AllByRecursion};
ghost use Rattle.dh_tree.specs.Elements.{banks_of};
ghost use Rattle.dh_tree.specs.Shapes.{most_banks, IsDim};
ghost use Rattle.dh_ports.specs.Copies.{key_of_levels, AreAccessPaths, AreIndexLanes, CopiesReach, IsReachOf, IsSpreadLevel};
ghost use Rattle.dh_ports.specs.Copies as definitions;
ghost use Rattle.dh_base.specs.Limits.{most_copies};

use crate::banks::{level_of, residue_of_copy, start_of};
use dh_base::NoMemory;
use dh_events::{Scope, access_depends};
use dh_tree::{Counter, Dim, Expr, ExprForm, Typed};
use std::alloc::Global;

/// A loop as the number of a path tells its copy: `number / stride % factor`.
#[derive(Clone, Copy, PartialEq, Eq)]
pub struct CopyLevel {
    /// The copies of the loop.
    factor: u64,
    /// The copies of the loops inside it.
    pub stride: u64,
    /// What a copy of it adds to the number of a key; 0 where the access does not depend on the loop.
    share: u64,
}

/// A dimension of more than one bank, as the number of a path tells its bank.
#[derive(Clone, Copy, PartialEq, Eq)]
pub struct BankDimension {
    /// The banks of the dimension.
    banks: u64,
    /// The banks of the dimensions behind it.
    times: u64,
    /// The value of its index in the first copy is `low + offset`.
    low: u64,
    offset: i128,
    /// The loop whose copies its index counts.
    level: usize,
}

/// The loops round an access, and how many paths they have.
#[derive(Drop)]
pub struct AccessPaths {
    pub levels: Vec<CopyLevel>,
    pub count: u64,
}

/// What an access reaches, by the numbers of its paths.
#[derive(Drop)]
pub struct PathReach {
    /// The loops round it.
    pub paths: AccessPaths,
    /// The dimensions of what it names that tell its bank.
    pub lanes: Vec<BankDimension>,
    /// The bank that it names itself; 0 where it has indices.
    pub own: u64,
}

/// The loops round an access as numbers of paths tell their copies.
fn paths_in(
    alloc: Global,
    scopes: &[Option<Scope>],
    loops: &[Counter],
    access: &Expr,
    writes: bool,
) -> Result<AccessPaths, NoMemory>
    requires few { definitions.copies_round loops.now ≤ most_copies }
    ensures { IfOk result (λ paths. AreAccessPaths scopes.now loops.now access.now writes paths) }
{
    let mut levels = Vec::new(alloc);
    let mut count: u64 = 1;
    let mut keys: u64 = 1;
    for level in (0..loops.len()).rev() {
        let factor = loops[level].factor;
        let counts = access_depends(scopes, level, access, writes);
        levels.push(CopyLevel {
            factor,
            stride: count,
            share: if counts { keys } else { 0 },
        })?;
        count = count.saturating_mul(factor);
        if counts {
            keys = keys.saturating_mul(factor);
        }
    }
    levels.reverse();
    Ok(AccessPaths { levels, count })
}

/// The copy of a loop at the path of a number.
fn copy_at(level: CopyLevel, number: u64) -> u64
    requires spread { IsSpreadLevel level }
    ensures { result ≡ (number / level.stride) % level.factor }
{
    number / level.stride % level.factor
}

/// The number of the key of the path of a number.
pub fn key_at(levels: &[CopyLevel], number: u64) -> u64
    requires spread { AllByRecursion IsSpreadLevel levels.now }
    requires few { definitions.HasFewKeys levels.now }
    ensures { result ≡ key_of_levels levels.now number }
{
    let mut key: u64 = 0;
    for level in levels {
        key = key + copy_at(*level, number) * level.share;
    }
    key
}

/// The dimensions of more than one bank, as numbers of paths tell their banks.
fn lanes_of(
    alloc: Global,
    typed: &Typed,
    loops: &[Counter],
    dims: &[Dim],
    indices: &[Expr],
) -> Result<Vec<BankDimension>, NoMemory>
    requires dims { AllByRecursion IsDim dims.now }
    requires few { banks_of dims.now ≤ most_banks }
    ensures { IfOk result (λ lanes. AreIndexLanes typed.now loops.now dims.now indices.now lanes.items) }
{
    let mut lanes = Vec::new(alloc);
    let mut times: u64 = 1;
    for i in (0..dims.len()).rev() {
        let banks = dims[i].banks;
        if i < indices.len() && banks > 1 {
            let start = start_of(typed, &indices[i]);
            lanes.push(BankDimension {
                banks,
                times,
                low: start.low,
                offset: start.offset,
                level: level_of(loops, start.iterator),
            })?;
        }
        times = banks * times;
    }
    Ok(lanes)
}

/// The bank that lanes tell at the path of a number.
pub fn bank_at(lanes: &[BankDimension], levels: &[CopyLevel], number: u64) -> u64
    requires spread { AllByRecursion IsSpreadLevel levels.now }
    requires few { definitions.HasFewBanks lanes.now }
    ensures { result ≡ definitions.bank_of_lanes levels.now lanes.now number }
{
    let mut bank: u64 = 0;
    for lane in lanes {
        let copy = if lane.level < levels.len() {
            copy_at(levels[lane.level], number)
        } else {
            0
        };
        bank = bank + residue_of_copy(lane.low, lane.offset, copy, lane.banks) * lane.times;
    }
    bank
}

/// An access whose copies are counted.
#[derive(Clone, Copy)]
pub struct Copied<'b> {
    /// The access.
    pub access: &'b Expr,
    /// Whether it writes.
    pub writes: bool,
    /// The unrolled loops round it, from the outside.
    pub loops: &'b [Counter],
    /// The dimensions of what it names.
    pub dims: &'b [Dim],
    /// The banks of what it names.
    pub banks: u64,
}

/// The dimensions of what an access names as numbers of paths tell its bank, and the bank that it names itself.
fn reach_of(
    alloc: Global,
    typed: &Typed,
    copied: Copied<'_>,
) -> Result<(Vec<BankDimension>, u64), NoMemory>
    requires dims { AllByRecursion IsDim copied.dims.now }
    requires few { banks_of copied.dims.now ≤ most_banks }
    ensures { IfOk result (λ r. IsReachOf typed.now copied.entry r.0.items r.1) }
{
    match &copied.access.form {
        ExprForm::Access { indices, .. } => {
            let lanes = lanes_of(alloc, typed, copied.loops, copied.dims, indices.as_slice())?;
            Ok((lanes, 0))
        }
        ExprForm::Physical { bank, .. } => Ok((Vec::new(alloc), *bank)),
        ExprForm::Number { .. }
        | ExprForm::Truth { .. }
        | ExprForm::Variable { .. }
        | ExprForm::Binary { .. }
        | ExprForm::Cast { .. } => Ok((Vec::new(alloc), 0)),
    }
}

/// What an access reaches, by the numbers of its paths.
pub fn reach_in(
    alloc: Global,
    typed: &Typed,
    scopes: &[Option<Scope>],
    copied: Copied<'_>,
) -> Result<PathReach, NoMemory>
    requires dims { AllByRecursion IsDim copied.dims.now }
    requires few { banks_of copied.dims.now ≤ most_banks }
    requires copies { definitions.copies_round copied.loops.now ≤ most_copies }
    ensures { IfOk result (λ reach. CopiesReach scopes.now typed.now copied.entry reach) }
{
    let paths = paths_in(alloc, scopes, copied.loops, copied.access, copied.writes)?;
    let (lanes, own) = reach_of(alloc, typed, copied)?;
    Ok(PathReach { paths, lanes, own })
}

/// How many paths there are inside so many of these loops, of which all have so many paths.
pub fn stride_of(levels: &[CopyLevel], loops: u32, count: u64) -> u64
    ensures { result ≡ definitions.stride_in levels.now loops count }
{
    let mut left = loops;
    let mut stride = count;
    for level in levels {
        if left == 0 {
            return stride;
        }
        left = left - 1;
        stride = level.stride;
    }
    stride
}
