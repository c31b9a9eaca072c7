//! The levels of what views keep.

ghost use Rattle.std.specs.Prelude.{◌≡◌, IfOk, OnOk, map};
ghost use Rattle.dh_tree.specs.Seen.{factor_seen, view_plan, term_seen};
ghost use Rattle.dh_tree.specs.ViewOffsets.{offsets_of};
ghost use Rattle.dh_lengths.specs.KeptLevels.{first_kept, LevelsEach, LevelsView, SetsLevels};

use crate::held::PhaseLevels;
use crate::leads::{Leads, way_of};
use crate::skipping::skip_offsets;
use crate::terms::level_term;
use dh_base::NoMemory;
use dh_tree::{Expr, Ref, ViewForm};
use std::alloc::Global;

/// The levels of expressions, in order. Notes those of their reads.
fn level_all(
    alloc: Global,
    held: &mut PhaseLevels<'_>,
    ways: &Leads<'_>,
    outer: usize,
    values: &[Expr],
) -> Result<Vec<usize>, NoMemory>
    ensures { IfOk result (λ levels. LevelsEach ways.now held.old held.new outer
        (map term_seen values.now) levels.items) }
{
    let mut levels = Vec::new(alloc);
    for value in values {
        levels.push(level_term(held, ways, outer, value)?)?;
    }
    Ok(levels)
}

/// The levels of the offsets of a suffix, in order. Notes those of their reads.
fn level_suffixes(
    alloc: Global,
    held: &mut PhaseLevels<'_>,
    ways: &Leads<'_>,
    outer: usize,
    by: &[(u64, Expr)],
) -> Result<Vec<usize>, NoMemory>
    ensures { IfOk result (λ levels. LevelsEach ways.now held.old held.new outer
        (map (λ s. s.offset) (map factor_seen by.now)) levels.items) }
{
    let mut levels = Vec::new(alloc);
    for pair in by {
        levels.push(level_term(held, ways, outer, &pair.1)?)?;
    }
    Ok(levels)
}

/// The levels of the offsets of a view, in order. Notes those of their reads.
fn level_offsets(
    alloc: Global,
    held: &mut PhaseLevels<'_>,
    ways: &Leads<'_>,
    outer: usize,
    form: &ViewForm,
) -> Result<Vec<usize>, NoMemory>
    ensures { IfOk result (λ levels. LevelsEach ways.now held.old held.new outer
        (offsets_of (view_plan form.now)) levels.items) }
{
    match form {
        ViewForm::Shrink { .. } => level_all(alloc, held, ways, outer, &[]),
        ViewForm::Split { .. } => level_all(alloc, held, ways, outer, &[]),
        ViewForm::Suffix { by, .. } => level_suffixes(alloc, held, ways, outer, by.as_slice()),
        ViewForm::Shift { by } => level_all(alloc, held, ways, outer, by.as_slice()),
    }
}

/// Variables from a number on are set to these levels.
fn keep_levels(held: &mut PhaseLevels<'_>, first: u32, levels: &[usize]) -> Result<(), NoMemory>
    ensures { OnOk result (SetsLevels held.old held.new first levels.now) }
{
    for i in (0..levels.len()).rev() {
        held.assign_at(first as usize + i, levels[i])?;
    }
    Ok(())
}

/// The number of the first variable that keeps an offset on the way of a name.
fn first_hidden(ways: &Leads<'_>, entity: Option<u32>) -> Option<u32>
    ensures { result ≡ first_kept ways.now entity }
{
    match way_of(ways, entity) {
        Some(way) => match way.first_hidden() {
            Some(one) => Some(one.entity),
            None => None,
        },
        None => None,
    }
}

/// Notes the levels that the command of a view makes: each offset is kept in a variable of its own.
pub fn level_view(
    alloc: Global,
    held: &mut PhaseLevels<'_>,
    ways: &Leads<'_>,
    outer: usize,
    name: &Ref,
    form: &ViewForm,
) -> Result<(), NoMemory>
    ensures { OnOk result (LevelsView ways.now held.old held.new outer name.now form.now) }
{
    match first_hidden(ways, name.entity) {
        Some(first) => {
            let levels = level_offsets(alloc, held, ways, outer, form)?;
            keep_levels(held, first, levels.as_slice())
        }
        None => skip_offsets(&mut held.reads, form),
    }
}
