//! The levels of expressions.

ghost use Rattle.std.specs.Prelude.{◌≡◌, IfOk, OnOk, map, max};
ghost use Rattle.dh_lengths.specs.HeldLevels.{hidden_level, level_through as through, levels_seen, LevelsMaybe, LevelsStore, LevelsTerm, LevelsTerms, SkipsStore};
ghost use Rattle.dh_events.specs.Tables.{table_at};
ghost use Rattle.dh_ways.specs.Seen.{hidden_seen};

use crate::held::PhaseLevels;
use crate::leads::{Leads, way_of};
use crate::skipping::{skip, skip_term};
use dh_base::NoMemory;
use dh_events::get_at;
use dh_tree::{Expr, ExprForm};
use dh_ways::{Hidden, WayRef};

/// The greatest of a level and of those of these variables.
fn level_hidden(variables: &[usize], hidden: &[Hidden], level: usize) -> usize
    ensures { result ≡ max level
        (hidden_level (table_at variables.now) (map hidden_seen hidden.now)) }
{
    let mut most = level;
    for one in hidden {
        most = most.max(get_at(variables, one.entity));
    }
    most
}

/// The greatest of a level and of those of the variables that keep the offsets on a way.
fn level_on(variables: &[usize], way: &WayRef<'_>, level: usize) -> usize
    ensures { result ≡ max level
        (hidden_level (table_at variables.now) (map hidden_seen way.now.hidden)) }
{
    let (own, behind) = way.split();
    let first = level_hidden(variables, own, level);
    let mut most = first;
    let mut rest = behind;
    while let Some(next) = rest {
        let (kept, further) = next.split();
        most = level_hidden(variables, kept, most);
        rest = further;
    }
    most
}

/// The level of what names an element, by that of its indices: through views it is not before their offsets.
fn level_through(
    held: &PhaseLevels<'_>,
    ways: &Leads<'_>,
    entity: Option<u32>,
    level: usize,
) -> usize
    ensures { result ≡ through ways.now (levels_seen held.now).variables entity level }
{
    match way_of(ways, entity) {
        Some(way) => level_on(held.variables.as_slice(), &way, level),
        None => level,
    }
}

/// The level of an expression inside tests of a level. Notes those of its reads.
#[cycle(leveling)]
pub fn level_term(
    held: &mut PhaseLevels<'_>,
    ways: &Leads<'_>,
    outer: usize,
    value: &Expr,
) -> Result<usize, NoMemory>
    ensures { IfOk result (λ level. LevelsTerm ways.now held.old held.new outer value.now level) }
{
    match &value.form {
        ExprForm::Number { .. } => Ok(0),
        ExprForm::Truth { .. } => Ok(0),
        ExprForm::Variable { of } => Ok(held.level_of(of.entity)),
        ExprForm::Access { of, indices } => {
            let level = level_terms(held, ways, outer, indices.as_slice())?;
            let through = level_through(held, ways, of.entity, level);
            held.read(outer, through)
        }
        ExprForm::Physical { row, .. } => {
            let level = level_term(held, ways, outer, row)?;
            held.read(outer, level)
        }
        ExprForm::Binary { left, right, .. } => {
            let first = level_term(held, ways, outer, left)?;
            let second = level_term(held, ways, outer, right)?;
            Ok(first.max(second))
        }
        ExprForm::Cast { inner, .. } => level_term(held, ways, outer, inner),
    }
}

/// The greatest level of indices. Notes those of their reads.
#[cycle(leveling)]
fn level_terms(
    held: &mut PhaseLevels<'_>,
    ways: &Leads<'_>,
    outer: usize,
    indices: &[Expr],
) -> Result<usize, NoMemory>
    ensures { IfOk result (λ level.
        LevelsTerms ways.now held.old held.new outer indices.now level) }
{
    let mut most: usize = 0;
    for index in indices {
        most = level_term(held, ways, outer, index)?.max(most);
    }
    Ok(most)
}

/// The level of what a `let` sets its variable to; 0 where it has no right side.
pub fn level_maybe(
    held: &mut PhaseLevels<'_>,
    ways: &Leads<'_>,
    outer: usize,
    value: &Option<Expr>,
) -> Result<usize, NoMemory>
    ensures { IfOk result (λ level. LevelsMaybe ways.now held.old held.new outer value.now level) }
{
    match value {
        Some(value) => level_term(held, ways, outer, value),
        None => Ok(0),
    }
}

/// Notes level 0 of the accesses of a store to what is no access, which stores nothing.
fn skip_store(held: &mut PhaseLevels<'_>, target: &Expr, value: &Expr) -> Result<(), NoMemory>
    ensures { OnOk result (SkipsStore held.old held.new target.now value.now) }
{
    skip_term(&mut held.reads, value)?;
    skip_term(&mut held.reads, target)
}

/// Notes the levels of the reads of a store, and of the write.
pub fn level_store(
    held: &mut PhaseLevels<'_>,
    ways: &Leads<'_>,
    outer: usize,
    target: &Expr,
    value: &Expr,
) -> Result<(), NoMemory>
    ensures { OnOk result (LevelsStore ways.now held.old held.new outer target.now value.now) }
{
    match &target.form {
        ExprForm::Access { indices, .. } => {
            level_term(held, ways, outer, value)?;
            level_terms(held, ways, outer, indices.as_slice())?;
            skip(&mut held.reads)
        }
        ExprForm::Physical { row, .. } => {
            level_term(held, ways, outer, value)?;
            level_term(held, ways, outer, row)?;
            skip(&mut held.reads)
        }
        ExprForm::Number { .. } => skip_store(held, target, value),
        ExprForm::Truth { .. } => skip_store(held, target, value),
        ExprForm::Variable { .. } => skip_store(held, target, value),
        ExprForm::Binary { .. } => skip_store(held, target, value),
        ExprForm::Cast { .. } => skip_store(held, target, value),
    }
}
