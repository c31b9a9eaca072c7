//! The levels of variables: what they were before changes, and what they are behind the arms of an `if`.

ghost use Rattle.std.specs.Prelude.{◌≡◌, drop, IfOk, OnOk};
ghost use Rattle.dh_events.specs.Tables.{table_at};
ghost use Rattle.dh_lengths.specs.Undone.{marks_with_levels, redone, undone_levels, JoinsLevels};

use dh_base::NoMemory;
use dh_events::{get_number, set_number};
use std::alloc::Global;

/// The level of a variable at some moment.
#[derive(Clone, Copy)]
pub struct LevelMark {
    /// The number of its entity.
    pub entity: usize,
    /// The level.
    pub level: usize,
}

/// The marks from a place on.
pub fn since(log: &[LevelMark], mark: usize) -> &[LevelMark]
    ensures { result.now ≡ drop mark log.now }
{
    if mark <= log.len() { &log[mark..] } else { &[] }
}

/// Puts levels back to what marks say, the last of them first.
pub fn undo(variables: &mut Vec<usize>, log: &[LevelMark]) -> Result<(), NoMemory>
    ensures { OnOk result (table_at variables.new.items
        ≡ undone_levels log.now (table_at variables.old.items)) }
{
    for i in (0..log.len()).rev() {
        let mark = log[i];
        set_number(variables, mark.entity, mark.level)?;
    }
    Ok(())
}

/// Sets levels to what marks say, in order.
pub fn redo(variables: &mut Vec<usize>, marks: &[LevelMark]) -> Result<(), NoMemory>
    ensures { OnOk result (table_at variables.new.items
        ≡ redone marks.now (table_at variables.old.items)) }
{
    for mark in marks {
        set_number(variables, mark.entity, mark.level)?;
    }
    Ok(())
}

/// The levels that the variables of marks have now.
pub fn marks_of(
    alloc: Global,
    variables: &[usize],
    log: &[LevelMark],
) -> Result<Vec<LevelMark>, NoMemory>
    ensures { IfOk result (λ marks. marks.items ≡ marks_with_levels (table_at variables.now) log.now) }
{
    let mut marks = Vec::new(alloc);
    for mark in log {
        marks.push(LevelMark {
            entity: mark.entity,
            level: get_number(variables, mark.entity),
        })?;
    }
    Ok(marks)
}

/// Raises levels to those of marks and to that of a test, where those of the marks are set in one of two
/// arms.
pub fn join(variables: &mut Vec<usize>, marks: &[LevelMark], test: usize) -> Result<(), NoMemory>
    ensures { OnOk result (JoinsLevels test marks.now variables.old.items variables.new.items) }
{
    for mark in marks {
        let now = get_number(variables.as_slice(), mark.entity);
        set_number(variables, mark.entity, test.max(now.max(mark.level)))?;
    }
    Ok(())
}
