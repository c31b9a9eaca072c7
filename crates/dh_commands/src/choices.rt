//! Variables behind an `if`. Both arms begin from the same values; behind them each variable that an arm assigned
//! is chosen once by the test.

ghost use Rattle.std.specs.Prelude.{◌≡◌, IfOk, OnOk, length};
ghost use Rattle.dh_expressions.specs.Drafted.{Gives};
ghost use Rattle.dh_commands.specs.Undone.{EndsArm};
ghost use Rattle.dh_commands.specs.Joined.{JoinsArms, all_unmarked, chosen_marked, chosen_noted, other_noted};
ghost use Rattle.dh_commands.specs.Choosing.{Chooses, ChoosesOne, behind_shown};
ghost use Rattle.dh_commands.specs.MadeCommands.{MadeBehind, MadeChoice, MadeChoices};

use crate::assignments::{Values, assign};
use dh_base::NoMemory;
use dh_expressions::{Draft, push_select, push_shown};
use std::alloc::Global;

/// A variable that an arm of an `if` assigned.
#[derive(Clone, Copy)]
pub struct Left {
    /// Its register.
    pub register: u64,
    /// The number of the path at which it was assigned.
    pub path: u64,
    /// Its value behind the arm.
    pub value: Option<u64>,
}

/// Ends an arm that began with so many assignments: takes back what it assigned. Gives what it left, the last
/// assignments first; of a variable that stands there twice the first is what it left.
pub fn end_arm(alloc: Global, values: &mut Values, floor: usize) -> Result<Vec<Left>, NoMemory>
    ensures { IfOk result (λ left. EndsArm values.old values.new floor left.items) }
{
    let mut left = Vec::new(alloc);
    for i in (floor..values.log.len()).rev() {
        if i < values.log.len() {
            let change = values.log[i];
            let at = change.register as usize;
            if at < values.current.len() {
                left.push(Left {
                    register: change.register,
                    path: change.path,
                    value: values.current[at],
                })?;
                values.current[at] = change.before;
            }
        }
    }
    values.log.truncate(floor);
    Ok(left)
}

/// A variable that an arm of an `if` assigned, and its value behind each arm; None where the arm left it.
#[derive(Clone, Copy)]
pub struct Choice {
    /// Its register.
    pub register: u64,
    /// The number of the path at which it was assigned.
    pub path: u64,
    /// Its value behind the first arm.
    pub chosen: Option<u64>,
    /// Its value behind the second arm.
    pub other: Option<u64>,
}

/// Notes what the first arm left of a variable.
fn note_chosen(
    marks: &mut Vec<usize>,
    choices: &mut Vec<Choice>,
    left: Left,
) -> Result<(), NoMemory>
    ensures noted { OnOk result (choices.new.items ≡ chosen_noted marks.old.items choices.old.items
        left) }
    ensures marked { OnOk result (marks.new.items ≡ chosen_marked marks.old.items choices.old.items
        left) }
{
    let at = left.register as usize;
    if at < marks.len() && marks[at] == 0 {
        choices.push(Choice {
            register: left.register,
            path: left.path,
            chosen: left.value,
            other: None,
        })?;
        marks[at] = choices.len();
    }
    Ok(())
}

/// Notes what the second arm left of a variable.
fn note_other(marks: &mut Vec<usize>, choices: &mut Vec<Choice>, left: Left) -> Result<(), NoMemory>
    ensures noted { OnOk result (choices.new.items ≡ other_noted marks.old.items choices.old.items
        left) }
    ensures marked { OnOk result (marks.new.items ≡ chosen_marked marks.old.items choices.old.items
        left) }
{
    let at = left.register as usize;
    if at >= marks.len() {
        return Ok(());
    }
    if marks[at] == 0 {
        choices.push(Choice {
            register: left.register,
            path: left.path,
            chosen: None,
            other: left.value,
        })?;
        marks[at] = choices.len();
    } else {
        let mark = marks[at].saturating_sub(1);
        if mark < choices.len() && choices[mark].other.is_none() {
            choices[mark].other = left.value;
        }
    }
    Ok(())
}

/// The variables that are chosen behind an `if`, each once, from what its arms left.
pub fn join_arms(
    alloc: Global,
    values: &mut Values,
    chosen: &[Left],
    other: &[Left],
) -> Result<Vec<Choice>, NoMemory>
    ensures { IfOk result (λ choices. JoinsArms values.old values.new chosen.now other.now
        choices.items) }
{
    let mut choices = Vec::new(alloc);
    for left in chosen {
        note_chosen(&mut values.marks, &mut choices, *left)?;
    }
    for left in other {
        note_other(&mut values.marks, &mut choices, *left)?;
    }
    unmark(&mut values.marks, choices.as_slice());
    Ok(choices)
}

/// Ends a choice's arms: no variable is marked.
fn unmark(marks: &mut Vec<usize>, choices: &[Choice])
    ensures { marks.new.items ≡ all_unmarked choices.now marks.old.items }
{
    for choice in choices {
        let at = choice.register as usize;
        if at < marks.len() {
            marks[at] = 0;
        }
    }
}

/// Adds the value of a variable behind an arm, or before it where the arm left it.
fn push_behind(
    draft: &mut Draft,
    current: &[Option<u64>],
    register: u64,
    behind: Option<u64>,
) -> Result<u64, NoMemory>
    ensures means { IfOk result (λ v. Gives draft.old draft.new v (λ x. behind_shown x current.now
        register behind)) }
    ensures made { IfOk result (λ v. MadeBehind current.now register behind draft.old draft.new v) }
{
    match behind {
        Some(value) => Ok(value),
        None => push_shown(draft, current, register),
    }
}

/// Chooses one variable that an arm assigned, by the test at its path.
fn choose_one(
    draft: &mut Draft,
    values: &mut Values,
    test: u64,
    choice: Choice,
) -> Result<(), NoMemory>
    ensures means { OnOk result (ChoosesOne draft.old draft.new values.old values.new test choice) }
    ensures made { OnOk result (MadeChoice test choice draft.old draft.new values.old values.new) }
{
    let current = values.current.as_slice();
    let yes = push_behind(draft, current, choice.register, choice.chosen)?;
    let no = push_behind(draft, current, choice.register, choice.other)?;
    let value = push_select(draft, test, yes, no)?;
    assign(values, choice.register, choice.path, value)?;
    Ok(())
}

/// Chooses each variable that an arm assigned, by the test at its path.
pub fn choose(
    draft: &mut Draft,
    values: &mut Values,
    tests: &[u64],
    choices: &[Choice],
) -> Result<(), NoMemory>
    ensures means { OnOk result (Chooses draft.old draft.new values.old values.new tests.now
        choices.now (length choices.now)) }
    ensures made { OnOk result (MadeChoices tests.now choices.now (length choices.now) draft.old
        draft.new values.old values.new) }
{
    for choice in choices {
        if let Some(test) = tests.get(choice.path as usize) {
            choose_one(draft, values, *test, *choice)?;
        }
    }
    Ok(())
}
