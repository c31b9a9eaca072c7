//! Which accesses of a program may meet: any two but those in different parts of a block between `---`, in opposite
//! arms of an `if` that stands in no unrolled loop, and in the test and in the body of a `while`.

ghost use Rattle.std.specs.Prelude.{◌≡◌, ◌-◌, IfOk};
ghost use Rattle.dh_meets.specs.MayMeet.{row_of_accesses, arms_meet};
ghost use Rattle.dh_plan.specs.SeenPlans.{meets_seen};
ghost use Rattle.dh_tree.specs.Meets.{all, one};
ghost use Rattle.dh_tree.specs.Seen.{action_seen, maybe_block_seen, all_parts_seen};
ghost use Rattle.dh_accesses.specs.Met.{SameMeets, MeetsRow, MeetsCommand, MeetsOther, MeetsParts, MeetsBody};

use dh_base::NoMemory;
use dh_phases::{behind_command, behind_term};
use dh_plan::Meets;
use dh_tree::{Command, CommandForm};
use std::alloc::Global;

/// Accesses from a number on below another, of which any two may meet.
#[tactic(auto, using(dh_plan::proofs::SeenMeets::meets_are))]
fn row(alloc: Global, first: u32, end: u32) -> Result<Meets, NoMemory>
    ensures { IfOk result (λ m. meets_seen m ≡ row_of_accesses first (end - first)) }
{
    let mut parts = Vec::new(alloc);
    for access in first..end {
        parts.push(Meets::Access { access })?;
    }
    Ok(Meets::All { parts })
}

/// Two parts of which accesses may meet.
#[tactic(auto, using(dh_plan::proofs::SeenMeets::meets_are))]
fn both(alloc: Global, first: Meets, second: Meets) -> Result<Meets, NoMemory>
    ensures { IfOk result (λ m. SameMeets (meets_seen m)
        (all (meets_seen first) (meets_seen second))) }
{
    let mut parts = Vec::new(alloc);
    parts.push(first)?;
    parts.push(second)?;
    Ok(Meets::All { parts })
}

/// Two parts of which no accesses meet.
#[tactic(auto, using(dh_plan::proofs::SeenMeets::meets_are))]
fn either(alloc: Global, first: Meets, second: Meets) -> Result<Meets, NoMemory>
    ensures { IfOk result (λ m. SameMeets (meets_seen m)
        (one (meets_seen first) (meets_seen second))) }
{
    let mut parts = Vec::new(alloc);
    parts.push(first)?;
    parts.push(second)?;
    Ok(Meets::One { parts })
}

/// The arms of an `if`: in an unrolled loop copies may take different arms.
fn arms(alloc: Global, unrolled: bool, chosen: Meets, other: Meets) -> Result<Meets, NoMemory>
    ensures { IfOk result (λ m. SameMeets (meets_seen m)
        (arms_meet unrolled (meets_seen chosen) (meets_seen other))) }
{
    if unrolled {
        both(alloc, chosen, other)
    } else {
        either(alloc, chosen, other)
    }
}

/// Which accesses of a part of a program may meet.
#[derive(Drop)]
pub struct MeetingAccesses {
    /// As a tree.
    pub meets: Meets,
    /// The number behind theirs.
    pub next: u32,
}

/// The accesses from a number on below another.
fn met_row(alloc: Global, first: u32, next: u32) -> Result<MeetingAccesses, NoMemory>
    ensures { IfOk result (λ m. MeetsRow first next m) }
{
    let meets = row(alloc, first, next)?;
    Ok(MeetingAccesses { meets, next })
}

/// Those of a command, numbered from one on, that stands in an unrolled loop or does not.
#[cycle(meeting)]
#[tactic(auto, using(dh_tree::proofs::SeenActions::actions_are))]
fn meet(
    alloc: Global,
    unrolled: bool,
    first: u32,
    command: &Command,
) -> Result<MeetingAccesses, NoMemory>
    ensures { IfOk result (λ m. MeetsCommand unrolled first (action_seen command.now) m) }
{
    match &command.form {
        CommandForm::Let { .. } => met_row(alloc, first, behind_command(first, command)),
        CommandForm::Assign { .. } => met_row(alloc, first, behind_command(first, command)),
        CommandForm::Store { .. } => met_row(alloc, first, behind_command(first, command)),
        CommandForm::Reduce { .. } => met_row(alloc, first, behind_command(first, command)),
        CommandForm::View { .. } => met_row(alloc, first, behind_command(first, command)),
        CommandForm::LetMemory { .. } => met_row(alloc, first, first),
        CommandForm::Call { .. } => met_row(alloc, first, first),
        CommandForm::If { test, then, other } => {
            let tests = met_row(alloc, first, behind_term(first, test))?;
            let chosen = meet(alloc, unrolled, tests.next, then)?;
            let other = meet_other(alloc, unrolled, chosen.next, other)?;
            let arms = arms(alloc, unrolled, chosen.meets, other.meets)?;
            let meets = both(alloc, tests.meets, arms)?;
            Ok(MeetingAccesses {
                meets,
                next: other.next,
            })
        }
        CommandForm::While { test, body } => {
            let tests = met_row(alloc, first, behind_term(first, test))?;
            let body = meet(alloc, unrolled, tests.next, body)?;
            let meets = either(alloc, tests.meets, body.meets)?;
            Ok(MeetingAccesses {
                meets,
                next: body.next,
            })
        }
        CommandForm::For {
            header,
            body,
            combine,
        } => {
            let header = header.as_ref();
            let inside = unrolled | (header.factor > 1);
            let body = meet(alloc, inside, first, body)?;
            let joins = meet_other(alloc, inside, body.next, combine)?;
            let meets = both(alloc, body.meets, joins.meets)?;
            Ok(MeetingAccesses {
                meets,
                next: joins.next,
            })
        }
        CommandForm::Block { body } => meet_parts(alloc, unrolled, first, body.as_slice()),
    }
}

/// Those of a block that may lack.
#[cycle(meeting)]
fn meet_other(
    alloc: Global,
    unrolled: bool,
    first: u32,
    other: &Option<Box<Command>>,
) -> Result<MeetingAccesses, NoMemory>
    ensures { IfOk result (λ m. MeetsOther unrolled first (maybe_block_seen other.now) m) }
{
    match other {
        Some(block) => meet(alloc, unrolled, first, block),
        None => met_row(alloc, first, first),
    }
}

/// Those of the parts between `---`.
#[cycle(meeting)]
#[tactic(auto, using(dh_plan::proofs::SeenMeets::meets_are))]
fn meet_parts(
    alloc: Global,
    unrolled: bool,
    first: u32,
    parts: &[Vec<Command>],
) -> Result<MeetingAccesses, NoMemory>
    ensures { IfOk result (λ m. MeetsParts unrolled first (all_parts_seen parts.now) m) }
{
    let mut next = first;
    let mut all_groups = Vec::new(alloc);
    for part in parts {
        let mut group = Vec::new(alloc);
        for command in part {
            let met = meet(alloc, unrolled, next, command)?;
            group.push(met.meets)?;
            next = met.next;
        }
        all_groups.push(Meets::All { parts: group })?;
    }
    Ok(MeetingAccesses {
        meets: Meets::One { parts: all_groups },
        next,
    })
}

/// Which accesses of a program's body may meet, each by its number in order of evaluation. Takes a body with fewer
/// than 2^32 accesses, as that of every text is. Linear in the body.
///
/// # Errors
///
/// `NoMemory` where an allocation was refused.
pub fn meets_of(alloc: Global, body: &Command) -> Result<Meets, NoMemory>
    ensures { IfOk result (λ m. MeetsBody (action_seen body.now) m) }
{
    let met = meet(alloc, false, 0, body)?;
    Ok(met.meets)
}
