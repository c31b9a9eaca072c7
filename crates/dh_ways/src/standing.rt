//! The views of a program where they are declared.

ghost use Rattle.std.specs.List.{AllByRecursion};
ghost use Rattle.std.specs.Prelude.{◌≡◌, map, IfOk};
ghost use Rattle.dh_tree.specs.Seen.{action_seen, all_parts_seen, maybe_block_seen, program_seen};
ghost use Rattle.dh_ways.specs.CutStands.{IsFewRound, copies_cut, cut_stands, depth_cut, groups_cut_stands, other_cut_stands};
ghost use Rattle.dh_ways.specs.Stands.{FindsStanding, stand_seen, stands};

use dh_base::NoMemory;
use dh_tree::{Command, CommandForm, Ref, Typed, ViewForm};
use std::alloc::Global;

/// A view, where it is declared.
#[derive(Clone, Copy)]
pub(crate) struct Stood<'a> {
    pub(crate) name: &'a Ref,
    pub(crate) parent: &'a Ref,
    pub(crate) form: &'a ViewForm,
    /// The unrolled loops round it.
    pub(crate) depth: u32,
    /// Their copies together.
    pub(crate) copies: u64,
}

/// How many loops there are inside one more, at most the greatest number; one of a single copy adds none.
fn depth_in(depth: u32, factor: u64) -> u32
    ensures { result ≡ depth_cut depth factor }
{
    if factor <= 1 {
        depth
    } else {
        depth.saturating_add(1)
    }
}

/// How many copies there are inside one loop more, at most the greatest number.
fn copies_in(copies: u64, factor: u64) -> u64
    ensures { result ≡ copies_cut copies factor }
{
    if factor <= 1 {
        copies
    } else {
        copies.saturating_mul(factor)
    }
}

/// Finds the views that a command declares inside so many loops, in the order of the tree.
#[cycle(standing)]
#[tactic(auto, using(dh_tree::proofs::SeenActions::actions_are, dh_tree::proofs::Collecting::found_none, dh_tree::proofs::Collecting::found_both))]
fn find_standing<'a>(
    found: &mut Vec<Stood<'a>>,
    depth: u32,
    copies: u64,
    command: &'a Command,
) -> Result<(), NoMemory>
    ensures { FindsStanding result found.old found.new
        (cut_stands depth copies (action_seen command.now)) }
{
    match &command.form {
        CommandForm::View { name, parent, form } => Ok(found.push(Stood {
            name,
            parent,
            form,
            depth,
            copies,
        })?),
        CommandForm::Block { body } => stand_in_parts(found, depth, copies, body.as_slice()),
        CommandForm::If { then, other, .. } => {
            find_standing(found, depth, copies, then)?;
            stand_in_other(found, depth, copies, other)
        }
        CommandForm::While { body, .. } => find_standing(found, depth, copies, body),
        CommandForm::For {
            header,
            body,
            combine,
        } => {
            let header = header.as_ref();
            let inner = depth_in(depth, header.factor);
            let more = copies_in(copies, header.factor);
            find_standing(found, inner, more, body)?;
            stand_in_other(found, inner, more, combine)
        }
        CommandForm::Let { .. }
        | CommandForm::LetMemory { .. }
        | CommandForm::Assign { .. }
        | CommandForm::Store { .. }
        | CommandForm::Reduce { .. }
        | CommandForm::Call { .. } => Ok(()),
    }
}

/// Finds those of a block that may lack.
#[cycle(standing)]
fn stand_in_other<'a>(
    found: &mut Vec<Stood<'a>>,
    depth: u32,
    copies: u64,
    other: &'a Option<Box<Command>>,
) -> Result<(), NoMemory>
    ensures { FindsStanding result found.old found.new
        (other_cut_stands depth copies (maybe_block_seen other.now)) }
{
    match other {
        Some(block) => find_standing(found, depth, copies, block),
        None => Ok(()),
    }
}

/// Finds those of parts.
#[cycle(standing)]
fn stand_in_parts<'a>(
    found: &mut Vec<Stood<'a>>,
    depth: u32,
    copies: u64,
    parts: &'a [Vec<Command>],
) -> Result<(), NoMemory>
    ensures { FindsStanding result found.old found.new
        (groups_cut_stands depth copies (all_parts_seen parts.now)) }
{
    for part in parts {
        for command in part {
            find_standing(found, depth, copies, command)?;
        }
    }
    Ok(())
}

/// The views that a program declares, in text order. Where no entity is a view, nothing is walked over.
pub(crate) fn standing_in<'a>(alloc: Global, typed: &'a Typed) -> Result<Vec<Stood<'a>>, NoMemory>
    requires round { AllByRecursion IsFewRound (stands 0 1 (program_seen typed.now).body) }
    ensures { IfOk result (λ found. map stand_seen found.items
        ≡ stands 0 1 (program_seen typed.now).body) }
{
    let mut found = Vec::new(alloc);
    if typed.has_no_view() {
        return Ok(found);
    }
    find_standing(&mut found, 0, 1, &typed.tree().body)?;
    Ok(found)
}
