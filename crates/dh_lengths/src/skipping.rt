//! Accesses whose levels nothing asks for: each has level 0.

ghost use Rattle.std.specs.Prelude.{map, OnOk};
ghost use Rattle.dh_tree.specs.Seen.{action_seen, maybe_block_seen, view_plan, term_seen, terms};
ghost use Rattle.dh_meaning.specs.AccessNumbers.{accesses_of, other_accesses, plan_accesses, term_accesses, terms_accesses};
ghost use Rattle.dh_lengths.specs.HeldLevels.{suffixes_accesses, AddsZeros};

use dh_base::NoMemory;
use dh_tree::{Command, CommandForm, Expr, ExprForm, ViewForm};

/// Notes level 0 of one access.
#[tactic(auto, using(crate::proofs::Zeros::one_zero))]
pub fn skip(reads: &mut Vec<usize>) -> Result<(), NoMemory>
    ensures { OnOk result (AddsZeros reads.old reads.new 1) }
{
    Ok(reads.push(0)?)
}

/// Notes level 0 of the accesses of an expression.
#[cycle(skip_term)]
#[tactic(auto, using(dh_tree::proofs::SeenTerms::terms_are, crate::proofs::Zeros::no_zeros, crate::proofs::Zeros::more_zeros, crate::proofs::Zeros::next_zero))]
pub fn skip_term(reads: &mut Vec<usize>, value: &Expr) -> Result<(), NoMemory>
    ensures { OnOk result (AddsZeros reads.old reads.new (term_accesses (term_seen value.now))) }
{
    match &value.form {
        ExprForm::Number { .. } | ExprForm::Truth { .. } | ExprForm::Variable { .. } => Ok(()),
        ExprForm::Access { indices, .. } => {
            skip_terms(reads, indices.as_slice())?;
            skip(reads)
        }
        ExprForm::Physical { row, .. } => {
            skip_term(reads, row)?;
            skip(reads)
        }
        ExprForm::Binary { left, right, .. } => {
            skip_term(reads, left)?;
            skip_term(reads, right)
        }
        ExprForm::Cast { inner, .. } => skip_term(reads, inner),
    }
}

/// Notes level 0 of the accesses of indices.
#[cycle(skip_term)]
fn skip_terms(reads: &mut Vec<usize>, indices: &[Expr]) -> Result<(), NoMemory>
    ensures { OnOk result (AddsZeros reads.old reads.new
        (terms_accesses (terms (map term_seen indices.now)))) }
{
    for index in indices {
        skip_term(reads, index)?;
    }
    Ok(())
}

/// Notes level 0 of the accesses of the offsets of a suffix.
#[tactic(auto, using(crate::proofs::Zeros::no_zeros))]
fn skip_suffixes(reads: &mut Vec<usize>, by: &[(u64, Expr)]) -> Result<(), NoMemory>
    ensures { OnOk result (AddsZeros reads.old reads.new (suffixes_accesses by.now)) }
{
    for pair in by {
        skip_term(reads, &pair.1)?;
    }
    Ok(())
}

/// Notes level 0 of the accesses of the offsets of a view.
#[tactic(auto, using(crate::proofs::Zeros::no_zeros))]
pub fn skip_offsets(reads: &mut Vec<usize>, form: &ViewForm) -> Result<(), NoMemory>
    ensures { OnOk result (AddsZeros reads.old reads.new (plan_accesses (view_plan form.now))) }
{
    match form {
        ViewForm::Shrink { .. } => Ok(()),
        ViewForm::Split { .. } => Ok(()),
        ViewForm::Suffix { by, .. } => skip_suffixes(reads, by.as_slice()),
        ViewForm::Shift { by } => skip_terms(reads, by.as_slice()),
    }
}

/// Notes level 0 of the accesses of a command and of those inside it.
#[cycle(skip_command)]
#[tactic(auto, using(dh_tree::proofs::SeenActions::actions_are, crate::proofs::Zeros::no_zeros, crate::proofs::Zeros::more_zeros))]
pub fn skip_command(reads: &mut Vec<usize>, command: &Command) -> Result<(), NoMemory>
    ensures { OnOk result (AddsZeros reads.old reads.new (accesses_of (action_seen command.now))) }
{
    match &command.form {
        CommandForm::Let { value, .. } => {
            let value = value.as_ref();
            match value {
                Some(value) => skip_term(reads, value),
                None => Ok(()),
            }
        }
        CommandForm::Assign { value, .. } | CommandForm::Reduce { value, .. } => {
            skip_term(reads, value)
        }
        CommandForm::Store { sides } => {
            let sides = sides.as_ref();
            skip_term(reads, &sides.value)?;
            skip_term(reads, &sides.target)
        }
        CommandForm::If { test, then, other } => {
            skip_term(reads, test)?;
            skip_command(reads, then)?;
            skip_other(reads, other)
        }
        CommandForm::While { test, body } => {
            skip_term(reads, test)?;
            skip_command(reads, body)
        }
        CommandForm::For { body, combine, .. } => {
            skip_command(reads, body)?;
            skip_other(reads, combine)
        }
        CommandForm::Block { body } => {
            for part in body.as_slice() {
                for command in part.as_slice() {
                    skip_command(reads, command)?;
                }
            }
            Ok(())
        }
        CommandForm::View { form, .. } => skip_offsets(reads, form),
        CommandForm::LetMemory { .. } | CommandForm::Call { .. } => Ok(()),
    }
}

/// Notes level 0 of the accesses of a block that may lack.
#[cycle(skip_command)]
fn skip_other(reads: &mut Vec<usize>, other: &Option<Box<Command>>) -> Result<(), NoMemory>
    ensures { OnOk result (AddsZeros reads.old reads.new
        (other_accesses (maybe_block_seen other.now))) }
{
    match other {
        Some(block) => skip_command(reads, block),
        None => Ok(()),
    }
}
