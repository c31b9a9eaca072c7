//! The walk over a program.

ghost use Rattle.std.specs.Prelude.{◌≡◌};
ghost use Rattle.dh_tree.specs.LeastBreach.{least_of};
ghost use Rattle.dh_tree.specs.Seen.{program_seen};
ghost use Rattle.dh_tree.specs.Told.{MayTellLeast};
ghost use Rattle.dh_tree.specs.ViewBreaches.{shapes_breaches_of};
ghost use Rattle.dh_views.specs.Kept.{header_breaches};
ghost use Rattle.dh_views.specs.Wanting.{FindsBreach, KeepsViews, WantsForViews};
ghost use Rattle.dh_views.specs.Walked.{term_broken, terms_broken, maybe_broken, own_broken, command_broken, other_broken, parts_broken};

use crate::accesses::{keep_access, keep_physical};
use crate::declared::{keep_decl_shapes, keep_shape};
use crate::keeping::keep_if;
use crate::through::keep_viewed_command;
use dh_base::{NoMemory, PassFault, Rule};
use dh_tree::{Breach, Command, CommandForm, Expr, ExprForm, LoopHeader, Typed};
use dh_viewing::{divides, judge_views};
use std::alloc::Global;

/// The breaches in an expression.
#[cycle(terms)]
#[tactic(auto, using(dh_tree::proofs::SeenTerms::terms_are, dh_tree::proofs::Leasts::least_append))]
pub(crate) fn keep_term(typed: &Typed, kept: &mut Option<Breach>, term: &Expr)
    ensures { kept.new ≡ least_of kept.old (term_broken typed.now term.now) }
{
    match &term.form {
        ExprForm::Number { .. } => {}
        ExprForm::Truth { .. } => {}
        ExprForm::Variable { .. } => {}
        ExprForm::Access { of, indices } => {
            keep_access(typed, kept, of.entity, indices.as_slice());
            keep_terms(typed, kept, indices.as_slice());
        }
        ExprForm::Physical {
            of,
            bank,
            bank_place,
            row,
        } => {
            keep_physical(typed, kept, of.entity, *bank, *bank_place, row);
            keep_term(typed, kept, row);
        }
        ExprForm::Binary { left, right, .. } => {
            keep_term(typed, kept, left);
            keep_term(typed, kept, right);
        }
        ExprForm::Cast { inner, .. } => keep_term(typed, kept, inner),
    }
}

/// Those in expressions.
#[cycle(terms)]
#[tactic(auto, using(dh_tree::proofs::SeenTerms::terms_are, dh_tree::proofs::Leasts::least_append))]
fn keep_terms(typed: &Typed, kept: &mut Option<Breach>, indices: &[Expr])
    ensures { kept.new ≡ least_of kept.old (terms_broken typed.now indices.now) }
{
    for index in indices {
        keep_term(typed, kept, index);
    }
}

/// Those in an expression that may lack.
fn keep_maybe(typed: &Typed, kept: &mut Option<Breach>, value: &Option<Expr>)
    ensures { kept.new ≡ least_of kept.old (maybe_broken typed.now value.now) }
{
    match value {
        Some(value) => keep_term(typed, kept, value),
        None => {}
    }
}

/// Of a loop an upper bound below the lower one, and a number of copies that does not divide that of the
/// turns.
#[tactic(auto, using(dh_tree::proofs::Leasts::least_append))]
fn keep_turns(kept: &mut Option<Breach>, header: &LoopHeader)
    ensures { kept.new ≡ least_of kept.old (header_breaches header.now) }
{
    keep_if(
        kept,
        header.high < header.low,
        Rule::ConstantRange,
        header.high_place,
    );
    let is_dealt = divides(header.factor, header.high.saturating_sub(header.low));
    keep_if(kept, !is_dealt, Rule::UnrollDivides, header.factor_place);
}

/// The breaches of a command, without those of the commands inside it.
#[tactic(auto, using(dh_tree::proofs::SeenActions::actions_are, dh_tree::proofs::Leasts::least_append))]
pub fn keep_own(typed: &Typed, kept: &mut Option<Breach>, command: &Command)
    ensures { kept.new ≡ least_of kept.old (own_broken typed.now command.now) }
{
    match &command.form {
        CommandForm::Let { value, .. } => keep_maybe(typed, kept, value),
        CommandForm::LetMemory {
            shape,
            shape_places,
            value,
            ..
        } => {
            keep_shape(kept, shape, shape_places);
            keep_maybe(typed, kept, value);
        }
        CommandForm::Assign { value, .. } => keep_term(typed, kept, value),
        CommandForm::Store { sides } => {
            let sides = sides.as_ref();
            keep_term(typed, kept, &sides.target);
            keep_term(typed, kept, &sides.value);
        }
        CommandForm::Reduce { value, .. } => keep_term(typed, kept, value),
        CommandForm::If { test, .. } => keep_term(typed, kept, test),
        CommandForm::While { test, .. } => keep_term(typed, kept, test),
        CommandForm::For { header, .. } => keep_turns(kept, header),
        CommandForm::Block { .. } => {}
        CommandForm::View { .. } => {}
        CommandForm::Call { .. } => {}
    }
}

/// The breaches in a command.
#[cycle(commands)]
#[tactic(auto, using(dh_tree::proofs::SeenActions::actions_are, dh_tree::proofs::Leasts::least_append))]
fn keep_command(typed: &Typed, kept: &mut Option<Breach>, command: &Command)
    ensures { kept.new ≡ least_of kept.old (command_broken typed.now command.now) }
{
    keep_own(typed, kept, command);
    match &command.form {
        CommandForm::If { then, other, .. } => {
            keep_command(typed, kept, then);
            keep_other(typed, kept, other);
        }
        CommandForm::While { body, .. } => keep_command(typed, kept, body),
        CommandForm::For { body, combine, .. } => {
            keep_command(typed, kept, body);
            keep_other(typed, kept, combine);
        }
        CommandForm::Block { body } => keep_groups(typed, kept, body.as_slice()),
        CommandForm::Let { .. } => {}
        CommandForm::LetMemory { .. } => {}
        CommandForm::Assign { .. } => {}
        CommandForm::Store { .. } => {}
        CommandForm::Reduce { .. } => {}
        CommandForm::View { .. } => {}
        CommandForm::Call { .. } => {}
    }
}

/// Those in a block that may lack.
#[cycle(commands)]
fn keep_other(typed: &Typed, kept: &mut Option<Breach>, other: &Option<Box<Command>>)
    ensures { kept.new ≡ least_of kept.old (other_broken typed.now other.now) }
{
    match other {
        Some(block) => keep_command(typed, kept, block),
        None => {}
    }
}

/// Those in the parts between `---`.
#[cycle(commands)]
#[tactic(auto, using(dh_tree::proofs::SeenActions::actions_are, dh_tree::proofs::Leasts::least_append))]
fn keep_groups(typed: &Typed, kept: &mut Option<Breach>, parts: &[Vec<Command>])
    ensures { kept.new ≡ least_of kept.old (parts_broken typed.now parts.now) }
{
    for part in parts {
        for command in part {
            keep_command(typed, kept, command);
        }
    }
}

/// Those of the rules on views, where a view is declared: memory is wanted there alone.
///
/// # Errors
///
/// `NoMemory`, of a program that declares a view alone; then what was kept stays as it was.
pub fn keep_views(alloc: Global, typed: &Typed, kept: &mut Option<Breach>) -> Result<(), NoMemory>
    ensures { KeepsViews (program_seen typed.now) kept.old kept.new result }
{
    let tree = typed.tree();
    let Ok(judged) = judge_views(alloc, typed, kept) else {
        return Err(NoMemory);
    };
    match judged {
        Some(views) => {
            keep_viewed_command(typed, &views, kept, &tree.body);
            Ok(())
        }
        None => Ok(()),
    }
}

/// The first breach of a program, if there is one.
#[tactic(auto, using(dh_tree::proofs::Leasts::least_append))]
fn first_breach(alloc: Global, typed: &Typed) -> Result<Option<Breach>, NoMemory>
    ensures { FindsBreach (program_seen typed.now) result }
{
    let tree = typed.tree();
    let mut kept = None;
    keep_decl_shapes(&mut kept, tree.decls.as_slice());
    keep_command(typed, &mut kept, &tree.body);
    keep_views(alloc, typed, &mut kept)?;
    Ok(kept)
}

/// Tells whether the sizes, banks, indices, bounds and views of a program keep the rules on shapes. Its time
/// is linear in the source, but for accesses to a bank, each of which costs as much as its memory has
/// dimensions.
///
/// # Errors
///
/// `Refused` with the breach of `BankDivides`, `UnrollDivides`, `BankUnroll`, `DynamicBank`,
/// `ConstantRange` or `ViewFactor` that stands first; or `NoMemory`, of a program that declares a view alone.
pub fn shapes(alloc: Global, typed: &Typed) -> Result<(), PassFault>
    ensures breach { MayTellLeast (shapes_breaches_of (program_seen typed.now)) result }
    ensures memory { WantsForViews (program_seen typed.now) result }
{
    let Ok(first) = first_breach(alloc, typed) else {
        return Err(PassFault::NoMemory);
    };
    match first {
        Some(breach) => Err(PassFault::Refused {
            rule: breach.rule,
            place: breach.place,
        }),
        None => Ok(()),
    }
}
