//! How many accesses commands make: the number of the access behind theirs. A number stays below 2^32; a tree of a
//! text has fewer accesses, since it has fewer tokens.

ghost use Rattle.std.specs.Prelude.{◌≡◌, [], map, option_map};
ghost use Rattle.dh_meaning.specs.AccessNumbers.{term_accesses, terms_accesses, maybe_accesses, plan_accesses, accesses_of, other_accesses, groups_accesses};
ghost use Rattle.dh_tree.specs.PlainTrees.{suffixes};
ghost use Rattle.dh_tree.specs.Seen.{term_seen, all_terms_seen, factor_seen, view_plan, action_seen, maybe_block_seen, all_parts_seen};
ghost use Rattle.dh_phases.specs.Counted.{behind};

use dh_tree::{Command, CommandForm, Expr, ExprForm, ViewForm};

/// The number behind those of the accesses of an expression, which are numbered from `first` on.
#[cycle(counting_terms)]
#[tactic(auto, using(dh_tree::proofs::SeenTerms::terms_are))]
pub fn behind_term(first: u32, value: &Expr) -> u32
    ensures { result ≡ behind first (term_accesses (term_seen value.now)) }
{
    match &value.form {
        ExprForm::Number { .. } => first,
        ExprForm::Truth { .. } => first,
        ExprForm::Variable { .. } => first,
        ExprForm::Access { indices, .. } => {
            behind_terms(first, indices.as_slice()).saturating_add(1)
        }
        ExprForm::Physical { row, .. } => behind_term(first, row).saturating_add(1),
        ExprForm::Binary { left, right, .. } => {
            let next = behind_term(first, left);
            behind_term(next, right)
        }
        ExprForm::Cast { inner, .. } => behind_term(first, inner),
    }
}

/// Behind those of indices.
#[cycle(counting_terms)]
fn behind_terms(first: u32, indices: &[Expr]) -> u32
    ensures { result ≡ behind first (terms_accesses (all_terms_seen indices.now)) }
{
    let mut next = first;
    for index in indices {
        next = behind_term(next, index);
    }
    next
}

/// Behind those of a value that may lack.
fn behind_value(first: u32, value: &Option<Expr>) -> u32
    ensures { result ≡ behind first (maybe_accesses (option_map term_seen value.now)) }
{
    match value {
        Some(value) => behind_term(first, value),
        None => first,
    }
}

/// Behind those of the offsets of a suffix.
fn behind_suffixes(first: u32, by: &[(u64, Expr)]) -> u32
    ensures { result ≡ behind first (plan_accesses (suffixes (map factor_seen by.now) [])) }
{
    let mut next = first;
    for pair in by {
        next = behind_term(next, &pair.1);
    }
    next
}

/// Behind those of the offsets of a view.
fn behind_offsets(first: u32, form: &ViewForm) -> u32
    ensures { result ≡ behind first (plan_accesses (view_plan form.now)) }
{
    match form {
        ViewForm::Shrink { .. } => first,
        ViewForm::Split { .. } => first,
        ViewForm::Suffix { by, .. } => behind_suffixes(first, by.as_slice()),
        ViewForm::Shift { by } => behind_terms(first, by.as_slice()),
    }
}

/// The number behind those of the accesses of a command and of the commands inside it.
#[cycle(counting)]
#[tactic(auto, using(dh_tree::proofs::SeenActions::actions_are))]
pub fn behind_command(first: u32, command: &Command) -> u32
    ensures { result ≡ behind first (accesses_of (action_seen command.now)) }
{
    match &command.form {
        CommandForm::Let { value, .. } => behind_value(first, value),
        CommandForm::Assign { value, .. } => behind_term(first, value),
        CommandForm::Reduce { value, .. } => behind_term(first, value),
        CommandForm::Store { sides } => {
            let sides = sides.as_ref();
            let next = behind_term(first, &sides.value);
            behind_term(next, &sides.target)
        }
        CommandForm::If { test, then, other } => {
            let tests = behind_term(first, test);
            let next = behind_command(tests, then);
            behind_other(next, other)
        }
        CommandForm::While { test, body } => {
            let next = behind_term(first, test);
            behind_command(next, body)
        }
        CommandForm::For { body, combine, .. } => {
            let next = behind_command(first, body);
            behind_other(next, combine)
        }
        CommandForm::Block { body } => behind_parts(first, body.as_slice()),
        CommandForm::LetMemory { .. } => first,
        CommandForm::View { form, .. } => behind_offsets(first, form),
        CommandForm::Call { .. } => first,
    }
}

/// Behind those of a block that may lack.
#[cycle(counting)]
pub fn behind_other(first: u32, other: &Option<Box<Command>>) -> u32
    ensures { result ≡ behind first (other_accesses (maybe_block_seen other.now)) }
{
    match other {
        Some(block) => behind_command(first, block),
        None => first,
    }
}

/// Behind those of the parts between `---`.
#[cycle(counting)]
#[tactic(auto, using(dh_tree::proofs::SeenActions::actions_are))]
fn behind_parts(first: u32, parts: &[Vec<Command>]) -> u32
    ensures { result ≡ behind first (groups_accesses (all_parts_seen parts.now)) }
{
    let mut next = first;
    for part in parts {
        for command in part {
            next = behind_command(next, command);
        }
    }
    next
}
