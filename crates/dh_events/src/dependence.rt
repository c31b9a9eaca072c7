//! On the copies of which loops the value of an expression depends.

ghost use Rattle.std.specs.Prelude.{◌≡◌, ◌<◌, ◌≤◌, Some, IfOk, OnOk, length, map, min};
ghost use Rattle.dh_tree.specs.Seen.{action_seen, part_seen, groups, maybe_block_seen};
ghost use Rattle.dh_events.specs.Depending.{all_bindings, AddsWayScopes, TellsAccessDepends, TellsAnyDepends, TellsEntityDepends, TellsValueDepends, TellsVariableDepends};
ghost use Rattle.dh_events.specs.Scopes.{groups_scopes, hidden_scopes, led_scopes, most_depth, other_scopes, scope, scope_at, scopes_in, told_inside, with_scope, AreScopes, MakeScopes};

use dh_base::NoMemory;
use dh_tree::{Command, CommandForm, Expr, ExprForm, Ref};
use dh_ways::{Hidden, WayTable};
use std::alloc::Global;

/// Where a variable is declared.
#[derive(Clone, Copy)]
pub struct Scope {
    /// How many unrolled loops stand round its declaration; of an iterator with its own loop.
    pub depth: usize,
    /// The factor of the loop of which it is the iterator.
    pub iterates: Option<u64>,
}

/// Adds places of variables that are not declared, up to a length.
fn grow(scopes: &mut Vec<Option<Scope>>, to: usize) -> Result<(), NoMemory>
    ensures same { OnOk result (MakeScopes scopes.old scopes.new (λ f. f)) }
    ensures long { OnOk result (to ≤ length scopes.new.items) }
{
    for _ in scopes.len()..to {
        scopes.push(None)?;
    }
    Ok(())
}

/// Notes where the variable of a place is declared, where that is its first declaration.
fn put(scopes: &mut Vec<Option<Scope>>, place: usize, scope: Scope)
    requires within { place < length scopes.old.items }
    ensures { scope_at scopes.new.items
        ≡ with_scope (scope_at scopes.old.items) (Some place) scope }
{
    if scopes[place].is_none() {
        scopes[place] = Some(scope);
    }
}

/// Notes where what an entity is is declared, where that is its first declaration.
fn declare_entity(
    scopes: &mut Vec<Option<Scope>>,
    entity: Option<u32>,
    scope: Scope,
) -> Result<(), NoMemory>
    ensures { OnOk result (MakeScopes scopes.old scopes.new (λ f. with_scope f entity scope)) }
{
    if let Some(entity) = entity {
        let place = entity as usize;
        grow(scopes, place + 1)?;
        put(scopes, place, scope);
    }
    Ok(())
}

/// Notes where a variable is declared, where that is its first declaration.
pub(crate) fn declare(
    scopes: &mut Vec<Option<Scope>>,
    name: &Ref,
    scope: Scope,
) -> Result<(), NoMemory>
    ensures { OnOk result (MakeScopes scopes.old scopes.new
        (λ f. with_scope f name.now.entity scope)) }
{
    declare_entity(scopes, name.entity, scope)
}

/// A depth that ways tell, as scopes tell it.
fn told_depth(depth: u32) -> usize
    ensures { result ≡ min depth most_depth }
{
    depth as usize
}

/// Notes views that lead to memories: each has the depth of the deepest command on its way.
fn note_led(scopes: &mut Vec<Option<Scope>>, ways: &WayTable) -> Result<(), NoMemory>
    ensures { OnOk result (MakeScopes scopes.old scopes.new (led_scopes ways.now)) }
{
    for place in 0..ways.len() {
        let way = ways.at(place);
        let depth = told_depth(way.deepest());
        let entity = ways.entity_at(place);
        declare_entity(
            scopes,
            entity,
            Scope {
                depth,
                iterates: None,
            },
        )?;
    }
    Ok(())
}

/// Notes the variables that keep offsets.
fn note_hidden(scopes: &mut Vec<Option<Scope>>, hidden: &[Hidden]) -> Result<(), NoMemory>
    ensures { OnOk result (MakeScopes scopes.old scopes.new (hidden_scopes hidden.now)) }
{
    for one in hidden {
        let depth = told_depth(one.depth);
        declare_entity(
            scopes,
            Some(one.entity),
            Scope {
                depth,
                iterates: None,
            },
        )?;
    }
    Ok(())
}

/// The depth inside a loop of a factor.
fn depth_inside(depth: usize, factor: u64) -> usize
    ensures { result ≡ told_inside depth factor }
{
    if factor > 1 {
        depth.saturating_add(1)
    } else {
        depth
    }
}

/// Notes where the iterator of a loop is declared that stands so many unrolled loops deep, and
/// answers the depth inside it.
pub(crate) fn declare_iterator(
    scopes: &mut Vec<Option<Scope>>,
    depth: usize,
    iterator: &Ref,
    factor: u64,
) -> Result<usize, NoMemory>
    ensures noted { OnOk result (MakeScopes scopes.old scopes.new
        (λ f. with_scope f iterator.now.entity (scope (told_inside depth factor) (Some factor)))) }
    ensures inside { IfOk result (λ inside. inside ≡ told_inside depth factor) }
{
    let depth = depth_inside(depth, factor);
    let iterates = Some(factor);
    declare(scopes, iterator, Scope { depth, iterates })?;
    Ok(depth)
}

/// Notes where the variables of a command are declared that stands so many unrolled loops deep.
#[cycle(scoping)]
#[tactic(auto, using(dh_tree::proofs::SeenActions::actions_are))]
fn note_scopes(
    scopes: &mut Vec<Option<Scope>>,
    depth: usize,
    command: &Command,
) -> Result<(), NoMemory>
    ensures { OnOk result (MakeScopes scopes.old scopes.new
        (scopes_in depth (action_seen command.now))) }
{
    match &command.form {
        CommandForm::Let { name, .. } => declare(
            scopes,
            name,
            Scope {
                depth,
                iterates: None,
            },
        ),
        CommandForm::Block { body } => note_parts(scopes, depth, body.as_slice()),
        CommandForm::If { then, other, .. } => {
            note_scopes(scopes, depth, then)?;
            note_other(scopes, depth, other)
        }
        CommandForm::While { body, .. } => note_scopes(scopes, depth, body),
        CommandForm::For {
            header,
            body,
            combine,
        } => {
            let header = header.as_ref();
            let inside = declare_iterator(scopes, depth, &header.iterator, header.factor)?;
            note_scopes(scopes, inside, body)?;
            note_other(scopes, inside, combine)
        }
        CommandForm::LetMemory { .. }
        | CommandForm::View { .. }
        | CommandForm::Assign { .. }
        | CommandForm::Store { .. }
        | CommandForm::Reduce { .. }
        | CommandForm::Call { .. } => Ok(()),
    }
}

/// Those of a block that may lack.
#[cycle(scoping)]
fn note_other(
    scopes: &mut Vec<Option<Scope>>,
    depth: usize,
    other: &Option<Box<Command>>,
) -> Result<(), NoMemory>
    ensures { OnOk result (MakeScopes scopes.old scopes.new
        (other_scopes depth (maybe_block_seen other.now))) }
{
    match other {
        Some(block) => note_scopes(scopes, depth, block),
        None => Ok(()),
    }
}

/// Those of parts.
#[cycle(scoping)]
fn note_parts(
    scopes: &mut Vec<Option<Scope>>,
    depth: usize,
    parts: &[Vec<Command>],
) -> Result<(), NoMemory>
    ensures { OnOk result (MakeScopes scopes.old scopes.new
        (groups_scopes depth (groups (map part_seen parts.now)))) }
{
    for part in parts {
        for command in part {
            note_scopes(scopes, depth, command)?;
        }
    }
    Ok(())
}

/// Notes behind the variables of a body, which are noted, where each of these views is declared and of
/// each variable that keeps their offsets.
pub fn note_ways(
    scopes: &mut Vec<Option<Scope>>,
    ways: &WayTable,
    hidden: &[Hidden],
) -> Result<(), NoMemory>
    ensures { OnOk result (AddsWayScopes ways.now hidden.now scopes.old.items scopes.new.items) }
{
    note_led(scopes, ways)?;
    note_hidden(scopes, hidden)?;
    Ok(())
}

/// By its entity where each variable of a program's body is declared, and behind them each of
/// these views and of the variables that keep their offsets.
pub fn scopes_of(
    alloc: Global,
    body: &Command,
    ways: &WayTable,
    hidden: &[Hidden],
) -> Result<Vec<Option<Scope>>, NoMemory>
    ensures { IfOk result (λ scopes. AreScopes
        (all_bindings (action_seen body.now) ways.now hidden.now) scopes.items) }
{
    let mut scopes = Vec::new(alloc);
    note_scopes(&mut scopes, 0, body)?;
    note_ways(&mut scopes, ways, hidden)?;
    Ok(scopes)
}

/// Whether a variable depends on the loop of a level.
fn scope_depends(scope: Scope, level: usize) -> bool
    ensures { TellsVariableDepends scope level result }
{
    match scope.iterates {
        Some(factor) => factor > 1 && level < scope.depth && level == scope.depth - 1,
        None => level < scope.depth,
    }
}

/// Whether what a name stands for depends on the loop of a level.
fn entity_depends(scopes: &[Option<Scope>], level: usize, entity: Option<u32>) -> bool
    ensures { TellsEntityDepends scopes.now level entity result }
{
    match entity {
        Some(entity) => {
            let entity = entity as usize;
            if entity < scopes.len() {
                match scopes[entity] {
                    Some(scope) => scope_depends(scope, level),
                    None => false,
                }
            } else {
                false
            }
        }
        None => false,
    }
}

/// Whether the value of an expression depends on the loop of a level.
#[cycle(depending)]
#[tactic(auto, using(dh_tree::proofs::SeenTerms::terms_are))]
fn depends(scopes: &[Option<Scope>], level: usize, expr: &Expr) -> bool
    ensures { TellsValueDepends scopes.now level expr.now result }
{
    match &expr.form {
        ExprForm::Number { .. } | ExprForm::Truth { .. } => false,
        ExprForm::Variable { of } => entity_depends(scopes, level, of.entity),
        ExprForm::Access { of, indices } => {
            entity_depends(scopes, level, of.entity)
                || any_depends(scopes, level, indices.as_slice())
        }
        ExprForm::Physical { row, .. } => depends(scopes, level, row),
        ExprForm::Binary { left, right, .. } => {
            depends(scopes, level, left) || depends(scopes, level, right)
        }
        ExprForm::Cast { inner, .. } => depends(scopes, level, inner),
    }
}

/// Whether one of these depends on it.
#[cycle(depending)]
fn any_depends(scopes: &[Option<Scope>], level: usize, exprs: &[Expr]) -> bool
    ensures { TellsAnyDepends scopes.now level exprs.now result }
{
    for expr in exprs {
        if depends(scopes, level, expr) {
            return true;
        }
    }
    false
}

/// Whether an access depends on the loop of a level; a write on every one, a read through views on
/// those of the commands on its way.
#[tactic(auto, using(dh_tree::proofs::SeenTerms::terms_are))]
pub fn access_depends(scopes: &[Option<Scope>], level: usize, access: &Expr, writes: bool) -> bool
    ensures { TellsAccessDepends scopes.now level access.now writes result }
{
    if writes {
        return true;
    }
    match &access.form {
        ExprForm::Access { of, indices } => {
            entity_depends(scopes, level, of.entity)
                || any_depends(scopes, level, indices.as_slice())
        }
        ExprForm::Physical { of, row, .. } => {
            entity_depends(scopes, level, of.entity) || depends(scopes, level, row)
        }
        ExprForm::Number { .. }
        | ExprForm::Truth { .. }
        | ExprForm::Variable { .. }
        | ExprForm::Binary { .. }
        | ExprForm::Cast { .. } => false,
    }
}
