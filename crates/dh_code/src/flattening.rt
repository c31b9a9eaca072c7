//! Code from expressions and commands.

ghost use Rattle.std.specs.Prelude.{◌≡◌, ◌++◌, Some, map, option_map, slice_get, IfOk};
ghost use Rattle.std.specs.Option.{is_some};
ghost use Rattle.dh_tree.specs.Memories.{memory_in, number_in};
ghost use Rattle.dh_tree.specs.Seen.{term_seen};
ghost use Rattle.dh_meaning.specs.CoreOf.{entity_number, memory_of, way_of};
ghost use Rattle.dh_meaning.specs.Ways.{hidden_in};
ghost use Rattle.dh_ways.specs.Seen.{hidden_seen, way_seen};
ghost use Rattle.dh_meaning.specs.Effects.{kind_in};
ghost use Rattle.dh_code.specs.declared.codes.CodeOperation.TheVariants.{Read};
ghost use Rattle.dh_code.specs.declared.codes.Target.TheVariants.{Row, Through};
ghost use Rattle.dh_code.specs.Flattening.{Aims, FlattensOffsets, IsKeptIn, kept_from, offsets_by, AddsBinary, AddsNothing, ConvertsTo, ExtendsTo, Flattens, FlattensAll, FlattensCommand, FlattensCommands, FlattensOther, HoldsFirst, HoldsFlat, IsAimedAt, IsAssignedIn, IsOneMore, IsReducedIn, IsStillAt, IsStoredIn, AddsStep, hidden_operands, is_aimed, known_by_names, table_in};
ghost use Rattle.dh_code.specs.Made.{aimed_target, hidden_operand, variable_operand};
ghost use Rattle.dh_tree.specs.Kinds.{same_kind};

use crate::codes::{
    Access, Action, Code, CodeOperation, FlatExpression, Kept, ListedCommand, Operand, Target,
    operand_kind,
};
use crate::keeping::Apart;
use crate::operands::{extension, kind_found, kind_mask, literal, result_kind, truth};
use crate::places::{VariableSlots, place_at, place_behind, place_of};
use dh_base::{Items, NoMemory};
use dh_tree::{
    Command, CommandForm, Expr, ExprForm, Kind, MemEntry, Ref, Typed, ViewForm, ViewMap,
};
use dh_value::Op;
use dh_ways::{Hidden, WayRef, WayTable};
use std::alloc::Global;

/// What is known of the names of a program.
#[derive(Clone, Copy)]
pub struct Names<'a> {
    /// Where lists of indices are made.
    pub alloc: Global,
    /// The program.
    pub program: &'a Typed,
    /// The ways of its views.
    pub ways: &'a WayTable,
    /// The slots of its variables.
    pub places: &'a [VariableSlots],
}

/// The number of the memory that an entity is; that of every access of a typed program is one.
fn number_of(names: &Names<'_>, of: Option<u32>) -> usize
    ensures { result ≡ entity_number (number_in (known_by_names names.now).memories of) }
{
    let Some(entity) = of else {
        return 0;
    };
    match names.program.memory_number(entity) {
        Some(number) => number,
        None => 0,
    }
}

/// Whether an entity is a memory.
fn is_memory(names: &Names<'_>, of: Option<u32>) -> bool
    ensures { result ≡ is_some (memory_in (known_by_names names.now).memories of) }
{
    let Some(entity) = of else {
        return false;
    };
    names.program.memory_number(entity).is_some()
}

/// The way of what a name stands for, where that is a view.
pub fn way_of<'a>(names: &Names<'a>, of: &Ref) -> Option<WayRef<'a>>
    ensures { option_map way_seen result ≡ way_of (known_by_names names.now) of.now }
{
    if is_memory(names, of.entity) {
        None
    } else {
        names.ways.get(of.entity)
    }
}

/// The number of the memory that a name stands for, or leads to.
pub fn memory_of(names: &Names<'_>, of: &Ref) -> usize
    ensures { result ≡ memory_of (known_by_names names.now) of.now }
{
    match way_of(names, of) {
        Some(way) => number_of(names, way.memory()),
        None => number_of(names, of.entity),
    }
}

/// What a variable that keeps an offset holds.
fn hidden_value(names: &Names<'_>, hidden: &Hidden) -> Operand
    ensures { result ≡ hidden_operand names.now.places.now (hidden_seen hidden.now) }
{
    let held = place_at(names.places, hidden.entity as usize);
    Operand::Variable {
        first: held.first,
        depth: held.depth,
        kind: hidden.kind,
        mask: kind_mask(hidden.kind),
    }
}

/// These operands, and behind them what the variables hold that keep offsets.
fn with_offsets(
    names: &Names<'_>,
    operands: Items<Operand>,
    hidden: &[Hidden],
) -> Result<Items<Operand>, NoMemory>
    ensures { IfOk result (λ all. all ≡ operands
        ++ hidden_operands names.now.places.now hidden.now) }
{
    let mut all = operands;
    for one in hidden {
        all.push(hidden_value(names, one))?;
    }
    Ok(all)
}

/// Copies of these views.
fn copied_views(alloc: Global, views: &[&ViewMap]) -> Result<Items<ViewMap>, NoMemory>
    ensures { IfOk result (λ copies. copies ≡ map (λ v. v.now) views.now) }
{
    let mut copies = Items::new(alloc);
    for i in 0..views.len() {
        let view = views[i];
        let copy = view.try_clone(alloc)?;
        copies.push(copy)?;
    }
    Ok(copies)
}

/// The element in a row of a bank.
fn row_of(alloc: Global, bank: u64, row: Operand) -> Result<Target, NoMemory>
    ensures { IfOk result (λ t. t ≡ Row bank row) }
{
    let row = Apart::new(alloc, row)?;
    Ok(Target::Row { bank, row })
}

/// The element that so many indices name, with the offsets behind them, through views.
fn passing(
    alloc: Global,
    views: Items<ViewMap>,
    count: usize,
    operands: Items<Operand>,
) -> Result<Target, NoMemory>
    ensures { IfOk result (λ t. t ≡ Through views count operands) }
{
    let views = Apart::new(alloc, views)?;
    let operands = Apart::new(alloc, operands)?;
    Ok(Target::Through {
        views,
        count,
        operands,
    })
}

/// The element that these operands name as indices, through the views on a way.
fn through(
    names: &Names<'_>,
    way: &WayRef<'_>,
    operands: Items<Operand>,
) -> Result<Target, NoMemory>
    ensures { IfOk result (λ t. t ≡ aimed_target names.now.places.now (Some (way_seen way.now))
        operands) }
{
    let count = operands.len();
    let hidden = way.hidden(names.alloc)?;
    let operands = with_offsets(names, operands, hidden.as_slice())?;
    let kept = way.views(names.alloc)?;
    let views = copied_views(names.alloc, kept.as_slice())?;
    passing(names.alloc, views, count, operands)
}

/// The element that these operands name as indices.
fn aim(names: &Names<'_>, of: &Ref, operands: Items<Operand>) -> Result<Target, NoMemory>
    ensures { IfOk result (λ t. Aims names.now of.now operands t) }
{
    match way_of(names, of) {
        Some(way) => through(names, &way, operands),
        None => Ok(Target::Indices { operands }),
    }
}

/// What a variable holds, as a value of a kind.
fn variable(names: &Names<'_>, of: &Ref, kind: Kind) -> Operand
    ensures { result ≡ variable_operand names.now.places.now kind (entity_number of.now.entity) }
{
    let held = place_of(names.places, of);
    Operand::Variable {
        first: held.first,
        depth: held.depth,
        kind,
        mask: kind_mask(kind),
    }
}

/// Adds an operation that gives a value of a kind.
fn add(code: &mut Code, operation: CodeOperation, kind: Kind) -> Result<Operand, NoMemory>
    ensures { IfOk result (λ o. IsOneMore code.old code.new operation kind o) }
{
    let at = code.operations.len();
    code.operations.push(operation)?;
    Ok(Operand::Given {
        kind,
        at,
        mask: kind_mask(kind),
    })
}

/// The kind of the elements of a memory.
fn element_kind(entries: &[MemEntry], memory: usize) -> Kind
    ensures { result ≡ kind_in entries.now memory }
{
    match entries.get(memory) {
        Some(entry) => entry.shape.kind,
        None => Kind::Bool,
    }
}

/// Adds the reading of an element.
fn add_read(names: &Names<'_>, code: &mut Code, access: Access) -> Result<Operand, NoMemory>
    ensures { IfOk result (λ o. IsOneMore code.old code.new (Read access)
        (kind_in (table_in names.now) access.memory) o) }
{
    let kind = element_kind(names.program.memories().as_slice(), access.memory);
    add(code, CodeOperation::Read { access }, kind)
}

/// Whether two kinds are one.
pub fn is_same(a: Kind, b: Kind) -> bool
    ensures { result ≡ same_kind a b }
{
    match (a, b) {
        (Kind::Bool, Kind::Bool) => true,
        (Kind::Unsigned(m), Kind::Unsigned(n)) => m == n,
        (Kind::Signed(m), Kind::Signed(n)) => m == n,
        _ => false,
    }
}

/// A value in another kind: nothing is done where it is of that kind already.
fn converted(code: &mut Code, from: Operand, to: Kind) -> Result<Operand, NoMemory>
    ensures { IfOk result (λ o. ConvertsTo code.old code.new from to o) }
{
    if is_same(operand_kind(&from), to) {
        return Ok(from);
    }
    add(code, CodeOperation::Convert { from, to }, to)
}

/// An operand, extended to an integer kind; as it is for Bool.
fn extended(code: &mut Code, operand: Operand, to: Kind) -> Result<Operand, NoMemory>
    ensures { IfOk result (λ o. ExtendsTo code.old code.new operand to o) }
{
    match to {
        Kind::Bool => Ok(operand),
        Kind::Unsigned(_) => converted(code, operand, to),
        Kind::Signed(_) => converted(code, operand, to),
    }
}

/// Adds an operator on two values.
fn add_binary(code: &mut Code, op: Op, left: Operand, right: Operand) -> Result<Operand, NoMemory>
    ensures { IfOk result (λ o. AddsBinary code.old code.new op left right o) }
{
    let kind = result_kind(op, operand_kind(&left));
    add(code, CodeOperation::Binary { op, left, right }, kind)
}

/// Adds the operations of an expression. Gives its value.
#[cycle(flatten)]
#[tactic(auto, using(dh_tree::proofs::SeenTerms::terms_are))]
fn flatten(names: &Names<'_>, code: &mut Code, value: &Expr) -> Result<Operand, NoMemory>
    ensures { IfOk result (λ o. Flattens names.now code.old code.new value.now o) }
{
    let kind = kind_found(value.kind);
    match &value.form {
        ExprForm::Number { negative, value } => Ok(Operand::Constant {
            word: literal(kind, *negative, *value),
        }),
        ExprForm::Truth { value } => Ok(Operand::Constant {
            word: truth(*value),
        }),
        ExprForm::Variable { of } => Ok(variable(names, of, kind)),
        ExprForm::Access { of, indices } => {
            let operands = flatten_all(names, code, indices.as_slice())?;
            let target = aim(names, of, operands)?;
            let memory = memory_of(names, of);
            let place = value.place;
            add_read(
                names,
                code,
                Access {
                    place,
                    memory,
                    target,
                },
            )
        }
        ExprForm::Physical { of, bank, row, .. } => {
            let row = flatten(names, code, row)?;
            let target = row_of(names.alloc, *bank, row)?;
            let memory = memory_of(names, of);
            let place = value.place;
            add_read(
                names,
                code,
                Access {
                    place,
                    memory,
                    target,
                },
            )
        }
        ExprForm::Binary { op, left, right } => {
            let to = extension(*op, kind_found(left.kind), kind_found(right.kind));
            let a = flatten(names, code, left)?;
            let a = extended(code, a, to)?;
            let b = flatten(names, code, right)?;
            let b = extended(code, b, to)?;
            add_binary(code, *op, a, b)
        }
        ExprForm::Cast { inner, to } => {
            let a = flatten(names, code, inner)?;
            converted(code, a, *to)
        }
    }
}

/// Adds the operations of indices, from the left. Gives their values.
#[cycle(flatten)]
#[tactic(auto, using(dh_tree::proofs::SeenTerms::terms_are))]
fn flatten_all(
    names: &Names<'_>,
    code: &mut Code,
    indices: &[Expr],
) -> Result<Items<Operand>, NoMemory>
    ensures { IfOk result (λ os. FlattensAll names.now code.old code.new indices.now os) }
{
    let mut operands = Items::new(names.alloc);
    for index in indices {
        let operand = flatten(names, code, index)?;
        operands.push(operand)?;
    }
    Ok(operands)
}

/// An expression with its operations.
pub fn flat(names: &Names<'_>, code: &mut Code, value: &Expr) -> Result<FlatExpression, NoMemory>
    ensures { IfOk result (λ f. HoldsFlat names.now code.old code.new value.now f) }
{
    let from = code.operations.len();
    let value = flatten(names, code, value)?;
    Ok(FlatExpression {
        from,
        to: code.operations.len(),
        value,
    })
}

/// A value without operations.
fn still(code: &Code, value: Operand) -> FlatExpression
    ensures { IsStillAt code.now value result }
{
    let from = code.operations.len();
    FlatExpression {
        from,
        to: from,
        value,
    }
}

/// Adds a command in front of those behind it.
fn add_step(code: &mut Code, action: Action, next: Option<usize>) -> Result<Option<usize>, NoMemory>
    ensures { IfOk result (λ first. AddsStep code.old code.new action next first) }
{
    let at = code.steps.len();
    code.steps.push(ListedCommand { action, next })?;
    Ok(Some(at))
}

/// Adds the setting of a variable.
fn add_assign(
    names: &Names<'_>,
    code: &mut Code,
    target: &Ref,
    value: FlatExpression,
    next: Option<usize>,
) -> Result<Option<usize>, NoMemory>
    ensures { IfOk result (λ first. IsAssignedIn names.now code.old code.new target.now value next
        first) }
{
    let held = place_of(names.places, target);
    let action = Action::Assign {
        value,
        first: held.first,
        depth: held.depth,
    };
    add_step(code, action, next)
}

/// Adds a reducer: what the variable holds and a value are put together.
fn add_reduce(
    names: &Names<'_>,
    code: &mut Code,
    target: &Ref,
    op: Op,
    value: &Expr,
    next: Option<usize>,
) -> Result<Option<usize>, NoMemory>
    ensures { IfOk result (λ first. IsReducedIn names.now code.old code.new target.now op value.now
        next first) }
{
    let kind = place_of(names.places, target).kind;
    let to = extension(op, kind, kind_found(value.kind));
    let from = code.operations.len();
    let a = variable(names, target, kind);
    let a = extended(code, a, to)?;
    let b = flatten(names, code, value)?;
    let b = extended(code, b, to)?;
    let value = add_binary(code, op, a, b)?;
    let value = FlatExpression {
        from,
        to: code.operations.len(),
        value,
    };
    add_assign(names, code, target, value, next)
}

/// What a `let` sets its variable to; 0 or false where it has no right side.
#[tactic(auto, using(dh_tree::proofs::SeenTerms::terms_are))]
fn first_value(
    names: &Names<'_>,
    code: &mut Code,
    declared: Option<Kind>,
    value: &Option<Expr>,
) -> Result<FlatExpression, NoMemory>
    ensures { IfOk result (λ f. HoldsFirst names.now code.old code.new declared value.now f) }
{
    match value {
        Some(value) => flat(names, code, value),
        None => {
            let word = literal(kind_found(declared), false, 0);
            Ok(still(code, Operand::Constant { word }))
        }
    }
}

/// The element of a target, with the operations of its indices; None for what is no access.
fn element(names: &Names<'_>, code: &mut Code, target: &Expr) -> Result<Option<Access>, NoMemory>
    ensures { IfOk result (λ a. IsAimedAt names.now code.old code.new target.now a) }
{
    match &target.form {
        ExprForm::Access { of, indices } => {
            let operands = flatten_all(names, code, indices.as_slice())?;
            let aimed = aim(names, of, operands)?;
            Ok(Some(Access {
                place: target.place,
                memory: memory_of(names, of),
                target: aimed,
            }))
        }
        ExprForm::Physical { of, bank, row, .. } => {
            let row = flatten(names, code, row)?;
            let aimed = row_of(names.alloc, *bank, row)?;
            Ok(Some(Access {
                place: target.place,
                memory: memory_of(names, of),
                target: aimed,
            }))
        }
        ExprForm::Number { .. } => Ok(None),
        ExprForm::Truth { .. } => Ok(None),
        ExprForm::Variable { .. } => Ok(None),
        ExprForm::Binary { .. } => Ok(None),
        ExprForm::Cast { .. } => Ok(None),
    }
}

/// Whether a target is an access.
#[tactic(auto, using(dh_tree::proofs::SeenTerms::terms_are))]
fn is_access(target: &Expr) -> bool
    ensures { result ≡ is_aimed (term_seen target.now) }
{
    match &target.form {
        ExprForm::Access { .. } => true,
        ExprForm::Physical { .. } => true,
        ExprForm::Number { .. } => false,
        ExprForm::Truth { .. } => false,
        ExprForm::Variable { .. } => false,
        ExprForm::Binary { .. } => false,
        ExprForm::Cast { .. } => false,
    }
}

/// Adds a command that does nothing.
fn add_nothing(code: &mut Code, next: Option<usize>) -> Result<Option<usize>, NoMemory>
    ensures { IfOk result (λ first. AddsNothing code.old code.new next first) }
{
    let no = Operand::Constant { word: truth(false) };
    let test = still(code, no);
    let action = Action::Choose {
        test,
        chosen: None,
        other: None,
    };
    add_step(code, action, next)
}

/// Adds a store; to what is no access nothing is stored.
fn add_store(
    names: &Names<'_>,
    code: &mut Code,
    target: &Expr,
    value: &Expr,
    next: Option<usize>,
) -> Result<Option<usize>, NoMemory>
    ensures { IfOk result (λ first. IsStoredIn names.now code.old code.new target.now value.now
        next first) }
{
    if !is_access(target) {
        return add_nothing(code, next);
    }
    let from = code.operations.len();
    let value = flatten(names, code, value)?;
    match element(names, code, target)? {
        Some(access) => {
            let to = code.operations.len();
            let value = FlatExpression { from, to, value };
            add_step(code, Action::Store { value, access }, next)
        }
        None => add_nothing(code, next),
    }
}

/// Adds the operations of the offsets of a suffix. Gives their values.
fn flatten_pairs(
    names: &Names<'_>,
    code: &mut Code,
    by: &[(u64, Expr)],
) -> Result<Items<Operand>, NoMemory>
    ensures { IfOk result (λ os. FlattensAll names.now code.old code.new (offsets_by by.now) os) }
{
    let mut operands = Items::new(names.alloc);
    for pair in by {
        let operand = flatten(names, code, &pair.1)?;
        operands.push(operand)?;
    }
    Ok(operands)
}

/// Adds the operations of the offsets of a view. Gives their values.
fn flatten_offsets(
    names: &Names<'_>,
    code: &mut Code,
    form: &ViewForm,
) -> Result<Items<Operand>, NoMemory>
    ensures { IfOk result (λ os. FlattensOffsets names.now code.old code.new form.now os) }
{
    match form {
        ViewForm::Shrink { .. } => Ok(Items::new(names.alloc)),
        ViewForm::Split { .. } => Ok(Items::new(names.alloc)),
        ViewForm::Suffix { by, .. } => flatten_pairs(names, code, by.as_slice()),
        ViewForm::Shift { by } => flatten_all(names, code, by.as_slice()),
    }
}

/// The first variable that keeps an offset on the way of a view, if there is one.
pub fn first_hidden(names: &Names<'_>, of: &Ref) -> Option<Hidden>
    ensures { option_map hidden_seen result
        ≡ slice_get (hidden_in (way_of (known_by_names names.now) of.now)) 0 }
{
    match way_of(names, of) {
        Some(way) => way.first_hidden(),
        None => None,
    }
}

/// These operands, with the variables in which they are kept; their entities follow one another.
fn kept_in(names: &Names<'_>, first: u32, offsets: &[Operand]) -> Result<Items<Kept>, NoMemory>
    ensures { IfOk result (λ ks. ks ≡ kept_from names.now.places.now first offsets.now) }
{
    let mut kept = Items::new(names.alloc);
    for (i, offset) in offsets.iter().enumerate() {
        let held = place_behind(names.places, first, i);
        kept.push(Kept {
            value: *offset,
            first: held.first,
        })?;
    }
    Ok(kept)
}

/// Adds a view: one that moves evaluates its offsets and keeps them.
fn add_view(
    names: &Names<'_>,
    code: &mut Code,
    name: &Ref,
    form: &ViewForm,
    next: Option<usize>,
) -> Result<Option<usize>, NoMemory>
    ensures { IfOk result (λ first. IsKeptIn names.now code.old code.new name.now form.now next
        first) }
{
    let Some(hidden) = first_hidden(names, name) else {
        return Ok(next);
    };
    let from = code.operations.len();
    let offsets = flatten_offsets(names, code, form)?;
    if offsets.is_empty() {
        return Ok(next);
    }
    let to = code.operations.len();
    let values = kept_in(names, hidden.entity, offsets.as_slice())?;
    let action = Action::Keep {
        from,
        to,
        values,
        depth: hidden.depth,
    };
    add_step(code, action, next)
}

/// Adds a command in front of those behind it. Gives the number of the first of all.
#[cycle(flatten_command)]
#[tactic(auto, using(dh_tree::proofs::SeenActions::actions_are))]
pub fn flatten_command(
    names: &Names<'_>,
    code: &mut Code,
    command: &Command,
    next: Option<usize>,
) -> Result<Option<usize>, NoMemory>
    ensures { IfOk result (λ first. FlattensCommand names.now code.old code.new command.now first
        next) }
{
    match &command.form {
        CommandForm::Let {
            declared,
            name,
            value,
        } => {
            let value = first_value(names, code, *declared, value)?;
            add_assign(names, code, name, value, next)
        }
        CommandForm::Assign { target, value } => {
            let value = flat(names, code, value)?;
            add_assign(names, code, target, value, next)
        }
        CommandForm::Store { sides } => {
            let sides = sides.as_ref();
            add_store(names, code, &sides.target, &sides.value, next)
        }
        CommandForm::Reduce { op, target, value } => {
            add_reduce(names, code, target, *op, value, next)
        }
        CommandForm::If { test, then, other } => {
            let test = flat(names, code, test)?;
            let chosen = flatten_command(names, code, then, None)?;
            let other = flatten_other(names, code, other)?;
            let action = Action::Choose {
                test,
                chosen,
                other,
            };
            add_step(code, action, next)
        }
        CommandForm::Block { body } => {
            let parts = body.as_slice();
            let mut first = next;
            for i in (0..parts.len()).rev() {
                let part = parts[i].as_slice();
                for j in (0..part.len()).rev() {
                    first = flatten_command(names, code, &part[j], first)?;
                }
            }
            Ok(first)
        }
        CommandForm::LetMemory { .. } => Ok(next),
        CommandForm::View { name, form, .. } => add_view(names, code, name, form, next),
        CommandForm::Call { .. } => Ok(next),
        CommandForm::While { .. } => Ok(next),
        CommandForm::For { .. } => Ok(next),
    }
}

/// Adds those of an arm that may lack.
#[cycle(flatten_command)]
fn flatten_other(
    names: &Names<'_>,
    code: &mut Code,
    other: &Option<Box<Command>>,
) -> Result<Option<usize>, NoMemory>
    ensures { IfOk result (λ first. FlattensOther names.now code.old code.new other.now first) }
{
    match other {
        Some(block) => flatten_command(names, code, block, None),
        None => Ok(None),
    }
}

/// Adds commands in order. Gives the number of the first.
pub fn flatten_commands(
    names: &Names<'_>,
    code: &mut Code,
    commands: &[&Command],
) -> Result<Option<usize>, NoMemory>
    ensures { IfOk result (λ first. FlattensCommands names.now code.old code.new commands.now
        first) }
{
    let mut first = None;
    for i in (0..commands.len()).rev() {
        first = flatten_command(names, code, commands[i], first)?;
    }
    Ok(first)
}
