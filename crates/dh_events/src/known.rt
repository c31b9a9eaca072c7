//! What is known of expressions in indices: the numbers of their structures, and when a variable in
//! them was last assigned.

ghost use Rattle.std.specs.Prelude.{◌≡◌, Some, None, option_map, IfOk};
ghost use Rattle.dh_meets.specs.Sharing.{number_of_op};
ghost use Rattle.dh_events.specs.declared.structures.Form.TheVariants as form;
ghost use Rattle.dh_events.specs.Structures as definitions;
ghost use Rattle.dh_events.specs.Elements.{both_known, MakesCast, MakesIndex, MakesNoIndex, MakesNumber, MakesOperation, MakesRead, MakesBankRow, MakesTruth, MakesVariable, MakesFrom};
ghost use Rattle.dh_events.specs.Tables.{table_at};

use crate::structures::{Form, MaybeKind, Structure, Structures, op_number, sort_of};
use crate::tables::get_at;
use dh_base::NoMemory;
use dh_value::{Kind, Op};

/// What is known of an expression in an index.
#[derive(Clone, Copy)]
pub struct Known {
    /// The number of its structure; none where a name in it stands for nothing.
    pub structure: Option<usize>,
    /// The moment behind the last assignment to a variable in it; 0 before any.
    pub newest: usize,
}

/// What is known of what is made of parts, of which the newest assignment is known; no form where a
/// name in them stands for nothing.
fn made(
    structures: &mut Structures,
    sort: MaybeKind,
    form: Option<Form>,
    newest: usize,
) -> Result<Known, NoMemory>
    ensures { IfOk result (λ k. MakesFrom structures.old structures.new sort form newest k) }
{
    match form {
        Some(form) => {
            let number = structures.number(Structure { sort, form })?;
            Ok(Known {
                structure: Some(number),
                newest,
            })
        }
        None => Ok(Known {
            structure: None,
            newest,
        }),
    }
}

/// What is known of a number.
pub fn number(
    structures: &mut Structures,
    sort: MaybeKind,
    negative: bool,
    value: u64,
) -> Result<Known, NoMemory>
    ensures { IfOk result (λ k. MakesNumber structures.old structures.new sort negative value k) }
{
    made(structures, sort, Some(Form::Number { negative, value }), 0)
}

/// What is known of `true` or `false`.
pub fn truth(structures: &mut Structures, sort: MaybeKind, value: bool) -> Result<Known, NoMemory>
    ensures { IfOk result (λ k. MakesTruth structures.old structures.new sort value k) }
{
    made(structures, sort, Some(Form::Truth { value }), 0)
}

/// What is known of a variable, by the moments of last assignments.
pub fn variable(
    structures: &mut Structures,
    clocks: &[usize],
    sort: MaybeKind,
    entity: Option<u32>,
) -> Result<Known, NoMemory>
    ensures { IfOk result (λ k. MakesVariable structures.old structures.new
        (table_at clocks.now) sort entity k) }
{
    match entity {
        Some(entity) => {
            let newest = get_at(clocks, entity);
            made(structures, sort, Some(Form::Variable { entity }), newest)
        }
        None => made(structures, sort, None, 0),
    }
}

/// The form of a read of an element.
fn read_form(entity: Option<u32>, element: Known) -> Option<Form>
    ensures { result ≡ both_known entity element.structure (λ e n. form.Read e n) }
{
    match entity {
        Some(entity) => match element.structure {
            Some(element) => Some(Form::Read { entity, element }),
            None => None,
        },
        None => None,
    }
}

/// What is known of a read of an element.
pub fn reading(
    structures: &mut Structures,
    sort: MaybeKind,
    entity: Option<u32>,
    element: Known,
) -> Result<Known, NoMemory>
    ensures { IfOk result (λ k. MakesRead structures.old structures.new sort entity element k) }
{
    made(structures, sort, read_form(entity, element), element.newest)
}

/// The form of an operation.
fn operation_form(op: Op, left: Known, right: Known) -> Option<Form>
    ensures { result ≡ both_known left.structure right.structure
        (λ l r. form.Operation (number_of_op op) l r) }
{
    let op = op_number(op);
    match left.structure {
        Some(left) => match right.structure {
            Some(right) => Some(Form::Operation { op, left, right }),
            None => None,
        },
        None => None,
    }
}

/// What is known of an operation.
pub fn operation(
    structures: &mut Structures,
    sort: MaybeKind,
    op: Op,
    left: Known,
    right: Known,
) -> Result<Known, NoMemory>
    ensures { IfOk result (λ k. MakesOperation structures.old structures.new sort op left right k) }
{
    let newest = left.newest.max(right.newest);
    made(structures, sort, operation_form(op, left, right), newest)
}

/// The form of a cast.
fn cast_form(to: Kind, inner: Known) -> Option<Form>
    ensures { result ≡ option_map (λ n. form.Cast (definitions.kind_sort to) n) inner.structure }
{
    let to = sort_of(to);
    match inner.structure {
        Some(inner) => Some(Form::Cast { to, inner }),
        None => None,
    }
}

/// What is known of a cast.
pub fn cast(
    structures: &mut Structures,
    sort: MaybeKind,
    to: Kind,
    inner: Known,
) -> Result<Known, NoMemory>
    ensures { IfOk result (λ k. MakesCast structures.old structures.new sort to inner k) }
{
    made(structures, sort, cast_form(to, inner), inner.newest)
}

/// What is known of no indices.
pub fn no_index(structures: &mut Structures) -> Result<Known, NoMemory>
    ensures { IfOk result (λ k. MakesNoIndex structures.old structures.new k) }
{
    made(structures, MaybeKind::Unknown, Some(Form::NoIndex), 0)
}

/// What is known of indices, if there are any, and one more.
pub fn index(
    structures: &mut Structures,
    before: Option<Known>,
    last: Known,
) -> Result<Known, NoMemory>
    ensures { IfOk result (λ k. MakesIndex structures.old structures.new before last k) }
{
    match before {
        Some(before) => {
            let newest = before.newest.max(last.newest);
            made(
                structures,
                MaybeKind::Unknown,
                index_behind(before, last),
                newest,
            )
        }
        None => made(
            structures,
            MaybeKind::Unknown,
            first_index(last),
            last.newest,
        ),
    }
}

/// The form of the first index.
fn first_index(last: Known) -> Option<Form>
    ensures { result ≡ option_map (λ n. form.Index None n) last.structure }
{
    match last.structure {
        Some(last) => Some(Form::Index { before: None, last }),
        None => None,
    }
}

/// The form of an index behind others.
fn index_behind(before: Known, last: Known) -> Option<Form>
    ensures { result ≡ both_known before.structure last.structure (λ b n. form.Index (Some b) n) }
{
    match before.structure {
        Some(before) => match last.structure {
            Some(last) => Some(Form::Index {
                before: Some(before),
                last,
            }),
            None => None,
        },
        None => None,
    }
}

/// The form of a row of a bank.
fn row_form(bank: u64, row: Known) -> Option<Form>
    ensures { result ≡ option_map (λ n. form.Row bank n) row.structure }
{
    match row.structure {
        Some(row) => Some(Form::Row { bank, row }),
        None => None,
    }
}

/// What is known of a row of a bank.
pub fn row(structures: &mut Structures, bank: u64, row: Known) -> Result<Known, NoMemory>
    ensures { IfOk result (λ k. MakesBankRow structures.old structures.new bank row k) }
{
    made(
        structures,
        MaybeKind::Unknown,
        row_form(bank, row),
        row.newest,
    )
}
