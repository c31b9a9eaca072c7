//! What is known of entities.

ghost use Rattle.std.specs.Prelude.{◌≡◌, ◌<◌, MatchResult, length};
ghost use Rattle.dh_tree.specs.Seen.{view_plan};
ghost use Rattle.dh_tree.specs.Kinds as rules;
ghost use Rattle.dh_types.specs.Facts.{fact_seen, facts_seen, known_fact, IsFunctionFact, parameter_kinds};
ghost use Rattle.dh_types.specs.InTrees.{value_seen};

use dh_base::{Items, NoMemory};
use dh_tree::{Expr, Function, Kind, Parameter, Ref, Shape, ViewForm};
use std::alloc::Global;

/// What is known of an entity.
#[derive(Drop)]
pub enum Fact {
    /// A variable or a scalar parameter.
    Variable {
        /// Its kind; None where the right side of its `let` has none.
        kind: Option<Kind>,
    },
    /// The iterator of a `for`.
    Iterator {
        /// Its kind.
        kind: Kind,
    },
    /// A memory or a view.
    Memory {
        /// The kind of its elements; None for a view of what is no memory.
        kind: Option<Kind>,
        /// The number of its dimensions.
        dims: usize,
    },
    /// A function.
    Function {
        /// The kinds of its parameters, in order.
        parameters: Items<Kind>,
    },
}

/// What is known of what a name stands for.
pub fn fact_of<'a>(facts: &'a [Fact], name: &Ref) -> Option<&'a Fact>
    ensures { known_fact result ≡ rules.fact_of (facts_seen facts.now) name.now }
{
    match name.entity {
        Some(number) => facts.get(number as usize),
        None => None,
    }
}

/// What is known of a variable: its kind as it is written, or that of its right side; Bool where
/// neither is there.
pub fn variable_fact(declared: Option<Kind>, value: &Option<Expr>) -> Fact
    ensures { fact_seen result ≡ rules.variable_fact declared (value_seen value.now) }
{
    match (declared, value) {
        (Some(kind), _) => Fact::Variable { kind: Some(kind) },
        (None, Some(value)) => Fact::Variable { kind: value.kind },
        (None, None) => Fact::Variable {
            kind: Some(Kind::Bool),
        },
    }
}

// The dimensions of a view of a parent with so many.
fn view_dims(form: &ViewForm, dims: usize) -> usize
    ensures { result ≡ rules.view_dims (view_plan form.now) dims }
{
    match form {
        ViewForm::Split { .. } => 2,
        ViewForm::Shrink { .. } | ViewForm::Suffix { .. } | ViewForm::Shift { .. } => dims,
    }
}

/// What is known of a view, by what is known of its parent.
pub fn view_fact(parent: Option<&Fact>, form: &ViewForm) -> Fact
    ensures { fact_seen result ≡ rules.view_fact (known_fact parent.entry) (view_plan form.now) }
{
    match parent {
        Some(Fact::Memory { kind, dims }) => Fact::Memory {
            kind: *kind,
            dims: view_dims(form, *dims),
        },
        _ => Fact::Memory {
            kind: None,
            dims: view_dims(form, 0),
        },
    }
}

/// What is known of a memory of a shape.
pub fn memory_fact(shape: &Shape) -> Fact
    ensures { fact_seen result ≡ rules.parameter_fact shape.now.kind (Some shape.now) }
{
    Fact::Memory {
        kind: Some(shape.kind),
        dims: shape.dims.len(),
    }
}

/// What is known of a parameter.
pub fn parameter_fact(parameter: &Parameter) -> Fact
    ensures { fact_seen result ≡ rules.parameter_fact parameter.now.kind parameter.now.shape }
{
    match &parameter.shape {
        Some(shape) => Fact::Memory {
            kind: Some(parameter.kind),
            dims: shape.dims.len(),
        },
        None => Fact::Variable {
            kind: Some(parameter.kind),
        },
    }
}

// The kinds of parameters, in order.
fn kinds_of(alloc: Global, parameters: &[Parameter]) -> Result<Items<Kind>, NoMemory>
    ensures { MatchResult result (λ kinds. kinds ≡ parameter_kinds parameters.now)
        (λ _. 0 < length parameters.now) }
{
    let mut kinds = Items::new(alloc);
    for parameter in parameters {
        kinds.push(parameter.kind)?;
    }
    Ok(kinds)
}

/// What is known of a function.
pub fn function_fact(alloc: Global, function: &Function) -> Result<Fact, NoMemory>
    ensures { MatchResult result (λ fact. IsFunctionFact function.now fact)
        (λ _. 0 < length function.now.parameters.items) }
{
    let parameters = kinds_of(alloc, function.parameters.as_slice())?;
    Ok(Fact::Function { parameters })
}

/// The kinds of the parameters of a function; none for what is no function.
pub fn parameters_of<'a>(fact: Option<&'a Fact>) -> &'a [Kind]
    ensures { result.now ≡ rules.parameters_of (known_fact fact.entry) }
{
    match fact {
        Some(Fact::Function { parameters }) => parameters.as_slice(),
        _ => &[],
    }
}
