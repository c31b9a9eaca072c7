//! The kinds within the parts of commands.

ghost use Rattle.std.specs.Prelude.{◌≡◌, OnOk};
ghost use Rattle.dh_tree.specs.Kinds as rules;
ghost use Rattle.dh_types.specs.Walks.{typing_state_of, entered, TypesVariable, TypesMemory, TypesViewed, TypesSides};

use crate::facts::{Fact, memory_fact, variable_fact};
use crate::walks::Walk;
use dh_base::NoMemory;
use dh_tree::{Expr, Kind, LoopHeader, Ref, Shape, Sides, ViewForm};

// The kind of an iterator: the unsigned one of 32 bits where none is written.
fn iterator_kind(declared: Option<Kind>) -> Kind
    ensures { result ≡ rules.iterator_kind declared }
{
    match declared {
        Some(kind) => kind,
        None => Kind::Unsigned(32),
    }
}

impl Walk {
    /// Gives the right side of a variable its kinds, and learns what is known of it.
    pub fn variable(
        &mut self,
        declared: Option<Kind>,
        value: &mut Option<Expr>,
    ) -> Result<(), NoMemory>
        ensures { OnOk result (TypesVariable self.old self.new declared value.old value.new) }
    {
        self.value(declared, value);
        self.learn(variable_fact(declared, value))
    }

    /// Gives the right side of a memory its kinds, and learns what is known of it.
    pub fn memory(&mut self, shape: &Shape, value: &mut Option<Expr>) -> Result<(), NoMemory>
        ensures { OnOk result (TypesMemory self.old self.new shape.now value.old value.new) }
    {
        self.value(Some(shape.kind), value);
        self.learn(memory_fact(shape))
    }

    /// Gives the offsets of a view of this parent their kinds, and learns what is known of it.
    pub fn viewed(&mut self, parent: &Ref, form: &mut ViewForm) -> Result<(), NoMemory>
        ensures { OnOk result (TypesViewed self.old self.new parent.now form.old form.new) }
    {
        self.parent(parent);
        self.plan(form);
        self.learn(self.view(parent, form))
    }

    /// Gives both sides of a store their kinds.
    pub fn sides(&mut self, sides: &mut Sides)
        ensures { TypesSides self.old self.new sides.old sides.new }
    {
        self.access(&mut sides.target);
        self.right_side(sides.target.kind, &mut sides.value);
    }

    /// Looks at the iterator of a loop and its bounds, and learns what is known of it.
    pub fn header(&mut self, header: &LoopHeader) -> Result<(), NoMemory>
        ensures { OnOk result (typing_state_of self.new ≡ entered (typing_state_of self.old) header.now) }
    {
        let kind = iterator_kind(header.declared);
        self.bounds(
            &header.iterator,
            kind,
            (header.low, header.low_place),
            (header.high, header.high_place),
        );
        self.learn(Fact::Iterator { kind })
    }
}
