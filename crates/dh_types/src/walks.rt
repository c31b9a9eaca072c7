//! A walk through the text of a program.

ghost use Rattle.std.specs.Prelude.{◌≡◌, None};
ghost use Rattle.dh_tree.specs.Seen.{term_seen, expressions_seen};
ghost use Rattle.dh_tree.specs.KindBreaches.{term_kind_breaches, condition_breaches, arguments_breaches};
ghost use Rattle.dh_types.specs.Facts.{IsViewFact};
ghost use Rattle.dh_types.specs.InTrees.{value_seen, TypesTerm, TypesRightSide, TypesValue, TypesAssigned, TypesArguments, TypesCall};
ghost use Rattle.dh_types.specs.Judging.{KeepsArguments, breaches_for, maybe_breaches_for, bounds_breaches};
ghost use Rattle.dh_types.specs.Walks.{LearnsFact, NotesAll, NotesBy, NotesAssigned, NotesReduced, NotesParent, first_kind_of, others_of};

use crate::expressions::type_term;
use crate::facts::{Fact, fact_of, parameters_of, view_fact};
use crate::finding::value_kind;
use crate::judging::{
    high_breach, iterator_breach, keep_argument, keep_condition, keep_right_side, keep_term,
    low_breach, parent_breach, reducer_breach, target_breach,
};
use crate::keeping::keep;
use crate::sorts::for_numbers;
use dh_base::{NoMemory, Place};
use dh_tree::{Breach, Expr, Kind, Ref, ViewForm};

/// A walk through the text of a program, up to some point.
#[derive(Drop)]
pub struct Walk {
    /// What is known of the entities that are declared so far, by number.
    pub facts: Vec<Fact>,
    /// The breach that stands first, of those found so far.
    pub least: Option<Breach>,
}

impl Walk {
    /// Adds what is known of the next entity. After want of memory all is as before.
    pub fn learn(&mut self, fact: Fact) -> Result<(), NoMemory>
        ensures { LearnsFact self.old self.new fact result }
    {
        self.facts.push(fact)?;
        Ok(())
    }

    /// Gives an access that is stored to its kinds.
    pub fn access(&mut self, target: &mut Expr)
        ensures tree { TypesTerm self.old.facts.items None target.old target.new }
        ensures state { NotesBy term_kind_breaches self.old self.new (term_seen target.new) }
    {
        type_term(&self.facts, None, target);
        keep_term(&self.facts, &mut self.least, target);
    }

    /// Gives a condition its kinds.
    pub fn condition(&mut self, test: &mut Expr)
        ensures tree { TypesTerm self.old.facts.items None test.old test.new }
        ensures state { NotesBy condition_breaches self.old self.new (term_seen test.new) }
    {
        type_term(&self.facts, None, test);
        keep_condition(&self.facts, &mut self.least, test);
    }

    /// Gives a right side for a target of this kind its kinds.
    pub fn right_side(&mut self, target: Option<Kind>, value: &mut Expr)
        ensures tree { TypesRightSide self.old.facts.items target value.old value.new }
        ensures state { NotesBy (breaches_for target) self.old self.new (term_seen value.new) }
    {
        type_term(&self.facts, for_numbers(target), value);
        keep_right_side(&self.facts, &mut self.least, target, value);
    }

    /// Gives a right side, which may lack, its kinds.
    pub fn value(&mut self, target: Option<Kind>, value: &mut Option<Expr>)
        ensures tree { TypesValue self.old.facts.items target value.old value.new }
        ensures state { NotesBy (maybe_breaches_for target) self.old self.new
            (value_seen value.new) }
    {
        match value {
            Some(term) => self.right_side(target, term),
            None => {}
        }
    }

    /// Gives the right side of an assignment its kinds.
    #[tactic(auto, using(dh_tree::proofs::Leasts::least_append))]
    pub fn assignment(&mut self, target: &Ref, value: &mut Expr)
        ensures tree { TypesAssigned self.old.facts.items target.now value.old value.new }
        ensures state { NotesAssigned self.old self.new target.now value.new }
    {
        let fact = fact_of(&self.facts, target);
        let kind = value_kind(fact);
        keep(&mut self.least, target_breach(fact, target.place));
        type_term(&self.facts, for_numbers(kind), value);
        keep_right_side(&self.facts, &mut self.least, kind, value);
    }

    /// Gives the right side of a reducer its kinds.
    #[tactic(auto, using(dh_tree::proofs::Leasts::least_append))]
    pub fn reduction(&mut self, target: &Ref, value: &mut Expr)
        ensures tree { TypesAssigned self.old.facts.items target.now value.old value.new }
        ensures state { NotesReduced self.old self.new target.now value.new }
    {
        let fact = fact_of(&self.facts, target);
        let kind = value_kind(fact);
        keep(&mut self.least, target_breach(fact, target.place));
        type_term(&self.facts, for_numbers(kind), value);
        keep(
            &mut self.least,
            reducer_breach(kind, value.kind, target.place),
        );
        keep_right_side(&self.facts, &mut self.least, kind, value);
    }

    /// Gives arguments the kinds of the parameters.
    pub fn arguments(&mut self, function: &Ref, arguments: &mut Vec<Expr>)
        ensures tree { TypesCall self.old.facts.items function.now arguments.old arguments.new }
        ensures state { NotesBy arguments_breaches self.old self.new
            (expressions_seen arguments.new) }
    {
        let parameters = parameters_of(fact_of(&self.facts, function));
        type_arguments(&self.facts, &mut self.least, parameters, arguments);
    }

    /// Looks at the parent of a view.
    pub fn parent(&mut self, parent: &Ref)
        ensures { NotesParent self.old self.new parent.now }
    {
        let fact = fact_of(&self.facts, parent);
        keep(&mut self.least, parent_breach(fact, parent.place));
    }

    /// What is known of a view of this parent.
    pub fn view(&self, parent: &Ref, form: &ViewForm) -> Fact
        ensures { IsViewFact self.now.facts.items parent.now form.now result }
    {
        view_fact(fact_of(&self.facts, parent), form)
    }

    /// Looks at the kind and the bounds of an iterator.
    #[tactic(auto, using(dh_tree::proofs::Leasts::least_append))]
    pub fn bounds(&mut self, iterator: &Ref, kind: Kind, low: (u64, Place), high: (u64, Place))
        ensures { NotesAll self.old self.new (bounds_breaches iterator.now kind low high) }
    {
        keep(&mut self.least, iterator_breach(iterator, kind));
        keep(&mut self.least, low_breach(kind, low));
        keep(&mut self.least, high_breach(kind, low, high));
    }
}

// The first of these kinds, if there is one, and the others.
fn next_kind<'a>(kinds: &'a [Kind]) -> (Option<Kind>, &'a [Kind])
    ensures first { result.0 ≡ first_kind_of kinds.now }
    ensures others { result.1.now ≡ others_of kinds.now }
{
    match kinds.split_first() {
        Some((first, others)) => (Some(*first), others),
        None => (None, kinds),
    }
}

// Gives arguments the kinds of the parameters, which are in the same order.
fn type_arguments(
    facts: &[Fact],
    kept: &mut Option<Breach>,
    parameters: &[Kind],
    arguments: &mut Vec<Expr>,
)
    ensures tree { TypesArguments facts.now parameters.now arguments.old arguments.new }
    ensures least { KeepsArguments facts.now kept.old kept.new arguments.new }
{
    let mut rest = parameters;
    for argument in arguments.iter_mut() {
        let (kind, others) = next_kind(rest);
        rest = others;
        type_term(facts, for_numbers(kind), argument);
        keep_argument(facts, kept, argument);
    }
}
