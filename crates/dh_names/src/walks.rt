//! A walk through the text of a program.

ghost use Rattle.std.specs.Prelude.{◌≡◌, ◌+◌, ◌-◌, ◌^◌, min, OnOk, option_map, length};
ghost use Rattle.dh_tree.specs.Seen.{term_seen, expressions_seen};
ghost use Rattle.dh_tree.specs.Breaches.{unknown, term_breaches, maybe_value_breaches, list_breaches};
ghost use Rattle.dh_tree.specs.Resolved.{used};
ghost use Rattle.dh_names.specs.Visible.{visible};
ghost use Rattle.dh_names.specs.InTrees.{ResolvesTerm, ResolvesTerms, ResolvesValue};
ghost use Rattle.dh_names.specs.Walks.{state_of, cut_to_own_names, FindsBy, NumbersName, NumbersHeader, NumbersSides, DeclaresName, DeclaresIterator};

use crate::expressions::{resolve_term, resolve_terms};
use crate::scopes::{VisibleNames, bind_name, list_entity, resolve_use};
use dh_base::NoMemory;
use dh_tree::{Breach, Entity, Expr, LoopHeader, Ref, Sides, Sort};
use std::alloc::Global;

/// A walk through the text of a program, up to some point.
#[derive(Drop)]
pub struct NameWalk {
    /// The names that are visible there.
    pub names: VisibleNames,
    /// The entities that are numbered so far.
    pub entities: Vec<Entity>,
    /// The breach that stands first, of those found so far.
    pub least: Option<Breach>,
}

impl NameWalk {
    /// Gives a name that is used its number.
    pub fn use_name(&mut self, name: &mut Ref)
        ensures tree { name.new ≡ used (visible self.old.names) name.old }
        ensures state { FindsBy unknown self.old self.new name.old }
    {
        resolve_use(&self.names, &mut self.least, name);
    }

    /// Gives the names of an expression their numbers.
    pub fn expression(&mut self, term: &mut Expr)
        ensures tree { ResolvesTerm (visible self.old.names) term.old term.new }
        ensures state { FindsBy term_breaches self.old self.new (term_seen term.old) }
    {
        resolve_term(&self.names, &mut self.least, term);
    }

    /// Gives the names of an expression, which may lack, their numbers.
    pub fn value(&mut self, value: &mut Option<Expr>)
        ensures tree { ResolvesValue (visible self.old.names) value.old value.new }
        ensures state { FindsBy maybe_value_breaches self.old self.new (option_map term_seen value.old) }
    {
        match value {
            Some(term) => self.expression(term),
            None => {}
        }
    }

    /// Gives the names of expressions in order their numbers.
    pub fn expressions(&mut self, terms: &mut Vec<Expr>)
        ensures tree { ResolvesTerms (visible self.old.names) terms.old terms.new }
        ensures state { FindsBy list_breaches self.old self.new (expressions_seen terms.old) }
    {
        resolve_terms(&self.names, &mut self.least, terms);
    }

    /// Gives the names of both sides of a store their numbers.
    pub fn sides(&mut self, sides: &mut Sides)
        ensures { NumbersSides self.old self.new sides.old sides.new }
    {
        self.expression(&mut sides.target);
        self.expression(&mut sides.value);
    }

    /// Numbers a name that is declared, and makes it visible.
    pub fn declare(&mut self, alloc: Global, name: &mut Ref, sort: Sort) -> Result<(), NoMemory>
        ensures tree { OnOk result (NumbersName self.old name.old name.new) }
        ensures state { OnOk result (DeclaresName self.old self.new name.old sort) }
    {
        let number = numbered(self.entities.len());
        bind_name(alloc, &mut self.names, &mut self.least, name, number)?;
        list_entity(alloc, &mut self.entities, name, sort)?;
        name.entity = Some(number);
        Ok(())
    }

    /// Numbers the iterator of a loop, and makes it visible.
    pub fn header(&mut self, alloc: Global, header: &mut LoopHeader) -> Result<(), NoMemory>
        ensures tree { OnOk result (NumbersHeader self.old header.old header.new) }
        ensures state { OnOk result (DeclaresIterator self.old self.new header.old) }
    {
        self.declare(alloc, &mut header.iterator, Sort::Iterator)
    }

    /// How many names of the function or the program's body are visible.
    pub fn own_names(&self) -> usize
        ensures { length self.now.names.outer + result ≡ length (visible self.now.names) }
    {
        self.names.own.len()
    }

    /// Keeps so many names of the function or the program's body visible, those declared first.
    pub fn leave(&mut self, own: usize)
        ensures { state_of self.new ≡ cut_to_own_names (state_of self.old) own }
    {
        self.names.own.truncate(own);
    }
}

// A count as the number of the next entity; the last number where the count is beyond it, to which
// no tree with few names comes.
fn numbered(count: usize) -> u32
    ensures { result ≡ min count (2 ^ 32 - 1) }
{
    if count < u32::MAX as usize {
        count as u32
    } else {
        u32::MAX
    }
}
