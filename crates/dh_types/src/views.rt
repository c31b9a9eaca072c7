//! The kinds of offsets of views.

ghost use Rattle.std.specs.Prelude.{None, map};
ghost use Rattle.dh_tree.specs.Seen.{term_seen, view_plan, factor_seen, expressions_seen};
ghost use Rattle.dh_tree.specs.KindBreaches.{plan_kind_breaches, offset_breaches, suffixes_breaches, shifts_breaches};
ghost use Rattle.dh_types.specs.InTrees.{TypesTerm, TypesTerms, TypesPlan, TypesSuffixes};
ghost use Rattle.dh_types.specs.Walks.{NotesBy};

use crate::expressions::type_term;
use crate::judging::keep_offset;
use crate::walks::Walk;
use dh_tree::{Expr, ViewForm};

impl Walk {
    /// Gives the offsets of a view their kinds.
    pub fn plan(&mut self, form: &mut ViewForm)
        ensures tree { TypesPlan self.old.facts.items form.old form.new }
        ensures state { NotesBy plan_kind_breaches self.old self.new (view_plan form.new) }
    {
        match form {
            ViewForm::Shrink { .. } => {}
            ViewForm::Split { .. } => {}
            ViewForm::Suffix { by, .. } => self.suffixes(by),
            ViewForm::Shift { by } => self.shifts(by),
        }
    }

    // An offset.
    fn offset(&mut self, offset: &mut Expr)
        ensures tree { TypesTerm self.old.facts.items None offset.old offset.new }
        ensures state { NotesBy offset_breaches self.old self.new (term_seen offset.new) }
    {
        type_term(&self.facts, None, offset);
        keep_offset(&self.facts, &mut self.least, offset);
    }

    // The offsets of factors in order.
    fn suffixes(&mut self, by: &mut Vec<(u64, Expr)>)
        ensures tree { TypesSuffixes self.old.facts.items by.old by.new }
        ensures state { NotesBy suffixes_breaches self.old self.new (map factor_seen by.new.items) }
    {
        for pair in by.iter_mut() {
            self.offset(&mut pair.1);
        }
    }

    // Offsets in order.
    fn shifts(&mut self, by: &mut Vec<Expr>)
        ensures tree { TypesTerms self.old.facts.items by.old by.new }
        ensures state { NotesBy shifts_breaches self.old self.new (expressions_seen by.new) }
    {
        for offset in by.iter_mut() {
            self.offset(offset);
        }
    }
}
