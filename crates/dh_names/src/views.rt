//! The names within views.

ghost use Rattle.std.specs.Prelude.{◌≡◌, map};
ghost use Rattle.dh_tree.specs.Seen.{view_plan, factor_seen};
ghost use Rattle.dh_tree.specs.Breaches.{plan_name_breaches, offsets_breaches};
ghost use Rattle.dh_tree.specs.Resolved.{resolved_plan};
ghost use Rattle.dh_names.specs.Visible.{visible};
ghost use Rattle.dh_names.specs.InTrees.{ResolvesOffsets};
ghost use Rattle.dh_names.specs.Walks.{FindsBy};

use crate::walks::NameWalk;
use dh_tree::{Expr, ViewForm};

impl NameWalk {
    /// Gives the names of a view's offsets their numbers.
    pub fn plan(&mut self, form: &mut ViewForm)
        ensures tree { view_plan form.new ≡ resolved_plan (visible self.old.names)
            (view_plan form.old) }
        ensures state { FindsBy plan_name_breaches self.old self.new (view_plan form.old) }
    {
        match form {
            ViewForm::Shrink { .. } => {}
            ViewForm::Split { .. } => {}
            ViewForm::Suffix { by, .. } => self.offsets(by),
            ViewForm::Shift { by } => self.expressions(by),
        }
    }

    // The offsets of factors in order.
    fn offsets(&mut self, by: &mut Vec<(u64, Expr)>)
        ensures tree { ResolvesOffsets (visible self.old.names) by.old by.new }
        ensures state { FindsBy offsets_breaches self.old self.new (map factor_seen by.old.items) }
    {
        for pair in by.iter_mut() {
            self.expression(&mut pair.1);
        }
    }
}
