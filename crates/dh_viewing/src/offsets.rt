//! Whether views are commands.

ghost use Rattle.std.specs.Prelude.{◌≡◌};
ghost use Rattle.dh_tree.specs.Seen.{view_plan};
ghost use Rattle.dh_tree.specs.ViewOffsets as definitions;

use dh_tree::ViewForm;

/// Whether a view moves: then it is a command, which evaluates its offsets; another is a declaration alone.
pub fn moves(form: &ViewForm) -> bool
    ensures { result ≡ definitions.moves (view_plan form.now) }
{
    match form {
        ViewForm::Shrink { .. } => false,
        ViewForm::Split { .. } => false,
        ViewForm::Suffix { .. } => true,
        ViewForm::Shift { .. } => true,
    }
}
