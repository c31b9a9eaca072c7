//! How many phases a view has, as far as it matters where straight commands may stand.

ghost use Rattle.std.specs.Prelude.{◌≡◌, if◌then◌else◌};
ghost use Rattle.dh_tree.specs.Seen.{view_plan};
ghost use Rattle.dh_tree.specs.ViewOffsets as offsets;

use dh_tree::ViewForm;
use dh_viewing::moves;

/// Of a view: one where it moves.
pub(crate) fn of_view(form: &ViewForm) -> usize
    ensures { result ≡ (if offsets.moves (view_plan form.now) then 1 else 0) }
{
    if moves(form) { 1 } else { 0 }
}
