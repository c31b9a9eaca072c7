//! The parts of a block.

ghost use Rattle.std.specs.Prelude.{◌≡◌};
ghost use Rattle.dh_tree.specs.Forms as forms;
ghost use Rattle.dh_tree.specs.Seen.{all_parts_seen};

use crate::trees::Command;

/// Whether parts have a `---` between them.
pub fn has_dashes(parts: &[Vec<Command>]) -> bool
    ensures { result ≡ forms.has_dashes (all_parts_seen parts.now) }
{
    parts.len() > 1
}
