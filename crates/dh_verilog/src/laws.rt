//! What holds of the texts of all nets, stated on functions that do nothing.

ghost use Rattle.std.specs.Prelude.{◌≡◌};
ghost use Rattle.dh_net.specs.declared.nets.Net.{Net};
ghost use Rattle.dh_verilog.specs.Ranges.{IsOfProgram};
ghost use Rattle.dh_verilog.specs.Text.{text_of};

/// A text is the text of at most one valid net whose reads have data 0. The nets are in range, as
/// each net is whose text `write` wrote.
pub fn text_tells_the_net()
    ensures { (m n : Net) → IsOfProgram m → IsOfProgram n → text_of m ≡ text_of n → m ≡ n }
{}
