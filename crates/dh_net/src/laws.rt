//! What holds of every net, stated on functions that do nothing.

ghost use Rattle.dh_net.specs.declared.nets.Net.{Net};
ghost use Rattle.dh_net.specs.Valid.{IsValid};
ghost use Rattle.dh_net.specs.Laws.{IsDetermined};

/// Every state of a valid net has exactly one valuation, whose wires fit their widths where the
/// registers and the held data do. So from any state a valid net has exactly one run.
pub fn valuation_is_unique()
    ensures { (net : Net) → IsValid net → IsDetermined net }
{}
