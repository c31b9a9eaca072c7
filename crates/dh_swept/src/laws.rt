//! Laws on nets of which some cells and registers are kept, stated on functions that do nothing.

ghost use Rattle.dh_swept.specs.SweptLaws.{SweptNetsDoTheSame};

/// A net that keeps all cells and registers that are needed does what the whole net does.
pub fn swept_nets_do_the_same()
    ensures { SweptNetsDoTheSame }
{}
