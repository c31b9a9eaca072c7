//! Laws of the definitions.

ghost use Rattle.dh_viewing.specs.Judged.{KeptViewsAreAll, KeptViewsHaveShapes};
ghost use Rattle.dh_viewing.specs.Moved.{OffsetsInRangeAreSmall};

/// Where no factor and no bracket of a program's views breaks the rule on them, and its memories keep the
/// rules and limits, so does each view: it has the shape of its sort.
pub fn kept_views_have_shapes()
    ensures { KeptViewsHaveShapes }
{}

/// And then each view of the program is one through which accesses are judged.
pub fn kept_views_are_all()
    ensures { KeptViewsAreAll }
{}

/// An offset with which an index of a view is in range is small: a test of the offset by itself, against a
/// constant, loses nothing.
pub fn offsets_in_range_are_small()
    ensures { OffsetsInRangeAreSmall }
{}
