//! The variables that keep the offsets of views.

use dh_value::Kind;

/// A variable that keeps an offset of a view.
#[derive(Clone, Copy)]
pub struct Hidden {
    /// The number of its entity, behind those of the program.
    pub entity: u32,
    /// The kind of the offset.
    pub kind: Kind,
    /// The unrolled loops round the view's command, in each copy of which there is one.
    pub depth: u32,
    /// The copies of these loops together.
    pub copies: u64,
}
