//! What limits bound in a list of tokens.

/// Three quantities of a program's tokens.
#[derive(Clone, Copy, Debug, PartialEq, Eq)]
pub struct Counts {
    /// The greatest number of open `(`, `[`, `{` at one point, where a closing sign of any form
    /// takes one away if there is one.
    pub brackets: u64,
    /// The greatest number of operator signs between two neighbouring tokens among `;`, `{`, `}`,
    /// `---`, the start and the end.
    pub operators: u64,
    /// At how many places `if` follows `else`.
    pub else_ifs: u64,
}
