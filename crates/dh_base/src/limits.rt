//! The limits of the language and of its files, by name.

ghost use Rattle.std.specs.Prelude.{◌≡◌};
ghost use Rattle.dh_base.specs.Limits.{greatest_of, printed_name};

/// A limit, with the quantity that it counts.
#[derive(Clone, Copy, Debug, PartialEq, Eq)]
pub enum Limit {
    /// Bytes of the program, at most 1,048,576.
    Source,
    /// Open brackets at one point of the tokens, at most 64.
    Brackets,
    /// Operator signs between two neighbouring separators, at most 128.
    Operators,
    /// Places where `if` follows `else`, at most 64.
    ElseIfs,
    /// `def`s, at most 64.
    Functions,
    /// Dimensions of one memory type, at most 6.
    Dimensions,
    /// Banks of one memory type, at most 64.
    Banks,
    /// Ports of a bank, at most 8.
    Ports,
    /// Product of the unroll factors round one place, at most 256.
    Copies,
    /// Elements of all memories, at most 1,048,576.
    Elements,
    /// Plan size, at most 200,000.
    Plan,
    /// Bytes of a list file, at most 65,536.
    ListBytes,
    /// Names of a list file, at most 64.
    List,
    /// Bytes of a data file, at most 16,777,216.
    Data,
}

/// A limit and the count above it, at most 1,000,000,000.
#[derive(Clone, Copy, Debug, PartialEq, Eq)]
pub struct Excess {
    /// The limit that is exceeded.
    pub limit: Limit,
    /// The counted quantity.
    pub count: u64,
}

impl Limit {
    /// The greatest count that is allowed.
    pub fn greatest(self) -> u64
        ensures { result ≡ greatest_of self }
    {
        match self {
            Limit::Source => 1_048_576,
            Limit::Brackets => 64,
            Limit::Operators => 128,
            Limit::ElseIfs => 64,
            Limit::Functions => 64,
            Limit::Dimensions => 6,
            Limit::Banks => 64,
            Limit::Ports => 8,
            Limit::Copies => 256,
            Limit::Elements => 1_048_576,
            Limit::Plan => 200_000,
            Limit::ListBytes => 65_536,
            Limit::List => 64,
            Limit::Data => 16_777_216,
        }
    }

    /// The limit's name, as it is printed.
    pub fn name(self) -> &'static str
        ensures { result.now ≡ printed_name self }
    {
        match self {
            Limit::Source => "Source",
            Limit::Brackets => "Brackets",
            Limit::Operators => "Operators",
            Limit::ElseIfs => "ElseIfs",
            Limit::Functions => "Functions",
            Limit::Dimensions => "Dimensions",
            Limit::Banks => "Banks",
            Limit::Ports => "Ports",
            Limit::Copies => "Copies",
            Limit::Elements => "Elements",
            Limit::Plan => "Plan",
            Limit::ListBytes => "ListBytes",
            Limit::List => "List",
            Limit::Data => "Data",
        }
    }
}
