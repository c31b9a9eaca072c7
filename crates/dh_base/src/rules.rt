//! The twenty rules of the language, by number and name.

ghost use Rattle.std.specs.Prelude.{◌≡◌};
ghost use Rattle.dh_base.specs.Rules.{number_of, name_of};

/// A rule of the language. A refusal names the rule that was broken; docs/LANGUAGE.md has an entry
/// for each that is built.
#[derive(Clone, Copy, Debug, PartialEq, Eq)]
pub enum Rule {
    /// A byte that begins no token, or a token that is no token of the language.
    Lex,
    /// A token that no program allows there.
    Syntax,
    /// A form that the language leaves out or that is not built.
    Unsupported,
    /// A name that is not visible.
    UnknownName,
    /// A declaration of a name that is visible already.
    NameTwice,
    /// An operand, a side or a target of the wrong sort or sign.
    TypeMismatch,
    /// A value that its target cannot hold.
    WidthLost,
    /// A number of banks that does not divide its size.
    BankDivides,
    /// An unroll factor that does not divide the number of turns.
    UnrollDivides,
    /// An iterator over banks whose unroll factor is no multiple of them.
    BankUnroll,
    /// An index over banks that is neither a literal nor an iterator with a constant.
    DynamicBank,
    /// A literal that is out of range.
    ConstantRange,
    /// A view whose factors or brackets do not fit its parent.
    ViewFactor,
    /// A memory where none may stand.
    MemoryPlace,
    /// An assignment to an iterator, or out of an unrolled body.
    OuterWrite,
    /// Copies that could take different numbers of steps.
    DivergentSteps,
    /// A reducer out of place, or another command in its block.
    Reducer,
    /// A call whose name or arguments do not fit.
    CallShape,
    /// An access beyond the ports of a bank in one logical step.
    PortsSpent,
    /// A read that follows a write of the same bank in one phase.
    ReadAfterWrite,
}

impl Rule {
    /// The rule's number, from 1 to 20, printed after a `K`.
    pub fn number(self) -> u8
        ensures { result ≡ number_of self }
    {
        match self {
            Rule::Lex => 1,
            Rule::Syntax => 2,
            Rule::Unsupported => 3,
            Rule::UnknownName => 4,
            Rule::NameTwice => 5,
            Rule::TypeMismatch => 6,
            Rule::WidthLost => 7,
            Rule::BankDivides => 8,
            Rule::UnrollDivides => 9,
            Rule::BankUnroll => 10,
            Rule::DynamicBank => 11,
            Rule::ConstantRange => 12,
            Rule::ViewFactor => 13,
            Rule::MemoryPlace => 14,
            Rule::OuterWrite => 15,
            Rule::DivergentSteps => 16,
            Rule::Reducer => 17,
            Rule::CallShape => 18,
            Rule::PortsSpent => 19,
            Rule::ReadAfterWrite => 20,
        }
    }

    /// The rule's name, as it is printed.
    pub fn name(self) -> &'static str
        ensures { result.now ≡ name_of self }
    {
        match self {
            Rule::Lex => "Lex",
            Rule::Syntax => "Syntax",
            Rule::Unsupported => "Unsupported",
            Rule::UnknownName => "UnknownName",
            Rule::NameTwice => "NameTwice",
            Rule::TypeMismatch => "TypeMismatch",
            Rule::WidthLost => "WidthLost",
            Rule::BankDivides => "BankDivides",
            Rule::UnrollDivides => "UnrollDivides",
            Rule::BankUnroll => "BankUnroll",
            Rule::DynamicBank => "DynamicBank",
            Rule::ConstantRange => "ConstantRange",
            Rule::ViewFactor => "ViewFactor",
            Rule::MemoryPlace => "MemoryPlace",
            Rule::OuterWrite => "OuterWrite",
            Rule::DivergentSteps => "DivergentSteps",
            Rule::Reducer => "Reducer",
            Rule::CallShape => "CallShape",
            Rule::PortsSpent => "PortsSpent",
            Rule::ReadAfterWrite => "ReadAfterWrite",
        }
    }
}
