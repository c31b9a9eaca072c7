//! Laws on the operations of expressions, stated on functions that do nothing.

ghost use Rattle.dh_formed.specs.FormedLaws.{ConversionsForm, HeldValuesForm, IndicesForm, IteratorsForm, OperationsForm, ReadsForm, ShownVariablesForm, TermsAreNumbered, TermsForm, ThroughForms, WritesForm};
ghost use Rattle.dh_formed.specs.Commanded.{ComputesForm, ConstantsForm, PartsAreCounted, SelectsCount, SelectsForm, SelectsInTime, SetsCount, SetsForm, SetsInTime, TermsTouchOwn, WritesTouchOwn};
ghost use Rattle.dh_formed.specs.CountedLaws.{HeldIsPure, IndicesCount, IsPure, TermsCount, ThroughCounts, WritesCount};
ghost use Rattle.dh_formed.specs.TimedLaws.{AllLevelsGoOn, ConvertedInTime, HeldInTime, IndicesInTime, LevelsGoOn, NamedLevelsGoOn, OperationsInTime, ShownInTime, TermsInTime, ThroughInTime, WritesInTime};
ghost use Rattle.dh_formed.specs.TypedOperands.{TypedOperandsSuit};
ghost use Rattle.dh_formed.specs.WholeBlocks.{BlocksAgree, BlocksAgreeInTime, BlocksAreFormed, BlocksHaveLengths};

/// Operations that are put down for values take earlier values of their block, of the kinds that they need, and give
/// a value of the kind that is wanted.
pub fn values_are_formed()
    ensures operations { OperationsForm }
    ensures conversions { ConversionsForm }
    ensures held { HeldValuesForm }
    ensures shown { ShownVariablesForm }
    ensures iterators { IteratorsForm }
{}

/// So do those of reads and writes; what is noted of accesses stays of the block, and a read gives a value of the kind
/// of its memory.
pub fn elements_are_formed()
    ensures reads { ReadsForm }
    ensures writes { WritesForm }
{}

/// So do those of whole expressions, which give values of the kinds that are written at them.
pub fn expressions_are_formed()
    ensures numbered { TermsAreNumbered }
    ensures terms { TermsForm }
    ensures indices { IndicesForm }
    ensures through { ThroughForms }
{}

/// Values count no multiplication but that of an operator; they access no memory, see no register, and set none.
pub fn values_are_counted()
    ensures operations { IsPure }
    ensures held { HeldIsPure }
{}

/// At each path an expression has one probe of each of its accesses, and one read where that path leads; it has no
/// more multiplications than it has `*`, and sees registers of variables that it mentions alone. A write is one use.
pub fn expressions_are_counted()
    ensures terms { TermsCount }
    ensures indices { IndicesCount }
    ensures through { ThroughCounts }
    ensures writes { WritesCount }
{}

/// Values are there when all is that they are made of.
pub fn values_are_in_time()
    ensures operations { OperationsInTime }
    ensures conversions { ConvertedInTime }
    ensures held { HeldInTime }
    ensures shown { ShownInTime }
{}

/// The levels behind an expression are those before it but for its own reads.
pub fn levels_go_on()
    ensures terms { LevelsGoOn }
    ensures indices { AllLevelsGoOn }
    ensures named { NamedLevelsGoOn }
{}

/// An expression's value is there at the clock of its level, and no operation of it later than the greatest level.
pub fn expressions_are_in_time()
    ensures terms { TermsInTime }
    ensures indices { IndicesInTime }
    ensures through { ThroughInTime }
    ensures writes { WritesInTime }
{}

/// A block's own kinds and its own least clocks agree with it; so it is well formed where its operations are, and as
/// long as the clock of its last value tells.
pub fn blocks_are_whole()
    ensures agree { BlocksAgree }
    ensures formed { BlocksAreFormed }
    ensures time { BlocksAgreeInTime }
    ensures lengths { BlocksHaveLengths }
{}

/// Choices between values and registers that are set, beside expressions: formed, counted and in time.
pub fn commands_are_formed()
    ensures constants { ConstantsForm }
    ensures computes { ComputesForm }
    ensures selects { SelectsForm }
    ensures sets { SetsForm }
    ensures parts_counted { PartsAreCounted }
    ensures selects_counted { SelectsCount }
    ensures sets_counted { SetsCount }
    ensures selects_in_time { SelectsInTime }
    ensures sets_in_time { SetsInTime }
{}

/// Only the accesses of an expression, or of a write, get operations by it.
pub fn accesses_are_own()
    ensures terms { TermsTouchOwn }
    ensures writes { WritesTouchOwn }
{}

/// Operands of a typed program suit their operator, once they are extended.
pub fn typed_operands_suit()
    ensures { TypedOperandsSuit }
{}
