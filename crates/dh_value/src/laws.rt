//! What holds of all words, stated on functions that do nothing.

ghost use Rattle.std.specs.Prelude.{◌≡◌, ℤ};
ghost use Rattle.dh_value.specs.declared.kinds.Kind.{Kind};
ghost use Rattle.dh_value.specs.declared.operators.Op.{Op};
ghost use Rattle.dh_value.specs.declared.words.Word.{Word};
ghost use Rattle.dh_value.specs.Operations.{GivesWords, binary_of, result_of};
ghost use Rattle.dh_value.specs.Words.{IsKind, IsInteger, IsWord, IsValue, ValueTellsWord, ValuesWiden, value_of, word_of};

/// An operation on words of kinds that suit it gives a word, whose kind is that of the left operand
/// or Bool. So does a cast.
pub fn operations_give_words()
    ensures word { (op : Op) → GivesWords op }
    ensures kind { (op : Op) (a b : Word) → (binary_of op a b).kind ≡ result_of op a.kind }
    ensures cast { (k : Kind) (z : ℤ) → IsKind k → IsWord (word_of k z) }
{}

/// The value of a word of an integer kind is a value of its kind. Words of one kind differ in their
/// values, and a value of a kind is that of its word: so a cast to a kind that has the value keeps
/// it, as every wider kind of the same sign does.
pub fn values_stay_in_words()
    ensures within { (a : Word) → IsWord a → IsInteger a.kind → IsValue a.kind (value_of a) }
    ensures kept { (k : Kind) (z : ℤ) → IsInteger k → IsValue k z → value_of (word_of k z) ≡ z }
    ensures again { (a : Word) → IsWord a → word_of a.kind (value_of a) ≡ a }
    ensures distinct { (a b : Word) → ValueTellsWord a b }
    ensures widened { (narrow wide : Kind) → ValuesWiden narrow wide }
{}
