//! Values from those of their parts.

ghost use Rattle.std.specs.Prelude.{◌≡◌, ◌+◌, ◌%◌, ◌^◌, slice_index};
ghost use Rattle.dh_value.specs.Words.{IsKind, IsWidth, IsWord, residue, value_of, with_bits};
ghost use Rattle.dh_value.specs.Operations.{result_of, truth as truth_of};
ghost use Rattle.dh_tree.specs.WiderKinds.{wider as wider_of};
ghost use Rattle.dh_meaning.specs.Bindings.{kind_or_first};
ghost use Rattle.dh_meaning.specs.CoreOf.{entity_number};
ghost use Rattle.dh_meaning.specs.Effects.{bits_of};
ghost use Rattle.dh_code.specs.Operated.{IsValidOperand, kind_of_operand, mask_of, operand_word, view_seen};
ghost use Rattle.dh_code.specs.Extended.{extension_of};
ghost use Rattle.dh_code.specs.Rows.{contents_of, memory_element};

use crate::codes::Operand;
use dh_tree::{Kind, Ref};
use dh_value::{Op, Word, cast, width};

/// What an operation sees.
#[derive(Clone, Copy)]
pub struct View<'a> {
    /// The slots of the variables.
    pub slots: &'a [u64],
    /// What operations gave, by their numbers.
    pub given: &'a [u64],
    /// The ranks of the beginnings of a path.
    pub ranks: &'a [u32],
}

/// The kind that was found; every expression of a typed program has one.
pub fn kind_found(kind: Option<Kind>) -> Kind
    ensures { result ≡ kind_or_first kind }
{
    match kind {
        Some(kind) => kind,
        None => Kind::Bool,
    }
}

/// The number of what a name stands for; every name of a resolved program stands for something.
pub fn entity_of(of: &Ref) -> u32
    ensures { result ≡ entity_number of.now.entity }
{
    match of.entity {
        Some(number) => number,
        None => 0,
    }
}

/// The lowest bits of a number, this many, from 1 to 64.
pub fn lowest(bits: u64, width: u8) -> u64
    requires { IsWidth width }
    ensures { result ≡ bits % 2 ^ width }
{
    bits & (u64::MAX >> (64 - width))
}

/// The bits that a value of a kind can have. (Operands carry them, since a shift by a width takes
/// longer wherever they are used.)
pub fn kind_mask(kind: Kind) -> u64
    ensures { result ≡ mask_of kind }
{
    let width = width(kind);
    if width == 0 {
        0
    } else if width > 64 {
        u64::MAX
    } else {
        u64::MAX >> (64 - width)
    }
}

/// A number of a kind.
pub fn literal(kind: Kind, negative: bool, value: u64) -> Word
    ensures { IsKind kind → result ≡ with_bits kind (bits_of kind negative value) }
{
    let width = width(kind);
    let bits = if negative {
        0u64.wrapping_sub(value)
    } else {
        value
    };
    if width == 0 || width > 64 {
        return Word { kind, bits };
    }
    Word {
        kind,
        bits: lowest(bits, width),
    }
}

/// The word of a truth.
pub fn truth(value: bool) -> Word
    ensures { result ≡ truth_of value }
{
    Word {
        kind: Kind::Bool,
        bits: u64::from(value),
    }
}

/// The wider of two kinds of one sign; Bool where there is none.
fn wider(a: Kind, b: Kind) -> Kind
    ensures { result ≡ wider_of a b }
{
    match (a, b) {
        (Kind::Unsigned(m), Kind::Unsigned(n)) => Kind::Unsigned(m.max(n)),
        (Kind::Signed(m), Kind::Signed(n)) => Kind::Signed(m.max(n)),
        _ => Kind::Bool,
    }
}

/// The kind of what an operation gives, by that of its left operand.
pub fn result_kind(op: Op, left: Kind) -> Kind
    ensures { result ≡ result_of op left }
{
    match op {
        Op::Add => left,
        Op::Sub => left,
        Op::Mul => left,
        Op::And => left,
        Op::Or => left,
        Op::Xor => left,
        Op::Shl => left,
        Op::Shr => left,
        Op::Lt => Kind::Bool,
        Op::Gt => Kind::Bool,
        Op::Le => Kind::Bool,
        Op::Ge => Kind::Bool,
        Op::Eq => Kind::Bool,
        Op::Ne => Kind::Bool,
        Op::Both => Kind::Bool,
        Op::Either => Kind::Bool,
    }
}

/// To which kind an operation extends its operands: not those of shifts and of truths.
pub fn extension(op: Op, left: Kind, right: Kind) -> Kind
    ensures { result ≡ extension_of op left right }
{
    match op {
        Op::Add => wider(left, right),
        Op::Sub => wider(left, right),
        Op::Mul => wider(left, right),
        Op::And => wider(left, right),
        Op::Or => wider(left, right),
        Op::Xor => wider(left, right),
        Op::Lt => wider(left, right),
        Op::Gt => wider(left, right),
        Op::Le => wider(left, right),
        Op::Ge => wider(left, right),
        Op::Eq => wider(left, right),
        Op::Ne => wider(left, right),
        Op::Shl => Kind::Bool,
        Op::Shr => Kind::Bool,
        Op::Both => Kind::Bool,
        Op::Either => Kind::Bool,
    }
}

/// The value of a word, modulo 2^64.
pub fn whole(word: Word) -> u64
    requires { IsWord word }
    ensures { result ≡ residue (2 ^ 64) (value_of word) }
{
    match word.kind {
        Kind::Bool => word.bits,
        Kind::Unsigned(_) => word.bits,
        Kind::Signed(_) => cast(word, Kind::Unsigned(64)).bits,
    }
}

/// The bits that a value of an operand's kind can have.
pub fn mask_at(operand: &Operand) -> u64
    requires { IsValidOperand operand.now }
    ensures { result ≡ mask_of (kind_of_operand operand.now) }
{
    match operand {
        Operand::Constant { word } => kind_mask(word.kind),
        Operand::Variable { mask, .. } => *mask,
        Operand::Given { mask, .. } => *mask,
    }
}

/// The value of an operand.
pub fn value_at(view: &View<'_>, operand: &Operand) -> Word
    requires { IsValidOperand operand.now }
    ensures value { result ≡ operand_word (view_seen view.now) operand.now }
    ensures word { IsWord result }
    ensures kind { result.kind ≡ kind_of_operand operand.now }
{
    match operand {
        Operand::Constant { word } => *word,
        Operand::Variable {
            first,
            depth,
            kind,
            mask,
        } => {
            let at = slot(*first, *depth, view.ranks);
            Word {
                kind: *kind,
                bits: number_at(view.slots, at) & *mask,
            }
        }
        Operand::Given { kind, at, mask } => Word {
            kind: *kind,
            bits: number_at(view.given, *at) & *mask,
        },
    }
}

/// The slot of a variable at a path of these ranks.
pub fn slot(first: u32, depth: u32, ranks: &[u32]) -> usize
    ensures { result ≡ first + slice_index ranks.now depth }
{
    let rank = match ranks.get(depth as usize) {
        Some(rank) => *rank,
        None => 0,
    };
    first as usize + rank as usize
}

/// A number of a list; 0 where there is none.
pub fn number_at(list: &[u64], at: usize) -> u64
    ensures { result ≡ slice_index list.now at }
{
    match list.get(at) {
        Some(number) => *number,
        None => 0,
    }
}

/// An element of memories; 0 where there is none.
pub fn element_of(memories: &[Vec<u64>], memory: usize, position: u64) -> u64
    ensures { result ≡ memory_element (contents_of memories.now) memory position }
{
    match memories.get(memory) {
        Some(values) => number_at(values.as_slice(), position as usize),
        None => 0,
    }
}
