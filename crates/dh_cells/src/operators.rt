//! Operations on words, which are held on wires as their bits.

ghost use Rattle.std.specs.Prelude.{◌≡◌};
ghost use Rattle.dh_value.specs.Operations.{AreAlike, AreIntegers, AreTruths, IsShift, Suits, result_of};
ghost use Rattle.dh_value.specs.Words.{width_of};
ghost use Rattle.dh_value.specs.declared.operators.Op.TheVariants as op;
ghost use Rattle.dh_net.specs.declared.nets.CellForm.TheVariants.{ShrS, ShrU};
ghost use Rattle.dh_cells.specs.Settled.{IsAmount, IsWire, WireAdded};
ghost use Rattle.dh_cells.specs.ShownValues.{alike_shown, at_most_shown, form_shown, less_shown, operator_shown};

use crate::circuits::Circuit;
use crate::truths::{push_both, push_either, push_not};
use dh_base::NoMemory;
use dh_net::CellForm;
use dh_value::{Kind, Op, width};

/// Adds a wire that shows what an operator makes of two words of these kinds.
pub fn push_operator(
    circuit: &mut Circuit,
    op: Op,
    left_kind: Kind,
    right_kind: Kind,
    a: u64,
    b: u64,
) -> Result<u64, NoMemory>
    requires suits { Suits op left_kind right_kind }
    requires left { IsWire circuit.old a (width_of left_kind) }
    requires right { IsWire circuit.old b (width_of right_kind) }
    ensures { WireAdded result circuit.old circuit.new (width_of (result_of op left_kind))
        (operator_shown op left_kind right_kind a b) }
{
    match op {
        Op::Shl => push_shifted_left(circuit, left_kind, right_kind, a, b),
        Op::Shr => push_shifted_right(circuit, left_kind, right_kind, a, b),
        Op::Add
        | Op::Sub
        | Op::Mul
        | Op::And
        | Op::Or
        | Op::Xor
        | Op::Lt
        | Op::Gt
        | Op::Le
        | Op::Ge
        | Op::Eq
        | Op::Ne
        | Op::Both
        | Op::Either => push_alike(circuit, op, left_kind, a, b),
    }
}

// An operator other than a shift: both words are of one kind.
fn push_alike(circuit: &mut Circuit, op: Op, kind: Kind, a: u64, b: u64) -> Result<u64, NoMemory>
    requires suits { Suits op kind kind }
    requires left { IsWire circuit.old a (width_of kind) }
    requires right { IsWire circuit.old b (width_of kind) }
    ensures { WireAdded result circuit.old circuit.new (width_of (result_of op kind))
        (alike_shown op kind a b) }
{
    match op {
        Op::Add => push_sum(circuit, kind, a, b),
        Op::Sub => push_difference(circuit, kind, a, b),
        Op::Mul => push_product(circuit, kind, a, b),
        Op::And => circuit.push(width(kind), CellForm::And { a, b }),
        Op::Or => circuit.push(width(kind), CellForm::Or { a, b }),
        Op::Xor => circuit.push(width(kind), CellForm::Xor { a, b }),
        Op::Shl => push_shifted_left(circuit, kind, kind, a, b),
        Op::Shr => push_shifted_right(circuit, kind, kind, a, b),
        Op::Lt => push_less(circuit, kind, a, b),
        Op::Gt => push_less(circuit, kind, b, a),
        Op::Le => push_at_most(circuit, kind, a, b),
        Op::Ge => push_at_most(circuit, kind, b, a),
        Op::Eq => push_equal(circuit, kind, a, b),
        Op::Ne => push_different(circuit, kind, a, b),
        Op::Both => push_both(circuit, a, b),
        Op::Either => push_either(circuit, a, b),
    }
}

fn push_sum(circuit: &mut Circuit, kind: Kind, a: u64, b: u64) -> Result<u64, NoMemory>
    requires integers { AreIntegers kind kind }
    requires left { IsWire circuit.old a (width_of kind) }
    requires right { IsWire circuit.old b (width_of kind) }
    ensures { WireAdded result circuit.old circuit.new (width_of kind)
        (alike_shown op.Add kind a b) }
{
    circuit.push(width(kind), CellForm::Add { a, b })
}

fn push_difference(circuit: &mut Circuit, kind: Kind, a: u64, b: u64) -> Result<u64, NoMemory>
    requires integers { AreIntegers kind kind }
    requires left { IsWire circuit.old a (width_of kind) }
    requires right { IsWire circuit.old b (width_of kind) }
    ensures { WireAdded result circuit.old circuit.new (width_of kind)
        (alike_shown op.Sub kind a b) }
{
    circuit.push(width(kind), CellForm::Sub { a, b })
}

fn push_product(circuit: &mut Circuit, kind: Kind, a: u64, b: u64) -> Result<u64, NoMemory>
    requires integers { AreIntegers kind kind }
    requires left { IsWire circuit.old a (width_of kind) }
    requires right { IsWire circuit.old b (width_of kind) }
    ensures { WireAdded result circuit.old circuit.new (width_of kind)
        (alike_shown op.Mul kind a b) }
{
    circuit.push(width(kind), CellForm::Mul { a, b })
}

// A shift to the left. A constant of at least the width leaves nothing.
fn push_shifted_left(
    circuit: &mut Circuit,
    left_kind: Kind,
    right_kind: Kind,
    a: u64,
    b: u64,
) -> Result<u64, NoMemory>
    requires shift { IsShift left_kind right_kind }
    requires left { IsWire circuit.old a (width_of left_kind) }
    requires right { IsWire circuit.old b (width_of right_kind) }
    ensures { WireAdded result circuit.old circuit.new (width_of left_kind)
        (operator_shown op.Shl left_kind right_kind a b) }
{
    let bits = width(left_kind);
    if circuit.is_constant_from(b, bits) {
        circuit.push_constant(bits, 0)
    } else {
        circuit.push(bits, CellForm::Shl { a, b })
    }
}

// A shift to the right.
fn push_shifted_right(
    circuit: &mut Circuit,
    left_kind: Kind,
    right_kind: Kind,
    a: u64,
    b: u64,
) -> Result<u64, NoMemory>
    requires shift { IsShift left_kind right_kind }
    requires left { IsWire circuit.old a (width_of left_kind) }
    requires right { IsWire circuit.old b (width_of right_kind) }
    ensures { WireAdded result circuit.old circuit.new (width_of left_kind)
        (operator_shown op.Shr left_kind right_kind a b) }
{
    match left_kind {
        Kind::Signed(bits) => push_shifted_signed(circuit, bits, a, b),
        Kind::Bool => push_shifted_unsigned(circuit, 1, a, b),
        Kind::Unsigned(bits) => push_shifted_unsigned(circuit, bits, a, b),
    }
}

// A shift to the right of an unsigned word. A constant of at least the width leaves nothing.
fn push_shifted_unsigned(circuit: &mut Circuit, bits: u8, a: u64, b: u64) -> Result<u64, NoMemory>
    requires left { IsWire circuit.old a bits }
    requires right { IsAmount circuit.old b }
    ensures { WireAdded result circuit.old circuit.new bits
        (form_shown circuit.old bits (ShrU a b)) }
{
    if circuit.is_constant_from(b, bits) {
        circuit.push_constant(bits, 0)
    } else {
        circuit.push(bits, CellForm::ShrU { a, b })
    }
}

// A shift to the right of a word in two's complement. A constant of at least the width leaves copies of the sign.
fn push_shifted_signed(circuit: &mut Circuit, bits: u8, a: u64, b: u64) -> Result<u64, NoMemory>
    requires left { IsWire circuit.old a bits }
    requires right { IsAmount circuit.old b }
    ensures { WireAdded result circuit.old circuit.new bits
        (form_shown circuit.old bits (ShrS a b)) }
{
    if circuit.is_constant_from(b, bits) {
        circuit.push_signs(bits, a)
    } else {
        circuit.push(bits, CellForm::ShrS { a, b })
    }
}

/// Adds a wire that is 1 where the one value of a kind is less than the other.
pub fn push_less(circuit: &mut Circuit, kind: Kind, a: u64, b: u64) -> Result<u64, NoMemory>
    requires left { IsWire circuit.old a (width_of kind) }
    requires right { IsWire circuit.old b (width_of kind) }
    ensures { WireAdded result circuit.old circuit.new 1 (less_shown kind a b) }
{
    match kind {
        Kind::Signed(_) => circuit.push(1, CellForm::LtS { a, b }),
        Kind::Bool | Kind::Unsigned(_) => circuit.push(1, CellForm::LtU { a, b }),
    }
}

/// Adds a wire that is 1 where the one value of a kind is not greater than the other.
pub fn push_at_most(circuit: &mut Circuit, kind: Kind, a: u64, b: u64) -> Result<u64, NoMemory>
    requires left { IsWire circuit.old a (width_of kind) }
    requires right { IsWire circuit.old b (width_of kind) }
    ensures { WireAdded result circuit.old circuit.new 1 (at_most_shown kind a b) }
{
    let greater = push_less(circuit, kind, b, a)?;
    push_not(circuit, greater)
}

fn push_equal(circuit: &mut Circuit, kind: Kind, a: u64, b: u64) -> Result<u64, NoMemory>
    requires left { IsWire circuit.old a (width_of kind) }
    requires right { IsWire circuit.old b (width_of kind) }
    ensures { WireAdded result circuit.old circuit.new 1 (alike_shown op.Eq kind a b) }
{
    circuit.push(1, CellForm::Eq { a, b })
}

fn push_different(circuit: &mut Circuit, kind: Kind, a: u64, b: u64) -> Result<u64, NoMemory>
    requires left { IsWire circuit.old a (width_of kind) }
    requires right { IsWire circuit.old b (width_of kind) }
    ensures { WireAdded result circuit.old circuit.new 1 (alike_shown op.Ne kind a b) }
{
    let equal = push_equal(circuit, kind, a, b)?;
    push_not(circuit, equal)
}
