//! Wires for values that are made of earlier ones of their block. `first` is the number of the block's first value,
//! and `kinds` and `wires` are those of the values so far, in order.

ghost use Rattle.std.specs.Prelude.{◌≡◌, ◌+◌, ◌-◌, length, slice_index};
ghost use Rattle.dh_value.specs.declared.kinds.Kind.TheVariants as kind;
ghost use Rattle.dh_value.specs.Operations.{Suits, result_of};
ghost use Rattle.dh_value.specs.Words.{IsInteger, width_of};
ghost use Rattle.dh_plan.specs.Ordered.{IsBetween};
ghost use Rattle.dh_plan.specs.PlanKinds.{kind_of_value};
ghost use Rattle.dh_cells.specs.Settled.{IsWire, WireAdded};
ghost use Rattle.dh_datapath.specs.ValueWires.{AreValueWires, GuardIsThere, computed_shown, guarded_value_shown, selected_shown, turned_shown};

use dh_base::NoMemory;
use dh_cells::{Circuit, push_choice, push_converted, push_guarded, push_operator};
use dh_value::{Kind, Op, width};

/// The wire of a value that is there.
pub fn wire_of(first: u64, wires: &[u64], number: u64) -> u64
    requires { IsBetween first (first + length wires.now) number }
    ensures { result ≡ slice_index wires.now (number - first) }
{
    wires[(number - first) as usize]
}

/// The kind of a value that is there.
pub fn kind_of(first: u64, kinds: &[Kind], number: u64) -> Kind
    requires { IsBetween first (first + length kinds.now) number }
    ensures { result ≡ kind_of_value first kinds.now number }
{
    kinds[(number - first) as usize]
}

/// Adds a wire for what an operator makes of two values.
pub fn push_computed(
    circuit: &mut Circuit,
    first: u64,
    kinds: &[Kind],
    wires: &[u64],
    op: Op,
    left: u64,
    right: u64,
) -> Result<u64, NoMemory>
    requires values { AreValueWires circuit.old kinds.now wires.now }
    requires left { IsBetween first (first + length wires.now) left }
    requires right { IsBetween first (first + length wires.now) right }
    requires suits { Suits op (kind_of_value first kinds.now left)
        (kind_of_value first kinds.now right) }
    ensures { WireAdded result circuit.old circuit.new
        (width_of (result_of op (kind_of_value first kinds.now left)))
        (computed_shown first kinds.now wires.now op left right) }
{
    let left_kind = kind_of(first, kinds, left);
    let right_kind = kind_of(first, kinds, right);
    let a = wire_of(first, wires, left);
    let b = wire_of(first, wires, right);
    push_operator(circuit, op, left_kind, right_kind, a, b)
}

/// Adds a wire for a value in an integer kind.
pub fn push_turned(
    circuit: &mut Circuit,
    first: u64,
    kinds: &[Kind],
    wires: &[u64],
    inner: u64,
    to: Kind,
) -> Result<u64, NoMemory>
    requires values { AreValueWires circuit.old kinds.now wires.now }
    requires inner { IsBetween first (first + length wires.now) inner }
    requires to { IsInteger to }
    ensures { WireAdded result circuit.old circuit.new (width_of to)
        (turned_shown first kinds.now wires.now inner to) }
{
    let from = kind_of(first, kinds, inner);
    let wire = wire_of(first, wires, inner);
    push_converted(circuit, from, to, wire)
}

/// Adds a wire for the one of two values of one kind.
pub fn push_selected(
    circuit: &mut Circuit,
    first: u64,
    kinds: &[Kind],
    wires: &[u64],
    test: u64,
    a: u64,
    b: u64,
) -> Result<u64, NoMemory>
    requires values { AreValueWires circuit.old kinds.now wires.now }
    requires test { IsBetween first (first + length wires.now) test }
    requires left { IsBetween first (first + length wires.now) a }
    requires right { IsBetween first (first + length wires.now) b }
    requires truth { kind_of_value first kinds.now test ≡ kind.Bool }
    requires alike { kind_of_value first kinds.now a ≡ kind_of_value first kinds.now b }
    ensures { WireAdded result circuit.old circuit.new
        (width_of (kind_of_value first kinds.now a))
        (selected_shown first kinds.now wires.now test a b) }
{
    let of = kind_of(first, kinds, a);
    let condition = wire_of(first, wires, test);
    let one = wire_of(first, wires, a);
    let other = wire_of(first, wires, b);
    push_choice(circuit, width(of), condition, one, other)
}

/// Adds a wire for a value of this kind where its guard holds, and 0 else. Without a guard it is the same wire.
pub fn push_under_guard(
    circuit: &mut Circuit,
    first: u64,
    kinds: &[Kind],
    wires: &[u64],
    guard: Option<u64>,
    of: Kind,
    wire: u64,
) -> Result<u64, NoMemory>
    requires values { AreValueWires circuit.old kinds.now wires.now }
    requires guard { GuardIsThere first kinds.now wires.now guard }
    requires there { IsWire circuit.old wire (width_of of) }
    ensures { WireAdded result circuit.old circuit.new (width_of of)
        (guarded_value_shown first kinds.now wires.now guard of wire) }
{
    match guard {
        None => Ok(wire),
        Some(number) => {
            let test = wire_of(first, wires, number);
            push_guarded(circuit, width(of), test, wire)
        }
    }
}
