//! The values of cells, and the walk that gives each wire its value.

ghost use Rattle.std.specs.Prelude.{◌≡◌, ◌%◌, ◌^◌, ◌<◌, ◌≤◌, length};
ghost use Rattle.dh_value.specs.Operations.{Suits};
ghost use Rattle.dh_value.specs.Words.{IsWidth};
ghost use Rattle.dh_value.specs.declared.kinds.Kind.TheVariants.{Unsigned};
ghost use Rattle.dh_net.specs.Clock.{unsigned_result, shifted, shifted_signed, is_less_signed, sign_extended, IsValuation};
ghost use Rattle.dh_value.specs.declared.operators.Op.TheVariants.{Shr};
ghost use Rattle.dh_net.specs.Valid.{IsValid};
ghost use Rattle.dh_sim.specs.Layouts.{IsTableLayout, ArraysFit};
ghost use Rattle.dh_sim.specs.Rooms.{HasRooms, cell_value_in, AreWords};

use crate::layouts::Layout;
use dh_net::{Cell, CellForm, Net, wire_width};
use dh_value::{Kind, Op, Word, binary, cast};

// The low bits of a number, so many.
fn low_bits(bits: u64, width: u8) -> u64
    requires least { 1 ≤ width }
    requires greatest { width ≤ 64 }
    ensures { result ≡ bits % 2 ^ width }
{
    bits & (u64::MAX >> (64 - width))
}

// What an operation gives on unsigned words of this width.
fn unsigned(op: Op, width: u8, a: u64, b: u64) -> u64
    requires width { IsWidth width }
    requires left { a < 2 ^ width }
    requires right { b < 2 ^ width }
    requires suits { Suits op (Unsigned width) (Unsigned width) }
    ensures { result ≡ unsigned_result op width a b }
{
    let kind = Kind::Unsigned(width);
    binary(op, Word { kind, bits: a }, Word { kind, bits: b }).bits
}

// An unsigned amount of a shift.
fn amount(bits: u64) -> Word
    ensures kind { result.kind ≡ Unsigned 64 }
    ensures bits { result.bits ≡ bits }
{
    Word {
        kind: Kind::Unsigned(64),
        bits,
    }
}

// What a shift of an unsigned word gives.
fn shift(op: Op, width: u8, a: u64, b: u64) -> u64
    requires width { IsWidth width }
    requires left { a < 2 ^ width }
    requires right { b < 2 ^ 64 }
    requires suits { Suits op (Unsigned width) (Unsigned 64) }
    ensures { result ≡ shifted op width a b }
{
    let number = Word {
        kind: Kind::Unsigned(width),
        bits: a,
    };
    binary(op, number, amount(b)).bits
}

// What a shift to the right of a word in two's complement gives.
fn shift_signed(width: u8, a: u64, b: u64) -> u64
    requires width { IsWidth width }
    requires left { a < 2 ^ width }
    requires right { b < 2 ^ 64 }
    ensures { result ≡ shifted_signed Shr width a b }
{
    let number = Word {
        kind: Kind::Signed(width),
        bits: a,
    };
    binary(Op::Shr, number, amount(b)).bits
}

// Whether a word in two's complement is below another, as a bit.
fn less_signed(width: u8, a: u64, b: u64) -> u64
    requires width { IsWidth width }
    requires left { a < 2 ^ width }
    requires right { b < 2 ^ width }
    ensures { result ≡ is_less_signed width a b }
{
    let kind = Kind::Signed(width);
    binary(Op::Lt, Word { kind, bits: a }, Word { kind, bits: b }).bits
}

// The bits of this width with the value of a narrow word in two's complement.
fn extend(narrow: u8, width: u8, a: u64) -> u64
    requires narrow { IsWidth narrow }
    requires width { IsWidth width }
    requires fits { a < 2 ^ narrow }
    ensures { result ≡ sign_extended narrow width a }
{
    let number = Word {
        kind: Kind::Signed(narrow),
        bits: a,
    };
    cast(number, Kind::Unsigned(width)).bits
}

// The value of a cell of a net of this table and these cells, by the registers, the held data and the wires.
fn cell_value(
    net: &Net,
    layout: &Layout,
    cell: Cell,
    registers: &[u64],
    held: &[u64],
    wires: &[u64],
) -> u64
    requires layout { IsTableLayout net.now.table layout.now }
    requires width { IsWidth cell.width }
    requires rooms { HasRooms net.now registers.now held.now wires.now cell }
    requires words { AreWords net.now.cells wires.now cell.width cell.form }
    ensures { result ≡ cell_value_in net.now registers.now held.now wires.now cell }
{
    let width = cell.width;
    match cell.form {
        CellForm::Const { bits } => bits,
        CellForm::Reg { register } => registers[register as usize],
        CellForm::Data { memory, bank, port } => {
            held[layout.place(net.table.as_slice(), memory, bank, port) as usize]
        }
        CellForm::Add { a, b } => unsigned(Op::Add, width, wires[a as usize], wires[b as usize]),
        CellForm::Sub { a, b } => unsigned(Op::Sub, width, wires[a as usize], wires[b as usize]),
        CellForm::Mul { a, b } => unsigned(Op::Mul, width, wires[a as usize], wires[b as usize]),
        CellForm::And { a, b } => wires[a as usize] & wires[b as usize],
        CellForm::Or { a, b } => wires[a as usize] | wires[b as usize],
        CellForm::Xor { a, b } => wires[a as usize] ^ wires[b as usize],
        CellForm::Shl { a, b } => shift(Op::Shl, width, wires[a as usize], wires[b as usize]),
        CellForm::ShrU { a, b } => shift(Op::Shr, width, wires[a as usize], wires[b as usize]),
        CellForm::ShrS { a, b } => shift_signed(width, wires[a as usize], wires[b as usize]),
        CellForm::LtU { a, b } => u64::from(wires[a as usize] < wires[b as usize]),
        CellForm::LtS { a, b } => {
            let wide = wire_width(net.cells.as_slice(), a);
            less_signed(wide, wires[a as usize], wires[b as usize])
        }
        CellForm::Eq { a, b } => u64::from(wires[a as usize] == wires[b as usize]),
        CellForm::Mux { c, a, b } => {
            if wires[c as usize] == 1 {
                wires[a as usize]
            } else {
                wires[b as usize]
            }
        }
        CellForm::Zero { a } => wires[a as usize],
        CellForm::Sign { a } => extend(
            wire_width(net.cells.as_slice(), a),
            width,
            wires[a as usize],
        ),
        CellForm::Low { a } => low_bits(wires[a as usize], width),
    }
}

/// Gives each wire its value, in one walk over the cells. What the wires had does not matter.
pub fn settle(net: &Net, layout: &Layout, registers: &[u64], held: &[u64], wires: &mut [u64])
    requires valid { IsValid net.now }
    requires layout { IsTableLayout net.now.table layout.now }
    requires fit { ArraysFit net.now registers.now held.now }
    requires registers { length registers.now ≡ length net.now.registers }
    requires held { length held.now ≡ length net.now.drivers }
    requires wires { length wires.old ≡ length net.now.cells }
    ensures { IsValuation net.now.table net.now.cells registers.now held.now wires.new }
{
    for (i, cell) in net.cells.as_slice().iter().enumerate() {
        let value = cell_value(net, layout, *cell, registers, held, wires);
        wires[i] = value;
    }
}
