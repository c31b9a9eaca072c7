//! The expressions of cells.

ghost use Rattle.std.specs.Prelude.{◌≡◌};
ghost use Rattle.dh_net.specs.Clock.{wire_width};
ghost use Rattle.dh_verilog.specs.Adding.{AddsText};
ghost use Rattle.dh_verilog.specs.Text.{binary_text, signed_shift_text, signed_less_text, zeros_above_text, sign_above_text, low_text, chosen_text, form_text};

use dh_net::{Cell, CellForm};
use std::alloc::AllocError;
use std::fmt::Write;

// The width of a wire, 0 where there is no such wire.
fn width_at(cells: &[Cell], wire: u64) -> u8
    ensures { result ≡ wire_width cells.now wire }
{
    match cells.get(wire as usize) {
        Some(cell) => cell.width,
        None => 0,
    }
}

// Writes an operation on two wires.
fn write_binary(out: &mut String, a: u64, sign: &str, b: u64) -> Result<(), AllocError>
    ensures { AddsText result out.old out.new (binary_text a sign.now b) }
{
    write!(out, "w{a}")?;
    out.push_str(sign)?;
    write!(out, "w{b}")
}

// Writes a shift of a number in two's complement to the right.
fn write_signed_shift(out: &mut String, a: u64, b: u64) -> Result<(), AllocError>
    ensures { AddsText result out.old out.new (signed_shift_text a b) }
{
    write!(out, "$signed(w{a}) >>> w{b}")
}

// Writes a comparison of numbers in two's complement.
fn write_signed_less(out: &mut String, a: u64, b: u64) -> Result<(), AllocError>
    ensures { AddsText result out.old out.new (signed_less_text a b) }
{
    write!(out, "$signed(w{a}) < $signed(w{b})")
}

// Writes a wire with so many zeros above it.
fn write_zeros_above(out: &mut String, zeros: u8, a: u64) -> Result<(), AllocError>
    ensures { AddsText result out.old out.new (zeros_above_text zeros a) }
{
    out.push_str("{")?;
    write!(out, "{zeros}'d0, w{a}")?;
    out.push_str("}")
}

// Writes a wire of so many bits with so many copies of its highest one above it.
fn write_sign_above(out: &mut String, copies: u8, narrow: u8, a: u64) -> Result<(), AllocError>
    ensures { AddsText result out.old out.new (sign_above_text copies narrow a) }
{
    write!(
        out,
        "{{{{{copies}{{w{a}[{}]}}}}, w{a}}}",
        narrow.saturating_sub(1)
    )
}

// Writes so many low bits of a wire.
fn write_low(out: &mut String, width: u8, a: u64) -> Result<(), AllocError>
    ensures { AddsText result out.old out.new (low_text width a) }
{
    write!(out, "w{a}[{}:0]", width.saturating_sub(1))
}

// Writes a choice between two wires.
fn write_chosen(out: &mut String, c: u64, a: u64, b: u64) -> Result<(), AllocError>
    ensures { AddsText result out.old out.new (chosen_text c a b) }
{
    write!(out, "w{c} ? w{a} : w{b}")
}

/// Writes the expression of a cell of this width, in a net of these cells.
pub fn write_form(
    out: &mut String,
    cells: &[Cell],
    width: u8,
    form: CellForm,
) -> Result<(), AllocError>
    ensures { AddsText result out.old out.new (form_text cells.now width form) }
{
    match form {
        CellForm::Const { bits } => write!(out, "{width}'d{bits}"),
        CellForm::Reg { register } => write!(out, "r{register}"),
        CellForm::Data { memory, bank, port } => write!(out, "m{memory}_b{bank}_p{port}_in"),
        CellForm::Add { a, b } => write_binary(out, a, " + ", b),
        CellForm::Sub { a, b } => write_binary(out, a, " - ", b),
        CellForm::Mul { a, b } => write_binary(out, a, " * ", b),
        CellForm::And { a, b } => write_binary(out, a, " & ", b),
        CellForm::Or { a, b } => write_binary(out, a, " | ", b),
        CellForm::Xor { a, b } => write_binary(out, a, " ^ ", b),
        CellForm::Shl { a, b } => write_binary(out, a, " << ", b),
        CellForm::ShrU { a, b } => write_binary(out, a, " >> ", b),
        CellForm::ShrS { a, b } => write_signed_shift(out, a, b),
        CellForm::LtU { a, b } => write_binary(out, a, " < ", b),
        CellForm::LtS { a, b } => write_signed_less(out, a, b),
        CellForm::Eq { a, b } => write_binary(out, a, " == ", b),
        CellForm::Mux { c, a, b } => write_chosen(out, c, a, b),
        CellForm::Zero { a } => {
            write_zeros_above(out, width.saturating_sub(width_at(cells, a)), a)
        }
        CellForm::Sign { a } => {
            let narrow = width_at(cells, a);
            write_sign_above(out, width.saturating_sub(narrow), narrow, a)
        }
        CellForm::Low { a } => write_low(out, width, a),
    }
}
