//! The head of the text: its comments, and the list of the module's ports.

ghost use Rattle.std.specs.Prelude.{◌≡◌, [], IsOk, OnOk};
ghost use Rattle.std.specs.List.{AllByRecursion};
ghost use Rattle.dh_verilog.specs.Adding.{AddsText};
ghost use Rattle.dh_verilog.specs.Listed.{each, each_numbered};
ghost use Rattle.dh_verilog.specs.Ranges.{IsPlaceInRange};
ghost use Rattle.dh_verilog.specs.Head.{kind_text, dim_text, dims_text, side_text, memory_line, fault_line, outer_pins, module_text};

use crate::ports::write_outer_pins;
use dh_base::{FaultKind, Place};
use dh_net::Port;
use dh_tree::{Dim, Kind, MemEntry};
use std::alloc::AllocError;
use std::fmt::Write;

// Writes the kind.
fn write_kind(out: &mut String, kind: Kind) -> Result<(), AllocError>
    ensures { AddsText result out.old out.new (kind_text kind) }
{
    match kind {
        Kind::Bool => out.push_str("bool"),
        Kind::Unsigned(width) => write!(out, "ubit {width}"),
        Kind::Signed(width) => write!(out, "bit {width}"),
    }
}

// Writes the dimension: its size and its banks.
fn write_dim(out: &mut String, dim: Dim) -> Result<(), AllocError>
    ensures { AddsText result out.old out.new (dim_text dim) }
{
    write!(out, "{}:{}", dim.size, dim.banks)
}

// Writes the dimensions, joined.
fn write_dims(out: &mut String, dims: &[Dim]) -> Result<(), AllocError>
    ensures text { AddsText result out.old out.new (dims_text dims.now) }
    ensures none { dims.now ≡ [] → IsOk result }
{
    match dims.split_first() {
        Some((first, others)) => {
            write_dim(out, *first)?;
            for dim in others {
                out.push_str("x")?;
                write_dim(out, *dim)?;
            }
            Ok(())
        }
        None => Ok(()),
    }
}

// Where the memory lies.
fn side(outside: bool) -> &'static str
    ensures { result.now ≡ side_text outside }
{
    if outside { "outside" } else { "local" }
}

// Writes the comment on the memory with this number.
fn write_memory_line(out: &mut String, number: usize, entry: &MemEntry) -> Result<(), AllocError>
    ensures { AddsText result out.old out.new (memory_line number entry.now) }
{
    write!(out, "// memory {} {} ", number, entry.name.as_str())?;
    write_kind(out, entry.shape.kind)?;
    write!(out, " ports {} dims ", entry.shape.ports)?;
    write_dims(out, entry.shape.dims.as_slice())?;
    write!(out, " {}\n", side(entry.outside))
}

/// Writes the comments on all memories.
pub fn write_memories(out: &mut String, table: &[MemEntry]) -> Result<(), AllocError>
    ensures { AddsText result out.old out.new (each_numbered memory_line 0 table.now) }
{
    for (i, entry) in table.iter().enumerate() {
        write_memory_line(out, i, entry)?;
    }
    Ok(())
}

// Writes the comment on the fault with this number.
fn write_fault_line(
    out: &mut String,
    number: usize,
    kind: FaultKind,
    place: Place,
) -> Result<(), AllocError>
    ensures text { AddsText result out.old out.new (fault_line number (kind, place)) }
    ensures range { IsPlaceInRange place }
{
    let name = kind.name();
    write!(
        out,
        "// fault {} {} {}:{}\n",
        number, name, place.line, place.column
    )
}

/// Writes the comments on all faults.
pub fn write_faults(out: &mut String, faults: &[(FaultKind, Place)]) -> Result<(), AllocError>
    ensures text { AddsText result out.old out.new (each_numbered fault_line 1 faults.now) }
    ensures range { OnOk result (AllByRecursion (λ f. IsPlaceInRange f.1) faults.now) }
{
    for (i, (kind, place)) in faults.iter().enumerate() {
        write_fault_line(out, i + 1, *kind, *place)?;
    }
    Ok(())
}

// Writes the pins of all ports outside the module.
fn write_all_pins(out: &mut String, ports: &[Port]) -> Result<(), AllocError>
    ensures { AddsText result out.old out.new (each outer_pins ports.now) }
{
    for port in ports {
        write_outer_pins(out, *port)?;
    }
    Ok(())
}

/// Writes the list of the module's ports.
pub fn write_module(out: &mut String, ports: &[Port]) -> Result<(), AllocError>
    ensures { AddsText result out.old out.new (module_text ports.now) }
{
    out.push_str("module kernel(\n  input clk,\n  output tick,\n  output done,\n")?;
    out.push_str("  output [31:0] fault")?;
    write_all_pins(out, ports)?;
    out.push_str("\n);\n")
}
