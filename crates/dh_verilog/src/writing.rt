//! The text of a net.

ghost use Rattle.std.specs.Prelude.{◌≡◌, ◌<◌, ◌≤◌, ◌^◌, IfOk, OnOk, length};
ghost use Rattle.std.specs.List.{AllByRecursion};
ghost use Rattle.dh_net.specs.Valid.{IsValid, HasReadsZero};
ghost use Rattle.dh_verilog.specs.Adding.{AddsText};
ghost use Rattle.dh_net.specs.BankPorts.{ports_of};
ghost use Rattle.dh_extents.specs.Extents.{IsSmallMemory};
ghost use Rattle.dh_verilog.specs.Listed.{each, each_numbered};
ghost use Rattle.dh_verilog.specs.Locals.{local_served};
ghost use Rattle.dh_verilog.specs.Driving.{driving_text};
ghost use Rattle.dh_verilog.specs.Ranges.{InRange, IsAlone, IsPlaceInRange};
ghost use Rattle.dh_verilog.specs.Text.{register_line, cell_line, outputs_text, update_line, clock_text, netlist_head_text, text_of};

use crate::expressions::write_form;
use crate::heads::{write_faults, write_memories, write_module};
use crate::locals::{write_declared, write_served};
use crate::ports::write_port_lines;
use dh_base::{Items, NoMemory};
use dh_net::{Cell, Driver, Net, Port, Register, list_ports};
use std::alloc::{AllocError, Global};
use std::fmt::Write;

// Writes the declaration of the register with this number.
fn write_register(out: &mut String, number: usize, register: Register) -> Result<(), AllocError>
    requires { 1 ≤ register.width }
    ensures { AddsText result out.old out.new (register_line number register) }
{
    let Register { width, initial, .. } = register;
    write!(
        out,
        "  reg [{}:0] r{} = {}'d{};\n",
        width - 1,
        number,
        width,
        initial
    )
}

// Writes the declarations of all registers.
fn write_registers(out: &mut String, registers: &[Register]) -> Result<(), AllocError>
    requires { AllByRecursion (λ r. 1 ≤ r.width) registers.now }
    ensures text { AddsText result out.old out.new (each_numbered register_line 0 registers.now) }
    ensures count { length registers.now < 2 ^ 64 }
{
    for (i, register) in registers.iter().enumerate() {
        write_register(out, i, *register)?;
    }
    Ok(())
}

// Writes the declaration of the wire with this number, in a net of these cells.
fn write_cell(out: &mut String, cells: &[Cell], number: usize, cell: Cell) -> Result<(), AllocError>
    requires { 1 ≤ cell.width }
    ensures { AddsText result out.old out.new (cell_line cells.now number cell) }
{
    write!(out, "  wire [{}:0] w{} = ", cell.width - 1, number)?;
    write_form(out, cells, cell.width, cell.form)?;
    out.push_str(";\n")
}

// Writes the declarations of all wires.
fn write_cells(out: &mut String, cells: &[Cell]) -> Result<(), AllocError>
    requires { AllByRecursion (λ c. 1 ≤ c.width) cells.now }
    ensures text { AddsText result out.old out.new (each_numbered (cell_line cells.now) 0 cells.now) }
    ensures count { length cells.now < 2 ^ 64 }
{
    for (i, cell) in cells.iter().enumerate() {
        write_cell(out, cells, i, *cell)?;
    }
    Ok(())
}

// Writes what drives each port.
fn write_drivers(
    out: &mut String,
    ports: &[Port],
    drivers: &[Items<Driver>],
) -> Result<(), AllocError>
    requires { length drivers.now ≡ length ports.now }
    ensures { AddsText result out.old out.new (driving_text ports.now drivers.now) }
{
    for (i, port) in ports.iter().enumerate() {
        write_port_lines(out, *port, drivers[i].as_slice())?;
    }
    Ok(())
}

// Writes the outputs.
fn write_outputs(out: &mut String, tick: u64, done: u64, fault: u64) -> Result<(), AllocError>
    ensures { AddsText result out.old out.new (outputs_text tick done fault) }
{
    write!(
        out,
        "  assign tick = w{tick};\n  assign done = w{done};\n  assign fault = w{fault};\n"
    )
}

// Writes what the register with this number takes.
fn write_update(out: &mut String, number: usize, register: Register) -> Result<(), AllocError>
    ensures { AddsText result out.old out.new (update_line number register) }
{
    write!(out, "    r{} <= w{};\n", number, register.next)
}

// Writes what all registers take.
fn write_updates(out: &mut String, registers: &[Register]) -> Result<(), AllocError>
    ensures { AddsText result out.old out.new (each_numbered update_line 0 registers.now) }
{
    for (i, register) in registers.iter().enumerate() {
        write_update(out, i, *register)?;
    }
    Ok(())
}

// Writes what each clock does, and the end.
fn write_clock(out: &mut String, registers: &[Register], ports: &[Port]) -> Result<(), AllocError>
    ensures { AddsText result out.old out.new (clock_text registers.now ports.now) }
{
    out.push_str("  always @(posedge clk) begin\n")?;
    write_updates(out, registers)?;
    write_served(out, ports)?;
    out.push_str("  end\nendmodule\n")
}

// Writes what stands before the registers.
fn write_head(out: &mut String, net: &Net, ports: &[Port]) -> Result<(), AllocError>
    ensures text { AddsText result out.old out.new (netlist_head_text net.now ports.now) }
    ensures range { OnOk result (AllByRecursion (λ f. IsPlaceInRange f.1) net.now.faults) }
{
    out.push_str("// dahlia netlist 1\n")?;
    write_memories(out, net.table.as_slice())?;
    write_faults(out, net.faults.as_slice())?;
    write_module(out, ports)?;
    write_declared(out, ports)
}

// Writes the text of the net with these ports.
fn write_net(out: &mut String, net: &Net, ports: &[Port]) -> Result<(), AllocError>
    requires valid { IsValid net.now }
    requires ports { ports.now ≡ ports_of net.now.table }
    ensures text { AddsText result out.old out.new (text_of net.now) }
    ensures range { OnOk result (InRange net.now) }
{
    let registers = net.registers.as_slice();
    write_head(out, net, ports)?;
    write_registers(out, registers)?;
    write_cells(out, net.cells.as_slice())?;
    write_drivers(out, ports, net.drivers.as_slice())?;
    write_outputs(out, net.tick, net.done, net.fault)?;
    write_clock(out, registers, ports)
}

// Room for the text of most nets, so that it is seldom moved: of a cell the line takes some fifty bytes.
fn room_of(net: &Net) -> usize {
    net.cells.len().saturating_mul(64)
}

/// The text of a valid net, in time linear in its length. Where the net's reads have data 0, no other
/// such net has this text. Fails only where memory is refused.
#[tactic(auto, using(dh_net::proofs::PortWalks::small_memories))]
pub fn write(alloc: Global, net: &Net) -> Result<Vec<u8>, NoMemory>
    requires { IsValid net.now }
    ensures text { IfOk result (λ bytes. bytes.items ≡ text_of net.now) }
    ensures range { OnOk result (InRange net.now) }
    ensures alone { HasReadsZero net.now → IfOk result (λ bytes. IsAlone bytes.items net.now) }
{
    let ports = list_ports(alloc, net.table.as_slice())?;
    let mut out = String::with_capacity(alloc, room_of(net))?;
    write_net(&mut out, net, &ports)?;
    Ok(out.into_bytes())
}
