//! The banks of local memories: their declarations, the zeros that they begin with, and what a clock does to
//! them.

ghost use Rattle.std.specs.Prelude.{◌≡◌};
ghost use Rattle.dh_verilog.specs.Adding.{AddsText};
ghost use Rattle.dh_verilog.specs.Listed.{each};
ghost use Rattle.dh_verilog.specs.Locals.{bank_name, bit_wire, wide_wire, held_line, bank_line, last_line, declared_lines, local_lines, zeros_line, local_zeros, has_local, zeros_block, zeros_text, when_reading, when_writing, row_text, read_line, write_line, served_lines, local_served, declared_text};

use crate::ports::write_pin;
use dh_net::Port;
use std::alloc::AllocError;
use std::fmt::Write;

// Writes the name of the port's bank.
fn write_bank(out: &mut String, port: Port) -> Result<(), AllocError>
    ensures { AddsText result out.old out.new (bank_name port) }
{
    write!(out, "m{}_b{}", port.memory, port.bank)
}

// Writes the declaration of a wire of one bit.
fn write_bit_wire(out: &mut String, port: Port, ending: &str) -> Result<(), AllocError>
    ensures { AddsText result out.old out.new (bit_wire port ending.now) }
{
    out.push_str("  wire ")?;
    write_pin(out, port, ending)?;
    out.push_str(";\n")
}

// Writes the declaration of a wire of this width.
fn write_wide_wire(out: &mut String, width: u8, port: Port, ending: &str) -> Result<(), AllocError>
    ensures { AddsText result out.old out.new (wide_wire width port ending.now) }
{
    write!(out, "  wire [{}:0] ", width.saturating_sub(1))?;
    write_pin(out, port, ending)?;
    out.push_str(";\n")
}

// Writes the declaration of the port's held data.
fn write_held(out: &mut String, port: Port) -> Result<(), AllocError>
    ensures { AddsText result out.old out.new (held_line port) }
{
    write!(out, "  reg [{}:0] ", port.width.saturating_sub(1))?;
    write_pin(out, port, "_in")?;
    write!(out, " = {}'d0;\n", port.width)
}

// Writes the declaration of the port's bank.
fn write_bank_line(out: &mut String, port: Port) -> Result<(), AllocError>
    ensures { AddsText result out.old out.new (bank_line port) }
{
    write!(out, "  reg [{}:0] ", port.width.saturating_sub(1))?;
    write_bank(out, port)?;
    write!(out, " [0:{}];\n", port.rows.saturating_sub(1))
}

// Writes the declaration of the bank behind its last port.
fn write_last(out: &mut String, port: Port) -> Result<(), AllocError>
    ensures { AddsText result out.old out.new (last_line port) }
{
    if port.is_last {
        write_bank_line(out, port)
    } else {
        Ok(())
    }
}

// Writes the declarations of a local port.
fn write_port(out: &mut String, port: Port) -> Result<(), AllocError>
    ensures { AddsText result out.old out.new (declared_lines port) }
{
    write_bit_wire(out, port, "_en")?;
    write_bit_wire(out, port, "_we")?;
    write_wide_wire(out, port.row_width, port, "_row")?;
    write_wide_wire(out, port.width, port, "_out")?;
    write_held(out, port)?;
    write_last(out, port)
}

// Writes them where the port is local.
fn write_local(out: &mut String, port: Port) -> Result<(), AllocError>
    ensures { AddsText result out.old out.new (local_lines port) }
{
    if port.outside {
        Ok(())
    } else {
        write_port(out, port)
    }
}

// Writes the declarations of all local ports.
fn write_all_local(out: &mut String, ports: &[Port]) -> Result<(), AllocError>
    ensures { AddsText result out.old out.new (each local_lines ports.now) }
{
    for port in ports {
        write_local(out, *port)?;
    }
    Ok(())
}

// Writes the loop that fills the port's bank with zeros.
fn write_zeros_line(out: &mut String, port: Port) -> Result<(), AllocError>
    ensures { AddsText result out.old out.new (zeros_line port) }
{
    write!(
        out,
        "    for (k = 0; k < {}; k = k + 1) m{}_b{}[k] = {}'d0;\n",
        port.rows, port.memory, port.bank, port.width
    )
}

// Writes it where the port is the last of a local bank.
fn write_zeros(out: &mut String, port: Port) -> Result<(), AllocError>
    ensures { AddsText result out.old out.new (local_zeros port) }
{
    if !port.outside && port.is_last {
        write_zeros_line(out, port)
    } else {
        Ok(())
    }
}

// Writes the loops of all local banks.
fn write_all_zeros(out: &mut String, ports: &[Port]) -> Result<(), AllocError>
    ensures { AddsText result out.old out.new (each local_zeros ports.now) }
{
    for port in ports {
        write_zeros(out, *port)?;
    }
    Ok(())
}

// Whether a port is local.
fn is_any_local(ports: &[Port]) -> bool
    ensures { result ≡ has_local ports.now }
{
    for port in ports {
        if !port.outside {
            return true;
        }
    }
    false
}

// Writes the block that fills the local banks with zeros.
fn write_zeros_block(out: &mut String, ports: &[Port]) -> Result<(), AllocError>
    ensures { AddsText result out.old out.new (zeros_block ports.now) }
{
    out.push_str("  integer k;\n  initial begin\n")?;
    write_all_zeros(out, ports)?;
    out.push_str("  end\n")
}

// Writes it where a port is local.
fn write_initial(out: &mut String, ports: &[Port]) -> Result<(), AllocError>
    ensures { AddsText result out.old out.new (zeros_text ports.now) }
{
    if is_any_local(ports) {
        write_zeros_block(out, ports)
    } else {
        Ok(())
    }
}

/// Writes the declarations of all local banks and their ports.
pub fn write_declared(out: &mut String, ports: &[Port]) -> Result<(), AllocError>
    ensures { AddsText result out.old out.new (declared_text ports.now) }
{
    write_all_local(out, ports)?;
    write_initial(out, ports)
}

// Writes the condition of a read.
fn write_when_reading(out: &mut String, port: Port) -> Result<(), AllocError>
    ensures { AddsText result out.old out.new (when_reading port) }
{
    out.push_str("    if (")?;
    write_pin(out, port, "_en")?;
    out.push_str(" & ~")?;
    write_pin(out, port, "_we")?;
    out.push_str(") ")
}

// Writes the condition of a write.
fn write_when_writing(out: &mut String, port: Port) -> Result<(), AllocError>
    ensures { AddsText result out.old out.new (when_writing port) }
{
    out.push_str("    if (")?;
    write_pin(out, port, "_en")?;
    out.push_str(" & ")?;
    write_pin(out, port, "_we")?;
    out.push_str(") ")
}

// Writes the row of the bank that the port is at.
fn write_row(out: &mut String, port: Port) -> Result<(), AllocError>
    ensures { AddsText result out.old out.new (row_text port) }
{
    write_bank(out, port)?;
    out.push_str("[")?;
    write_pin(out, port, "_row")?;
    out.push_str("]")
}

// Writes what a read does.
fn write_read_line(out: &mut String, port: Port) -> Result<(), AllocError>
    ensures { AddsText result out.old out.new (read_line port) }
{
    write_when_reading(out, port)?;
    write_pin(out, port, "_in")?;
    out.push_str(" <= ")?;
    write_row(out, port)?;
    out.push_str(";\n")
}

// Writes what a write does.
fn write_write_line(out: &mut String, port: Port) -> Result<(), AllocError>
    ensures { AddsText result out.old out.new (write_line port) }
{
    write_when_writing(out, port)?;
    write_row(out, port)?;
    out.push_str(" <= ")?;
    write_pin(out, port, "_out")?;
    out.push_str(";\n")
}

// Writes what a clock does to a local port and its bank.
fn write_served_lines(out: &mut String, port: Port) -> Result<(), AllocError>
    ensures { AddsText result out.old out.new (served_lines port) }
{
    write_read_line(out, port)?;
    write_write_line(out, port)
}

// Writes it where the port is local.
fn write_local_served(out: &mut String, port: Port) -> Result<(), AllocError>
    ensures { AddsText result out.old out.new (local_served port) }
{
    if port.outside {
        Ok(())
    } else {
        write_served_lines(out, port)
    }
}

/// Writes what a clock does to all local banks and their ports.
pub fn write_served(out: &mut String, ports: &[Port]) -> Result<(), AllocError>
    ensures { AddsText result out.old out.new (each local_served ports.now) }
{
    for port in ports {
        write_local_served(out, *port)?;
    }
    Ok(())
}
