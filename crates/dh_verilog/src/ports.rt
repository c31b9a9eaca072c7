//! The ports of memories, their pins, and the lines that say what drives them.

ghost use Rattle.std.specs.Prelude.{◌≡◌};
ghost use Rattle.dh_verilog.specs.Adding.{AddsText};
ghost use Rattle.dh_verilog.specs.Listed.{each};
ghost use Rattle.dh_verilog.specs.Head.{pin, bit_pin, wide_pin, pin_lines, outer_pins};
ghost use Rattle.dh_verilog.specs.Driving.{enables_text, enable_line, ending_of, signal_width, zero_text, value_text, choice_text, choice_line, port_lines};

use dh_net::{Driver, Port};
use std::alloc::AllocError;
use std::fmt::Write;

/// What the net tells a port beside whether it is enabled.
#[derive(Clone, Copy, PartialEq, Eq)]
pub enum Signal {
    /// Whether it writes.
    Write,
    /// The row.
    Row,
    /// The data of a write.
    Out,
}

/// Writes the name of a pin.
pub fn write_pin(out: &mut String, port: Port, ending: &str) -> Result<(), AllocError>
    ensures { AddsText result out.old out.new (pin port ending.now) }
{
    write!(out, "m{}_b{}_p{}", port.memory, port.bank, port.port)?;
    out.push_str(ending)
}

// Writes the line of an output of one bit, after the comma of the line before.
fn write_bit_pin(out: &mut String, port: Port, ending: &str) -> Result<(), AllocError>
    ensures { AddsText result out.old out.new (bit_pin port ending.now) }
{
    out.push_str(",\n  output ")?;
    write_pin(out, port, ending)
}

// Writes the line of a pin with a range, after the comma of the line before.
fn write_wide_pin(
    out: &mut String,
    direction: &str,
    width: u8,
    port: Port,
    ending: &str,
) -> Result<(), AllocError>
    ensures { AddsText result out.old out.new (wide_pin direction.now width port ending.now) }
{
    write!(out, ",\n  {} [{}:0] ", direction, width.saturating_sub(1))?;
    write_pin(out, port, ending)
}

// Writes the lines of the five pins.
fn write_pins(out: &mut String, port: Port) -> Result<(), AllocError>
    ensures { AddsText result out.old out.new (pin_lines port) }
{
    write_bit_pin(out, port, "_en")?;
    write_bit_pin(out, port, "_we")?;
    write_wide_pin(out, "output", port.row_width, port, "_row")?;
    write_wide_pin(out, "output", port.width, port, "_out")?;
    write_wide_pin(out, "input", port.width, port, "_in")
}

/// Writes the pins of a port outside the module.
pub fn write_outer_pins(out: &mut String, port: Port) -> Result<(), AllocError>
    ensures { AddsText result out.old out.new (outer_pins port) }
{
    if port.outside {
        write_pins(out, port)
    } else {
        Ok(())
    }
}

// Writes the enable wires, joined.
fn write_enables(out: &mut String, drivers: &[Driver]) -> Result<(), AllocError>
    ensures { AddsText result out.old out.new (enables_text drivers.now) }
{
    match drivers.split_first() {
        Some((first, others)) => {
            write!(out, "w{}", first.enable)?;
            for driver in others {
                write!(out, " | w{}", driver.enable)?;
            }
            Ok(())
        }
        None => out.push_str("1'd0"),
    }
}

// Writes the line of the enable pin.
fn write_enable_line(out: &mut String, port: Port, drivers: &[Driver]) -> Result<(), AllocError>
    ensures { AddsText result out.old out.new (enable_line port drivers.now) }
{
    out.push_str("  assign ")?;
    write_pin(out, port, "_en")?;
    out.push_str(" = ")?;
    write_enables(out, drivers)?;
    out.push_str(";\n")
}

// The ending of the name of the signal's pin.
fn ending(signal: Signal) -> &'static str
    ensures { result.now ≡ ending_of signal }
{
    match signal {
        Signal::Write => "_we",
        Signal::Row => "_row",
        Signal::Out => "_out",
    }
}

// The signal's bits.
fn width_at(signal: Signal, port: Port) -> u8
    ensures { result ≡ signal_width signal port }
{
    match signal {
        Signal::Write => 1,
        Signal::Row => port.row_width,
        Signal::Out => port.width,
    }
}

// Writes a zero of the width.
fn write_zero(out: &mut String, width: u8) -> Result<(), AllocError>
    ensures { AddsText result out.old out.new (zero_text width) }
{
    write!(out, "{width}'d0")
}

// Writes what the driver puts on the signal.
fn write_value(
    out: &mut String,
    signal: Signal,
    port: Port,
    driver: Driver,
) -> Result<(), AllocError>
    ensures { AddsText result out.old out.new (value_text signal port driver) }
{
    match signal {
        Signal::Write if driver.write => out.push_str("1'd1"),
        Signal::Write => out.push_str("1'd0"),
        Signal::Row => write!(out, "w{}", driver.row),
        Signal::Out if driver.write => write!(out, "w{}", driver.data_),
        Signal::Out => write_zero(out, port.width),
    }
}

// Writes the driver's value under its enable wire.
fn write_choice(
    out: &mut String,
    signal: Signal,
    port: Port,
    driver: Driver,
) -> Result<(), AllocError>
    ensures { AddsText result out.old out.new (choice_text signal port driver) }
{
    write!(out, "w{} ? ", driver.enable)?;
    write_value(out, signal, port, driver)?;
    out.push_str(" : ")
}

// Writes the drivers' values, each under its enable wire.
fn write_choices(
    out: &mut String,
    signal: Signal,
    port: Port,
    drivers: &[Driver],
) -> Result<(), AllocError>
    ensures { AddsText result out.old out.new (each (choice_text signal port) drivers.now) }
{
    for driver in drivers {
        write_choice(out, signal, port, *driver)?;
    }
    Ok(())
}

// Writes the line of the signal's pin.
fn write_choice_line(
    out: &mut String,
    signal: Signal,
    port: Port,
    drivers: &[Driver],
) -> Result<(), AllocError>
    ensures { AddsText result out.old out.new (choice_line signal port drivers.now) }
{
    out.push_str("  assign ")?;
    write_pin(out, port, ending(signal))?;
    out.push_str(" = ")?;
    write_choices(out, signal, port, drivers)?;
    write_zero(out, width_at(signal, port))?;
    out.push_str(";\n")
}

/// Writes the four lines that say what drives the port.
pub fn write_port_lines(out: &mut String, port: Port, drivers: &[Driver]) -> Result<(), AllocError>
    ensures { AddsText result out.old out.new (port_lines port drivers.now) }
{
    write_enable_line(out, port, drivers)?;
    write_choice_line(out, Signal::Write, port, drivers)?;
    write_choice_line(out, Signal::Row, port, drivers)?;
    write_choice_line(out, Signal::Out, port, drivers)
}
