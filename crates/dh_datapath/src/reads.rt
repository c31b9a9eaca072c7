//! Wires for what reads show: of the banks that an access lists, that which its select shows, or else the first.
//! Each is what the port holds there that the operation uses.

ghost use Rattle.std.specs.Prelude.{◌≡◌, ◌+◌, ◌<◌, ◌≤◌, ◌^◌, ◌↔◌, IsTrue};
ghost use Rattle.dh_value.specs.Words.{IsWidth};
ghost use Rattle.dh_plan.specs.BoundPorts.{port_among};
ghost use Rattle.dh_lower.specs.ShownWords.{port_or_first};
ghost use Rattle.dh_cells.specs.Settled.{IsWire, WireAdded};
ghost use Rattle.dh_cells.specs.ShownValues.{match_shown};
ghost use Rattle.dh_datapath.specs.BlockWires.{read_bits};
ghost use Rattle.dh_datapath.specs.ReadWires.{HasPort, HavePorts, bank_choice_shown, bank_shown, banks_shown, selected_bank_shown};
ghost use Rattle.dh_datapath.specs.ValueWires.{AreValueWires, SelectIsThere};

use crate::values::{kind_of, wire_of};
use dh_base::NoMemory;
use dh_cells::{Circuit, push_choice, push_match};
use dh_plan::Reach;
use dh_value::{Kind, width};

/// The port of a bank, among pairs of a bank and a port: 0 where there is no such pair.
pub fn port_of_bank(ports: &[(u32, u32)], bank: u32) -> u32
    ensures { result ≡ port_or_first (port_among bank ports.now) }
{
    for pair in ports {
        if pair.0 == bank {
            return pair.1;
        }
    }
    0
}

/// Adds a wire for what the port holds that is used of a bank.
pub fn push_bank(
    circuit: &mut Circuit,
    width: u8,
    memory: u32,
    ports: &[(u32, u32)],
    bank: u32,
) -> Result<u64, NoMemory>
    requires width { IsWidth width }
    requires port { HasPort circuit.old.table memory width ports.now bank }
    ensures { WireAdded result circuit.old circuit.new width
        (bank_shown circuit.old.table memory ports.now bank) }
{
    let port = port_of_bank(ports, bank);
    circuit.push_held(width, memory, bank, port)
}

// Whether a number has no bit from a width on.
fn fits_width(width: u8, number: u64) -> bool
    requires { width ≤ 64 }
    ensures { IsTrue result ↔ (number < 2 ^ width) }
{
    width == 64 || number < 1 << width
}

/// Adds a wire that is 1 where a wire of this width shows the number of a bank, which may have more bits.
pub fn push_bank_test(
    circuit: &mut Circuit,
    width: u8,
    select: u64,
    bank: u32,
) -> Result<u64, NoMemory>
    requires { IsWire circuit.old select width }
    ensures { WireAdded result circuit.old circuit.new 1 (match_shown select bank) }
{
    if fits_width(width, bank as u64) {
        push_match(circuit, width, select, bank as u64)
    } else {
        circuit.push_constant(1, 0)
    }
}

/// Adds a wire for what is held of a bank where a wire of a width shows its number, and else what another shows.
pub fn push_bank_choice(
    circuit: &mut Circuit,
    width: u8,
    memory: u32,
    ports: &[(u32, u32)],
    select_width: u8,
    select: u64,
    bank: u32,
    others: u64,
) -> Result<u64, NoMemory>
    requires width { IsWidth width }
    requires port { HasPort circuit.old.table memory width ports.now bank }
    requires select { IsWire circuit.old select select_width }
    requires others { IsWire circuit.old others width }
    ensures { WireAdded result circuit.old circuit.new width
        (bank_choice_shown circuit.old.table memory ports.now select bank others) }
{
    let held = push_bank(circuit, width, memory, ports, bank)?;
    let test = push_bank_test(circuit, select_width, select, bank)?;
    push_choice(circuit, width, test, held, others)
}

/// Adds a wire for what is held of that one of these banks whose number a wire of a width shows, and else what the
/// default shows.
pub fn push_banks(
    circuit: &mut Circuit,
    width: u8,
    memory: u32,
    ports: &[(u32, u32)],
    select_width: u8,
    select: u64,
    banks: &[(u32, u32)],
    default: u64,
) -> Result<u64, NoMemory>
    requires width { IsWidth width }
    requires ports { HavePorts circuit.old.table memory width ports.now banks.now }
    requires select { IsWire circuit.old select select_width }
    requires default { IsWire circuit.old default width }
    ensures { WireAdded result circuit.old circuit.new width
        (banks_shown circuit.old.table memory ports.now banks.now select default) }
{
    let Some((bank, rest)) = banks.split_first() else {
        return Ok(default);
    };
    let others = push_banks(
        circuit,
        width,
        memory,
        ports,
        select_width,
        select,
        rest,
        default,
    )?;
    push_bank_choice(
        circuit,
        width,
        memory,
        ports,
        select_width,
        select,
        bank.0,
        others,
    )
}

/// Adds a wire for what is held of that one of the listed banks whose number a wire of a width shows, and of the first
/// where it shows none of them. The first stands apart from the others.
pub fn push_selected_bank(
    circuit: &mut Circuit,
    width: u8,
    memory: u32,
    ports: &[(u32, u32)],
    select_width: u8,
    select: u64,
    first: (u32, u32),
    others: &[(u32, u32)],
) -> Result<u64, NoMemory>
    requires width { IsWidth width }
    requires port { HasPort circuit.old.table memory width ports.now first.0 }
    requires ports { HavePorts circuit.old.table memory width ports.now others.now }
    requires select { IsWire circuit.old select select_width }
    ensures { WireAdded result circuit.old circuit.new width
        (selected_bank_shown circuit.old.table memory ports.now first others.now select) }
{
    let default = push_bank(circuit, width, memory, ports, first.0)?;
    push_banks(
        circuit,
        width,
        memory,
        ports,
        select_width,
        select,
        others,
        default,
    )
}

/// Adds a wire for what a read shows, behind values of these kinds and wires: what the port holds that is used of the
/// bank that it picks. Where it lists no bank that is 0.
pub fn push_read(
    circuit: &mut Circuit,
    element: u8,
    ports: &[(u32, u32)],
    first: u64,
    kinds: &[Kind],
    wires: &[u64],
    access: &Reach,
) -> Result<u64, NoMemory>
    requires width { IsWidth element }
    requires ports { HavePorts circuit.old.table access.now.memory element ports.now
        access.now.banks }
    requires values { AreValueWires circuit.old kinds.now wires.now }
    requires select { SelectIsThere first wires.now access.now.select }
    ensures { WireAdded result circuit.old circuit.new element
        (read_bits circuit.old.table ports.now first kinds.now wires.now access.now) }
{
    let Some((bank, others)) = access.banks.as_slice().split_first() else {
        return circuit.push_constant(element, 0);
    };
    match access.select {
        None => push_bank(circuit, element, access.memory, ports, bank.0),
        Some(number) => {
            let select_width = width(kind_of(first, kinds, number));
            let select = wire_of(first, wires, number);
            push_selected_bank(
                circuit,
                element,
                access.memory,
                ports,
                select_width,
                select,
                *bank,
                others,
            )
        }
    }
}
