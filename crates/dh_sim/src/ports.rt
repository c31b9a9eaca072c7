//! The ports of memories: which driver each serves, what that does to the held data and the memories,
//! and whether two drivers clash.

ghost use Rattle.std.specs.Prelude.{◌≡◌, ◌<◌, length, map, slice_index, slice_set};
ghost use Rattle.dh_net.specs.BankPorts.{ports_of};
ghost use Rattle.dh_net.specs.Clock.{has_clash, has_clashes, served, memory_at, position_of_row, row_value, with_row, held_by, written_by};
ghost use Rattle.dh_net.specs.Valid.{IsValid};
ghost use Rattle.dh_sim.specs.Points.{lists_of, ReadsPorts, WritesPorts};
ghost use Rattle.dh_sim.specs.Rooms.{AreDriversInRooms, IsServedInRooms, IsPlacedPort};

use dh_extents::place_in_bank;
use dh_net::{Driver, Net, Port};
use dh_tree::MemEntry;

// The first active driver: the one that the port serves.
fn first_active(drivers: &[Driver], wires: &[u64]) -> Option<Driver>
    requires { AreDriversInRooms (length wires.now) drivers.now }
    ensures first { result ≡ served wires.now drivers.now }
    ensures there { IsServedInRooms (length wires.now) result }
{
    for driver in drivers {
        if wires[driver.enable as usize] == 1 {
            return Some(*driver);
        }
    }
    None
}

// Whether two drivers of a port are active.
fn is_clash(drivers: &[Driver], wires: &[u64]) -> bool
    requires { AreDriversInRooms (length wires.now) drivers.now }
    ensures { result ≡ has_clash wires.now drivers.now }
{
    let mut active = false;
    for driver in drivers {
        if wires[driver.enable as usize] == 1 {
            if active {
                return true;
            }
            active = true;
        }
    }
    false
}

/// Whether two drivers of some port are active.
pub fn is_any_clash(net: &Net, wires: &[u64]) -> bool
    requires valid { IsValid net.now }
    requires wires { length wires.now ≡ length net.now.cells }
    ensures { result ≡ has_clashes wires.now net.now.drivers }
{
    for drivers in net.drivers.as_slice() {
        if is_clash(drivers.as_slice(), wires) {
            return true;
        }
    }
    false
}

// An element of a memory.
fn element_at(memories: &[Vec<u64>], memory: usize, place: u64) -> u64
    requires { memory < length memories.now }
    ensures { result ≡ slice_index (memory_at (lists_of memories.now) memory) place }
{
    match memories[memory].get(place as usize) {
        Some(value) => *value,
        None => 0,
    }
}

// Sets an element of a list, where it is there.
fn set_element(list: &mut Vec<u64>, place: u64, value: u64)
    ensures { list.new.items ≡ slice_set list.old.items place value }
{
    let at = place as usize;
    if at < list.len() {
        list[at] = value;
    }
}

// The place of a row of the port's bank among the elements of its memory.
fn place_of_row(table: &[MemEntry], port: Port, row: u64) -> u64
    requires placed { IsPlacedPort table.now port }
    requires row { row < port.rows }
    ensures { result ≡ position_of_row table.now port row }
{
    place_in_bank(
        table[port.memory as usize].shape.dims.as_slice(),
        port.bank,
        row,
    )
}

// The element in a row of the port's bank, 0 where that is no row of it.
fn row_at(table: &[MemEntry], port: Port, memories: &[Vec<u64>], row: u64) -> u64
    requires placed { IsPlacedPort table.now port }
    requires memories { length memories.now ≡ length table.now }
    ensures { result ≡ row_value table.now port (lists_of memories.now) row }
{
    if row < port.rows {
        element_at(
            memories,
            port.memory as usize,
            place_of_row(table, port, row),
        )
    } else {
        0
    }
}

// Writes a row of the port's bank, where it is one.
fn set_row(table: &[MemEntry], port: Port, memories: &mut [Vec<u64>], row: u64, value: u64)
    requires placed { IsPlacedPort table.now port }
    requires memories { length memories.old ≡ length table.now }
    ensures { lists_of memories.new ≡ with_row table.now port (lists_of memories.old) row value }
{
    if row < port.rows {
        let place = place_of_row(table, port, row);
        set_element(&mut memories[port.memory as usize], place, value);
    }
}

// What a port holds after a clock in which it serves this driver: the row as it was, where it reads.
fn held_datum(
    table: &[MemEntry],
    port: Port,
    driver: Option<Driver>,
    wires: &[u64],
    memories: &[Vec<u64>],
    had: u64,
) -> u64
    requires placed { IsPlacedPort table.now port }
    requires driver { IsServedInRooms (length wires.now) driver }
    requires memories { length memories.now ≡ length table.now }
    ensures { result ≡ held_by table.now wires.now port driver (lists_of memories.now) had }
{
    match driver {
        Some(d) if !d.write => row_at(table, port, memories, wires[d.row as usize]),
        _ => had,
    }
}

// Writes what this driver of the port writes.
fn write_row(
    table: &[MemEntry],
    port: Port,
    driver: Option<Driver>,
    wires: &[u64],
    memories: &mut [Vec<u64>],
)
    requires placed { IsPlacedPort table.now port }
    requires driver { IsServedInRooms (length wires.now) driver }
    requires memories { length memories.old ≡ length table.now }
    ensures { lists_of memories.new
        ≡ written_by table.now wires.now port driver (lists_of memories.old) }
{
    if let Some(d) = driver {
        if d.write {
            set_row(
                table,
                port,
                memories,
                wires[d.row as usize],
                wires[d.data_ as usize],
            );
        }
    }
}

/// Takes into the held data what ports read.
pub fn read_ports(net: &Net, ports: &[Port], wires: &[u64], memories: &[Vec<u64>], held: &mut [u64])
    requires valid { IsValid net.now }
    requires ports { ports.now ≡ ports_of net.now.table }
    requires wires { length wires.now ≡ length net.now.cells }
    requires memories { length memories.now ≡ length net.now.table }
    requires held { length held.old ≡ length net.now.drivers }
    ensures { ReadsPorts net.now ports.now wires.now memories.now held.old held.new }
{
    let table = net.table.as_slice();
    for (i, drivers) in net.drivers.as_slice().iter().enumerate() {
        let driver = first_active(drivers.as_slice(), wires);
        let datum = held_datum(table, ports[i], driver, wires, memories, held[i]);
        held[i] = datum;
    }
}

/// Writes what ports write, in order.
pub fn write_ports(net: &Net, ports: &[Port], wires: &[u64], memories: &mut [Vec<u64>])
    requires valid { IsValid net.now }
    requires ports { ports.now ≡ ports_of net.now.table }
    requires wires { length wires.now ≡ length net.now.cells }
    requires memories { length memories.old ≡ length net.now.table }
    ensures { WritesPorts net.now ports.now wires.now memories.old memories.new }
{
    let table = net.table.as_slice();
    for (i, drivers) in net.drivers.as_slice().iter().enumerate() {
        let driver = first_active(drivers.as_slice(), wires);
        write_row(table, ports[i], driver, wires, memories);
    }
}

/// Loads each register with its next wire.
pub fn load_registers(net: &Net, wires: &[u64], registers: &mut [u64])
    requires valid { IsValid net.now }
    requires wires { length wires.now ≡ length net.now.cells }
    requires registers { length registers.old ≡ length net.now.registers }
    ensures { registers.new ≡ map (λ r. slice_index wires.now r.next) net.now.registers }
{
    for (i, register) in net.registers.as_slice().iter().enumerate() {
        registers[i] = wires[register.next as usize];
    }
}
