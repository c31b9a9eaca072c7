//! A net whose ports have few drivers.

ghost use Rattle.std.specs.Prelude.{◌≡◌, IfOk, length};
ghost use Rattle.std.specs.List.{AllByRecursion};
ghost use Rattle.dh_extents.specs.Extents.{IsSmallMemory};
ghost use Rattle.dh_net.specs.BankPorts.{ports_of};
ghost use Rattle.dh_net.specs.Valid.{IsValid};
ghost use Rattle.dh_join.specs.JoinedNets.{IsJoined};
ghost use Rattle.dh_join.specs.JoinedPorts.{DriveAllPorts, PortsJoined};

use crate::ports::join_ports;
use dh_base::{Items, NoMemory};
use dh_net::{Cell, Driver, Net, list_ports};
use dh_tree::MemEntry;
use std::alloc::Global;

/// These drivers of a table's ports, joined by cells that are added behind the given ones.
fn drive_ports(
    alloc: Global,
    cells: &mut Items<Cell>,
    table: &[MemEntry],
    lists: &[Items<Driver>],
) -> Result<Items<Items<Driver>>, NoMemory>
    requires small { AllByRecursion IsSmallMemory table.now }
    requires long { length lists.now ≡ length (ports_of table.now) }
    requires drive { DriveAllPorts cells.old (ports_of table.now) lists.now }
    ensures { IfOk result (λ joined. PortsJoined cells.old cells.new (ports_of table.now)
        lists.now joined) }
{
    let ports = list_ports(alloc, table)?;
    let listed = ports.as_slice();
    join_ports(alloc, cells, listed, lists)
}

/// A net that does what the given one does, whose ports have few drivers: the drivers of a port that has more than
/// four are joined to one that reads and one that writes. New cells, balanced trees, choose the first active one. As
/// long as no port of the given net has clashed, both nets show the same and keep the same, and what is new clashes or
/// strays only where the given net does. Time is linear in the drivers: the cells stay where they are.
///
/// # Errors
///
/// `NoMemory` where an allocation was refused.
pub fn join_drivers(alloc: Global, net: Net) -> Result<Net, NoMemory>
    requires { IsValid net }
    ensures { IfOk result (IsJoined net) }
{
    let Net {
        table,
        faults,
        registers,
        mut cells,
        drivers: lists,
        tick,
        done,
        fault,
    } = net;
    let drivers = drive_ports(alloc, &mut cells, table.as_slice(), lists.as_slice())?;
    Ok(Net {
        table,
        faults,
        registers,
        cells,
        drivers,
        tick,
        done,
        fault,
    })
}
