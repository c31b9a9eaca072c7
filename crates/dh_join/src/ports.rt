//! The drivers of ports, joined in balanced trees of choices.

ghost use Rattle.std.specs.Prelude.{◌≡◌, ◌++◌, IfOk, OnOk, Some, length};
ghost use Rattle.dh_net.specs.Parts.{DrivePort};
ghost use Rattle.dh_net.specs.Valid.{IsDriver};
ghost use Rattle.dh_join.specs.JoinedDrivers.{DataAdded, IsDriverOfKind, JoinsFound, JoinsTwo, StandsForDrivers, drivers_in, is_kind as kind_told, driver_of_kind};
ghost use Rattle.dh_join.specs.JoinedPorts.{BothJoined, DriveAllPorts, PortJoined, PortsJoined};

use crate::choices::{push_choice, push_either};
use dh_base::{Items, NoMemory};
use dh_net::{Cell, Driver, Port};
use std::alloc::Global;

/// The most drivers of a port that are left as they are.
const MOST_KEPT: usize = 4;

/// A driver that does what two do, the first of them where both are active. Both read, or both write.
fn join_two(
    cells: &mut Items<Cell>,
    port: Port,
    first: Driver,
    second: Driver,
) -> Result<Driver, NoMemory>
    requires first { IsDriver cells.old port first }
    requires second { IsDriver cells.old port second }
    requires kind { second.write ≡ first.write }
    ensures { IfOk result (λ joined. JoinsTwo cells.old cells.new port first second joined) }
{
    let enable = push_either(cells, first.enable, second.enable)?;
    let row = push_choice(cells, port.row_width, first.enable, first.row, second.row)?;
    let data_ = join_data(cells, port, first, second)?;
    Ok(Driver {
        enable,
        write: first.write,
        row,
        data_,
    })
}

/// The data of such a driver, 0 where it reads.
fn join_data(
    cells: &mut Items<Cell>,
    port: Port,
    first: Driver,
    second: Driver,
) -> Result<u64, NoMemory>
    requires first { IsDriver cells.old port first }
    requires second { IsDriver cells.old port second }
    requires kind { second.write ≡ first.write }
    ensures { IfOk result (λ wire. DataAdded cells.old cells.new port first second wire) }
{
    if first.write {
        push_choice(cells, port.width, first.enable, first.data_, second.data_)
    } else {
        Ok(0)
    }
}

/// What stands for the drivers of two parts of a list, where the first has one that does.
fn join_former(
    cells: &mut Items<Cell>,
    port: Port,
    write: bool,
    former: Driver,
    second: Option<Driver>,
) -> Result<Option<Driver>, NoMemory>
    requires former { IsDriverOfKind cells.old port write (Some former) }
    requires second { IsDriverOfKind cells.old port write second }
    ensures { IfOk result (λ joined. JoinsFound cells.old cells.new port write
        (Some former) second joined) }
{
    match second {
        None => Ok(Some(former)),
        Some(latter) => {
            let joined = join_two(cells, port, former, latter)?;
            Ok(Some(joined))
        }
    }
}

/// What stands for the drivers of two parts of a list, by what stands for those of each.
fn join_found(
    cells: &mut Items<Cell>,
    port: Port,
    write: bool,
    first: Option<Driver>,
    second: Option<Driver>,
) -> Result<Option<Driver>, NoMemory>
    requires first { IsDriverOfKind cells.old port write first }
    requires second { IsDriverOfKind cells.old port write second }
    ensures { IfOk result (λ joined. JoinsFound cells.old cells.new port write
        first second joined) }
{
    match first {
        None => Ok(second),
        Some(former) => join_former(cells, port, write, former, second),
    }
}

/// Whether the driver writes, or reads.
fn is_kind(write: bool, driver: Driver) -> bool
    ensures { result ≡ kind_told write driver }
{
    if write { driver.write } else { !driver.write }
}

/// The driver, where it is of this kind.
fn pick(write: bool, driver: Driver) -> Option<Driver>
    ensures { result ≡ driver_of_kind write driver }
{
    if is_kind(write, driver) {
        Some(driver)
    } else {
        None
    }
}

/// A driver that stands for those of these that write, or for those that read: it does what the first active one of
/// them does. None stands for none. Its tree is as deep as the number of drivers has bits.
fn join_kind(
    cells: &mut Items<Cell>,
    port: Port,
    write: bool,
    drivers: &[Driver],
) -> Result<Option<Driver>, NoMemory>
    requires { DrivePort cells.old port drivers.now }
    ensures { IfOk result (λ joined. StandsForDrivers cells.old cells.new port write drivers.now joined) }
{
    match drivers {
        [] => Ok(None),
        [driver] => Ok(pick(write, *driver)),
        _ => {
            let (front, back) = drivers.split_at(drivers.len() / 2);
            let first = join_kind(cells, port, write, front)?;
            let second = join_kind(cells, port, write, back)?;
            join_found(cells, port, write, first, second)
        }
    }
}

/// Adds the driver that was found, if one was.
fn push_found(drivers: &mut Items<Driver>, found: Option<Driver>) -> Result<(), NoMemory>
    ensures { OnOk result (drivers.new ≡ drivers.old ++ drivers_in found) }
{
    match found {
        None => Ok(()),
        Some(driver) => {
            drivers.push(driver)?;
            Ok(())
        }
    }
}

/// The drivers that were found of two.
fn list_found(
    alloc: Global,
    read: Option<Driver>,
    write: Option<Driver>,
) -> Result<Items<Driver>, NoMemory>
    ensures { IfOk result (λ drivers. drivers ≡ drivers_in read ++ drivers_in write) }
{
    let mut drivers = Items::new(alloc);
    push_found(&mut drivers, read)?;
    push_found(&mut drivers, write)?;
    Ok(drivers)
}

/// One driver that reads and one that writes, in place of the drivers of a port.
fn join_both(
    alloc: Global,
    cells: &mut Items<Cell>,
    port: Port,
    drivers: &[Driver],
) -> Result<Items<Driver>, NoMemory>
    requires { DrivePort cells.old port drivers.now }
    ensures { IfOk result (λ joined. BothJoined cells.old cells.new port drivers.now joined) }
{
    let read = join_kind(cells, port, false, drivers)?;
    let write = join_kind(cells, port, true, drivers)?;
    list_found(alloc, read, write)
}

/// The same drivers.
fn copied(alloc: Global, drivers: &[Driver]) -> Result<Items<Driver>, NoMemory>
    ensures { IfOk result (λ kept. kept ≡ drivers.now) }
{
    let kept = Vec::from_slice(alloc, drivers)?;
    Ok(Items::from_vec(kept))
}

/// The drivers of a port where they are few, else one that reads and one that writes in their place.
fn join_port(
    alloc: Global,
    cells: &mut Items<Cell>,
    port: Port,
    drivers: &[Driver],
) -> Result<Items<Driver>, NoMemory>
    requires { DrivePort cells.old port drivers.now }
    ensures { IfOk result (λ joined. PortJoined cells.old cells.new port drivers.now joined) }
{
    let count = drivers.len();
    if count <= MOST_KEPT {
        copied(alloc, drivers)
    } else {
        join_both(alloc, cells, port, drivers)
    }
}

/// The same of all ports.
pub fn join_ports(
    alloc: Global,
    cells: &mut Items<Cell>,
    ports: &[Port],
    lists: &[Items<Driver>],
) -> Result<Items<Items<Driver>>, NoMemory>
    requires long { length lists.now ≡ length ports.now }
    requires drive { DriveAllPorts cells.old ports.now lists.now }
    ensures { IfOk result (λ joined. PortsJoined cells.old cells.new ports.now lists.now joined) }
{
    let mut joined = Items::new(alloc);
    for (i, port) in ports.iter().enumerate() {
        let drivers = join_port(alloc, cells, *port, lists[i].as_slice())?;
        joined.push(drivers)?;
    }
    Ok(joined)
}
