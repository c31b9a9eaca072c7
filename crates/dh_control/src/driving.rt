//! Drivers of ports: an operation drives, of each bank that it lists, the port that it uses.

ghost use Rattle.std.specs.Prelude.{◌≡◌, ◌<◌, ◌^◌, length, IfOk, OnOk};
ghost use Rattle.std.specs.List.{AllByRecursion};
ghost use Rattle.dh_value.specs.Words.{IsWidth};
ghost use Rattle.dh_plan.specs.BoundPorts.{port_among};
ghost use Rattle.dh_cells.specs.Settled.{AreWires, IsWire};
ghost use Rattle.dh_lower.specs.ShownWords.{port_or_first};
ghost use Rattle.dh_control.specs.BlockUses.{BlockDriven, times_at};
ghost use Rattle.dh_control.specs.DriverWires.{BanksDriven, MayHaveValue, PickMade, RowMade, port_key};
ghost use Rattle.dh_control.specs.UseWires.{AllUsesSuit, ReachAsked, ReachSuits, TimesThere, UseDriven, UseSuits};

use crate::gathering::Keyed;
use crate::setting::push_guard;
use crate::testing::push_number_test;
use dh_base::{Items, NoMemory};
use dh_cells::{Circuit, push_both, push_converted};
use dh_net::Driver;
use dh_plan::{Operation, OperationForm, Reach};
use dh_value::{Kind, width};

/// What an operation asks of a port, by wires.
#[derive(Clone, Copy)]
pub struct Asking {
    /// Whether it asks, of whichever bank it picks.
    pub test: u64,
    /// Whether it writes.
    pub write: bool,
    /// The number of the row.
    pub row: u64,
    /// What it writes; 0 of a read.
    pub value: u64,
}

/// Adds a wire for the number of a row, of so many bits; 0 where no row is named.
pub fn push_row(
    circuit: &mut Circuit,
    bits: u8,
    kinds: &[Kind],
    wires: &[u64],
    row: Option<u64>,
) -> Result<u64, NoMemory>
    requires bits { IsWidth bits }
    requires row { MayHaveValue circuit.old kinds.now wires.now row }
    ensures { IfOk result
        (λ wire. RowMade circuit.old circuit.new bits kinds.now wires.now row wire) }
{
    match row {
        None => circuit.push_constant(bits, 0),
        Some(value) => {
            let at = value as usize;
            push_converted(circuit, kinds[at], Kind::Unsigned(bits), wires[at])
        }
    }
}

/// Adds a wire that is 1 where another is and a bank is picked.
pub fn push_pick(
    circuit: &mut Circuit,
    kinds: &[Kind],
    wires: &[u64],
    test: u64,
    select: Option<u64>,
    bank: u32,
) -> Result<u64, NoMemory>
    requires test { IsWire circuit.old test 1 }
    requires select { MayHaveValue circuit.old kinds.now wires.now select }
    ensures { IfOk result
        (λ wire. PickMade circuit.old circuit.new kinds.now wires.now test select bank wire) }
{
    match select {
        None => Ok(test),
        Some(value) => {
            let at = value as usize;
            let picked = push_number_test(circuit, width(kinds[at]), wires[at], bank as u64)?;
            push_both(circuit, test, picked)
        }
    }
}

/// The port of a bank among the bank and port pairs of an operation, 0 where there is none.
fn port_of_bank(pairs: &[(u32, u32)], bank: u32) -> u32
    ensures { result ≡ port_or_first (port_among bank pairs.now) }
{
    for pair in pairs {
        if pair.0 == bank {
            return pair.1;
        }
    }
    0
}

/// Adds a driver for each bank, under the number of its port among those of all memories: `first` is the number of the
/// memory's first one, and each bank has `ports`.
pub fn push_drivers(
    circuit: &mut Circuit,
    kinds: &[Kind],
    wires: &[u64],
    asking: Asking,
    select: Option<u64>,
    first: u64,
    ports: u64,
    pairs: &[(u32, u32)],
    banks: &[(u32, u32)],
    drivers: &mut Items<Keyed<Driver>>,
) -> Result<(), NoMemory>
    requires test { IsWire circuit.old asking.test 1 }
    requires select { MayHaveValue circuit.old kinds.now wires.now select }
    requires small { AllByRecursion (λ b. port_key first ports pairs.now b.0 < 2 ^ 64) banks.now }
    ensures { OnOk result (BanksDriven circuit.old circuit.new kinds.now wires.now asking select
        first ports pairs.now banks.now drivers.old drivers.new) }
{
    for i in 0..banks.len() {
        let bank = banks[i].0;
        let enable = push_pick(circuit, kinds, wires, asking.test, select, bank)?;
        let port = port_of_bank(pairs, bank);
        let key = first + (u64::from(bank) * ports + u64::from(port));
        let item = Driver {
            enable,
            write: asking.write,
            row: asking.row,
            data_: asking.value,
        };
        drivers.push(Keyed { key, item })?;
    }
    Ok(())
}

/// Where the ports of a memory stand among those of all memories.
#[derive(Clone, Copy)]
pub struct MemoryPorts {
    /// The number of its first one.
    pub first: u64,
    /// How many each of its banks has.
    pub count: u64,
    /// Bits of the numbers of its rows.
    pub bits: u8,
}

/// When an operation asks, by wires of one bit.
#[derive(Clone, Copy)]
pub struct Times {
    /// Its block is active.
    pub active: u64,
    /// Its clock has come.
    pub own: u64,
    /// The writes of its block are made.
    pub commit: u64,
}

/// Adds the drivers of a reach, which is asked for where a wire shows 1.
fn push_reach(
    circuit: &mut Circuit,
    kinds: &[Kind],
    wires: &[u64],
    reach: &Reach,
    test: u64,
    write: bool,
    value: u64,
    memory: MemoryPorts,
    pairs: &[(u32, u32)],
    drivers: &mut Items<Keyed<Driver>>,
) -> Result<(), NoMemory>
    requires test { IsWire circuit.old test 1 }
    requires suits { ReachSuits circuit.old kinds.now wires.now memory pairs.now reach.now }
    ensures { OnOk result (ReachAsked circuit.old circuit.new kinds.now wires.now test write value
        reach.now memory pairs.now drivers.old drivers.new) }
{
    let row = push_row(circuit, memory.bits, kinds, wires, reach.row)?;
    let asking = Asking {
        test,
        write,
        row,
        value,
    };
    push_drivers(
        circuit,
        kinds,
        wires,
        asking,
        reach.select,
        memory.first,
        memory.count,
        pairs,
        reach.banks.as_slice(),
        drivers,
    )?;
    Ok(())
}

/// Adds the drivers of what an operation reads or writes.
pub fn push_use(
    circuit: &mut Circuit,
    kinds: &[Kind],
    wires: &[u64],
    times: Times,
    operation: &Operation,
    memories: &[MemoryPorts],
    pairs: &[(u32, u32)],
    drivers: &mut Items<Keyed<Driver>>,
) -> Result<(), NoMemory>
    requires times { TimesThere circuit.old times }
    requires suits { UseSuits circuit.old kinds.now wires.now memories.now pairs.now operation.now }
    ensures { OnOk result (UseDriven circuit.old circuit.new kinds.now wires.now times operation.now
        memories.now pairs.now drivers.old drivers.new) }
{
    match &operation.form {
        OperationForm::Read { access } => {
            let now = push_both(circuit, times.active, times.own)?;
            let test = push_guard(circuit, now, wires, operation.guard)?;
            let access = access.content();
            let memory = memories[access.memory as usize];
            push_reach(
                circuit, kinds, wires, access, test, false, 0, memory, pairs, drivers,
            )?;
            Ok(())
        }
        OperationForm::Write { access, value } => {
            let test = push_guard(circuit, times.commit, wires, operation.guard)?;
            let access = access.content();
            let memory = memories[access.memory as usize];
            let data = wires[*value as usize];
            push_reach(
                circuit, kinds, wires, access, test, true, data, memory, pairs, drivers,
            )?;
            Ok(())
        }
        OperationForm::Constant { .. } => Ok(()),
        OperationForm::Old { .. } => Ok(()),
        OperationForm::Compute { .. } => Ok(()),
        OperationForm::Convert { .. } => Ok(()),
        OperationForm::Select { .. } => Ok(()),
        OperationForm::Check { .. } => Ok(()),
        OperationForm::Probe { .. } => Ok(()),
        OperationForm::Set { .. } => Ok(()),
    }
}

/// Adds the drivers of what the operations of a block read or write. `at` has a wire for each clock of a step, and
/// `clocks` and `pairs` are those of the operations.
pub fn push_block_uses(
    circuit: &mut Circuit,
    kinds: &[Kind],
    wires: &[u64],
    active: u64,
    commit: u64,
    at: &[u64],
    clocks: &[u64],
    operations: &[Operation],
    memories: &[MemoryPorts],
    pairs: &[Items<(u32, u32)>],
    drivers: &mut Items<Keyed<Driver>>,
) -> Result<(), NoMemory>
    requires active { IsWire circuit.old active 1 }
    requires commit { IsWire circuit.old commit 1 }
    requires at { AreWires circuit.old at.now 1 }
    requires clocks { length clocks.now ≡ length operations.now }
    requires early { AllByRecursion (λ c. c < length at.now) clocks.now }
    requires pairs { length pairs.now ≡ length operations.now }
    requires suits { AllUsesSuit circuit.old kinds.now wires.now memories.now pairs.now
        operations.now }
    ensures { OnOk result (BlockDriven circuit.old circuit.new kinds.now wires.now
        (times_at active commit at.now clocks.now) memories.now pairs.now operations.now
        drivers.old drivers.new) }
{
    for i in 0..operations.len() {
        let own = at[clocks[i] as usize];
        let times = Times {
            active,
            own,
            commit,
        };
        let list = pairs[i].as_slice();
        push_use(
            circuit,
            kinds,
            wires,
            times,
            &operations[i],
            memories,
            list,
            drivers,
        )?;
    }
    Ok(())
}
