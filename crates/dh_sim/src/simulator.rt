//! The simulator: a net with its registers, held data, memories and wires in flat arrays.

ghost use Rattle.std.specs.Prelude.{◌≡◌, IfOk};
ghost use Rattle.dh_tree.specs.Tables.{Fits};
ghost use Rattle.dh_net.specs.Valid.{IsValid};
ghost use Rattle.dh_net.specs.Clock.{Clocks};
ghost use Rattle.dh_sim.specs.Points.{Clashes, started};
ghost use Rattle.dh_sim.specs.Shows.{ShowsAt};

use crate::arrays::{
    Shown, clock_arrays, copied, initial_registers, settled_wires, shown_by, zeros,
};
use crate::layouts::Layout;
use dh_base::NoMemory;
use dh_net::Net;
use dh_tree::Memories;
use std::alloc::Global;
use std::marker::Model;

/// A net in a state. A contract sees the net, the state, and whether the last clock had a clash.
#[derive(Drop)]
pub struct Sim<'a> {
    net: &'a Net,
    layout: Layout,
    registers: Vec<u64>,
    // the held data of each port
    held: Vec<u64>,
    memories: Vec<Vec<u64>>,
    // the wires of the present state
    wires: Vec<u64>,
    clash: bool,
}

impl<'a> Model for Sim<'a> {
    ghost use Rattle.dh_sim.specs.Points.{Point, IsSoundSim, state_of_arrays};

    ghost Value = { Point };

    ghost view = { λ s. record {
      net = s.net.now;
      state = state_of_arrays s.registers.items s.held.items s.memories.items;
      clash = s.clash;
    } };

    ghost invariant = { λ s. IsSoundSim s.net.now s.layout s.registers.items s.held.items
        s.memories.items s.wires.items };
}

impl<'a> Sim<'a> {
    /// The net before its first clock, with these memories. Makes all room that the simulator needs.
    ///
    /// # Errors
    ///
    /// `NoMemory` where an allocation was refused.
    pub fn new(alloc: Global, net: &'a Net, memories: Memories) -> Result<Sim<'a>, NoMemory>
        requires valid { IsValid net.now }
        requires fits { Fits net.now.table memories }
        ensures { IfOk result (λ s. s ≡ started net.now memories) }
    {
        let layout = Layout::new(alloc, net.table.as_slice())?;
        let registers = initial_registers(alloc, net)?;
        let held = zeros(alloc, net.drivers.len())?;
        let wires = settled_wires(alloc, net, &layout, &registers, &held)?;
        let memories = memories.into_lists();
        Ok(Sim {
            net,
            layout,
            registers,
            held,
            memories,
            wires,
            clash: false,
        })
    }

    /// Clocks the net once, and tells what it shows then. Takes no memory.
    pub fn clock(&mut self) -> Shown
        ensures net { self.new.net ≡ self.old.net }
        ensures clocked { Clocks self.old.net self.old.state self.new.state }
        ensures clash { Clashes self.old self.new.clash }
        ensures shown { ShowsAt result self.new }
    {
        self.clash = clock_arrays(
            self.net,
            &self.layout,
            &mut self.registers,
            &mut self.held,
            &mut self.memories,
            &mut self.wires,
        );
        self.shown()
    }

    /// What the net shows in the present state.
    pub fn shown(&self) -> Shown
        ensures { ShowsAt result self.now }
    {
        shown_by(self.net, &self.wires, self.clash)
    }

    /// A copy of the memories in the present state.
    ///
    /// # Errors
    ///
    /// `NoMemory` where an allocation was refused.
    pub fn memories(&self, alloc: Global) -> Result<Memories, NoMemory>
        ensures { IfOk result (λ m. m ≡ self.now.state.memories) }
    {
        Ok(Memories::new(copied(alloc, &self.memories)?))
    }

    /// The memories in the present state. Takes no memory.
    pub fn into_memories(self) -> Memories
        ensures contents { result ≡ self.entry.state.memories }
        ensures fits { Fits self.entry.net.table result }
    {
        Memories::new(self.memories)
    }
}
