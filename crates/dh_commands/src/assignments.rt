//! What variables were given in a step, with a log, so that what an arm assigned can be taken back.

ghost use Rattle.std.specs.Prelude.{IfOk, OnOk};
ghost use Rattle.dh_commands.specs.Undone.{Assigns, NoneGiven};

use dh_base::NoMemory;
use std::alloc::Global;

/// A variable that was assigned.
#[derive(Clone, Copy)]
pub struct Change {
    /// Its register.
    pub register: u64,
    /// The number of the path at which it was assigned.
    pub path: u64,
    /// Its value before; None where it had none in this step.
    pub before: Option<u64>,
}

/// What variables were given in this step.
#[derive(Drop)]
pub struct Values {
    /// By its register the value that a variable was given; None where it has that of the register.
    pub current: Vec<Option<u64>>,
    /// What was assigned, in order.
    pub log: Vec<Change>,
    // by a register the number, and 1, of its choice among those that are made now; 0 where it has none
    pub marks: Vec<usize>,
}

/// So many registers, none of which is given a value yet.
pub fn no_values(alloc: Global, registers: usize) -> Result<Values, NoMemory>
    ensures { IfOk result (λ v. NoneGiven v registers) }
{
    let mut current = Vec::new(alloc);
    let mut marks = Vec::new(alloc);
    for _ in 0..registers {
        current.push(None)?;
        marks.push(0)?;
    }
    Ok(Values {
        current,
        log: Vec::new(alloc),
        marks,
    })
}

/// Gives the variable of a register a value.
pub fn assign(values: &mut Values, register: u64, path: u64, value: u64) -> Result<(), NoMemory>
    ensures { OnOk result (Assigns values.old values.new register path value) }
{
    let at = register as usize;
    if at < values.current.len() {
        let before = values.current[at];
        values.log.push(Change {
            register,
            path,
            before,
        })?;
        values.current[at] = Some(value);
    }
    Ok(())
}
