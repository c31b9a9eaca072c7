//! The nodes of a program whole: its registers, its operations and nodes, and the blocks cut out of them.

ghost use Rattle.std.specs.Prelude.{IfOk, length};
ghost use Rattle.dh_tree.specs.Seen.{action_seen};
ghost use Rattle.dh_gathering.specs.ProgramMade.{MakingBegins, MakesPhased};

use crate::blocks::Made;
use crate::cutting::cut;
use crate::nodes::nodes_in;
use crate::registers::registers_of;
use dh_base::{FaultKind, Items, NoMemory, Place};
use dh_commands::{Building, no_values};
use dh_expressions::{Draft, Scene, outside, untouched};
use dh_plan::{Node, PlanBlock};
use dh_tree::{Command, Kind};

/// The phases of a program as a plan has them.
#[derive(Drop)]
pub struct Phased {
    /// The phases in order.
    pub nodes: Vec<Node>,
    /// The blocks.
    pub blocks: Items<PlanBlock>,
    /// The kinds of the registers: those of variables, and behind them the flags of tests.
    pub registers: Items<Kind>,
    /// What operations with a fault name.
    pub faults: Items<(FaultKind, Place)>,
}

/// Mostly an access comes with so many operations, so that the list of all operations is not moved while it grows; room
/// that is not used is never touched.
const OPERATIONS_FOR_AN_ACCESS: usize = 4;

/// Nothing is made yet of a program with these registers.
fn nothing_made(scene: &Scene<'_>, registers: Items<Kind>) -> Result<Made, NoMemory>
    ensures { IfOk result (λ made. MakingBegins registers (length scene.now.shares.now) made) }
{
    let accesses = untouched(scene)?;
    let values = no_values(scene.alloc, registers.len())?;
    let room = scene.shares.len().saturating_mul(OPERATIONS_FOR_AN_ACCESS);
    let operations = Vec::with_capacity(scene.alloc, room)?;
    let draft = Draft {
        operations,
        faults: Items::new(scene.alloc),
    };
    Ok(Made {
        building: Building {
            draft,
            accesses,
            values,
        },
        starts: Vec::new(scene.alloc),
        registers,
    })
}

/// The phases of a program's body as nodes and blocks, with so many registers for its variables.
///
/// # Errors
///
/// `NoMemory` where an allocation was refused.
pub fn phases_made(scene: &Scene<'_>, count: u32, body: &Command) -> Result<Phased, NoMemory>
    ensures { IfOk result (λ p. MakesPhased scene.now count (action_seen body.now) p) }
{
    let variables = registers_of(scene.alloc, scene.program, scene.held, count)?;
    let mut made = nothing_made(scene, variables)?;
    let paths = outside(scene.alloc);
    let nodes = nodes_in(scene, &mut made, &paths, body)?;
    let Made {
        building,
        starts,
        registers,
    } = made;
    let Draft { operations, faults } = building.draft;
    let blocks = cut(scene.alloc, operations, starts.as_slice())?;
    Ok(Phased {
        nodes,
        blocks,
        registers,
        faults,
    })
}
