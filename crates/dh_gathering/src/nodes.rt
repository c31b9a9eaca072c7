//! Nodes from phases, from the front to the back and from the outside in: a straight phase and a
//! test become blocks before what stands behind them, and inside them, is made.

ghost use Rattle.std.specs.Prelude.{IfOk};
ghost use Rattle.dh_tree.specs.Seen.{action_seen};
ghost use Rattle.dh_plan.specs.SeenPlans.{node_seen, nodes_seen};
ghost use Rattle.dh_plan.specs.SoundPlans.{blocks_of, node_blocks};
ghost use Rattle.dh_phases.specs.GatheredPhases.{all_gathered, phase_seen, phases_seen};
ghost use Rattle.dh_gathering.specs.Gathered.{MakesBody, MakesNodeIn, MakesNodesIn};
ghost use Rattle.dh_gathering.specs.NamedOnce.{NamesOnce};

use crate::blocks::{Made, straight_block, test_block};
use dh_base::NoMemory;
use dh_code::{entity_of, place_of};
use dh_expressions::{Paths, Scene, inside};
use dh_phases::{Phase, gather};
use dh_plan::Node;
use dh_tree::Command;

/// The node of a phase at these paths, with the blocks that it names.
#[cycle(nodes)]
fn node_of(
    scene: &Scene<'_>,
    made: &mut Made,
    paths: &Paths,
    phase: &Phase<'_>,
) -> Result<Node, NoMemory>
    ensures made { IfOk result (λ node. MakesNodeIn scene.now paths.now made.old made.new
        (phase_seen phase.now) (node_seen node)) }
    ensures once { IfOk result (λ node. NamesOnce made.old made.new (node_blocks (node_seen
        node))) }
{
    match phase {
        Phase::Straight { commands } => {
            let block = straight_block(scene, made, paths, commands.as_slice())?;
            Ok(Node::Step { block })
        }
        Phase::Turns {
            header,
            count,
            body,
            ..
        } => {
            let entity = entity_of(&header.iterator);
            let within = inside(scene.alloc, paths, Some(entity), header.factor)?;
            let counter = u64::from(place_of(scene.held, &header.iterator).first);
            let body = nodes_of(scene, made, &within, body.as_slice())?;
            Ok(Node::Turns {
                counter,
                count: *count,
                body,
            })
        }
        Phase::Loop {
            command,
            test,
            body,
        } => {
            let tested = test_block(scene, made, paths, command.first, test)?;
            let body = nodes_of(scene, made, paths, body.as_slice())?;
            Ok(Node::Loop {
                test: tested.block,
                flag: tested.flag,
                body,
            })
        }
        Phase::Choice {
            command,
            test,
            then,
            other,
        } => {
            let tested = test_block(scene, made, paths, command.first, test)?;
            let then = nodes_of(scene, made, paths, then.as_slice())?;
            let other = nodes_of(scene, made, paths, other.as_slice())?;
            Ok(Node::Choice {
                test: tested.block,
                flag: tested.flag,
                then,
                other,
            })
        }
    }
}

/// The nodes of phases, in order.
#[cycle(nodes)]
fn nodes_of(
    scene: &Scene<'_>,
    made: &mut Made,
    paths: &Paths,
    phases: &[Phase<'_>],
) -> Result<Vec<Node>, NoMemory>
    ensures made { IfOk result (λ nodes. MakesNodesIn scene.now paths.now made.old made.new
        (all_gathered (phases_seen phases.now)) (nodes_seen nodes.items)) }
    ensures once { IfOk result (λ nodes. NamesOnce made.old made.new (blocks_of (nodes_seen
        nodes.items))) }
{
    let mut nodes = Vec::new(scene.alloc);
    for phase in phases {
        nodes.push(node_of(scene, made, paths, phase)?)?;
    }
    Ok(nodes)
}

/// The nodes of a program's body, at the one path outside all loops. Takes what is made of a program
/// so far, and adds the blocks and flags of the nodes to it.
///
/// # Errors
///
/// `NoMemory` where an allocation was refused.
pub fn nodes_in(
    scene: &Scene<'_>,
    made: &mut Made,
    paths: &Paths,
    body: &Command,
) -> Result<Vec<Node>, NoMemory>
    ensures made { IfOk result (λ nodes. MakesBody scene.now paths.now made.old made.new
        (action_seen body.now) (nodes_seen nodes.items)) }
    ensures once { IfOk result (λ nodes. NamesOnce made.old made.new (blocks_of (nodes_seen
        nodes.items))) }
{
    let phases = gather(scene.alloc, body)?;
    nodes_of(scene, made, paths, phases.as_slice())
}
