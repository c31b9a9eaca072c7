//! Where memories are declared, what is assigned to, and what stands in copies; and, in the same walk, what
//! breaks the rules on shapes, and how many phases each command has.

ghost use Rattle.std.specs.Prelude.{◌≡◌, map, None, IfOk, OnErr, OnOk};
ghost use Rattle.dh_tree.specs.Indices.{index_breaches_of};
ghost use Rattle.dh_tree.specs.LeastBreach.{least_of};
ghost use Rattle.dh_tree.specs.Placements as placements;
ghost use Rattle.dh_tree.specs.Placements.{outer_write_breaches, decls_placement_breaches, placement_breaches};
ghost use Rattle.dh_tree.specs.Seen.{action_form_seen, action_seen, all_parts_seen, declared_seen, maybe_block_seen, program_seen};
ghost use Rattle.dh_tree.specs.Told.{MayTellLeast, TellsLeast};
ghost use Rattle.dh_tree.specs.ViewBreaches.{shapes_breaches_of};
ghost use Rattle.dh_events.specs.Stages.{AreStagesOf, form_stages, groups_stages, other_stages, stages_in};
ghost use Rattle.dh_events.specs.Tables.{ChangesKept};
ghost use Rattle.dh_views.specs.Walked as walked;
ghost use Rattle.dh_rules.specs.Walked.{FindsMisplaced, KeepsFirstOf, misplaced_in, misplaced_in_other, misplaced_in_parts, command_steps, other_steps, parts_steps};

use crate::contexts::{Context, branched, in_body, in_combine, nothing_round};
use crate::keeping::{is_from_outside, keep_if, names_iterator};
use crate::reducers::{keep_combine, keep_joined, keep_reducer};
use crate::steps::of_view;
use dh_base::{NoMemory, PassFault, Rule};
use dh_events::keep_at;
use dh_meaning::{kind_behind, kind_of_choice, kind_of_turns, turn_count};
use dh_tree::{Breach, Command, CommandForm, Decl, Entity, Kind, Ref, Shape, Typed};
use dh_views::{keep_decl_shapes, keep_own, keep_views};
use std::alloc::Global;

/// Whether a shape is that of no memory: its kind is `bool`, or it has no dimension.
fn is_no_memory(shape: &Shape) -> bool
    ensures { result ≡ placements.is_no_memory shape.now }
{
    match shape.kind {
        Kind::Bool => true,
        Kind::Unsigned(_) | Kind::Signed(_) => shape.dims.is_empty(),
    }
}

/// The breach of an assignment, in a body of several copies inside which this is the first number.
fn keep_assigned(entities: &[Entity], first: u32, kept: &mut Option<Breach>, target: &Ref)
    ensures { kept.new ≡ least_of kept.old (outer_write_breaches entities.now first target.now) }
{
    let is_broken = names_iterator(entities, target.entity)
        || is_from_outside(first, target.entity);
    keep_if(kept, is_broken, Rule::OuterWrite, target.place);
}

/// The entities of a program.
fn entities_of(typed: &Typed) -> &[Entity]
    ensures { result.now ≡ typed.now.entities.items }
{
    typed.tree().entities.as_slice()
}

/// The breaches in a command that has this round it, those of the rules on shapes by themselves; how many
/// phases it has: none, one straight phase, or others (2). Notes that of it and of each command inside it.
#[cycle(commands)]
fn keep_command(
    typed: &Typed,
    context: &Context,
    stages: &mut Option<Vec<usize>>,
    shapes: &mut Option<Breach>,
    places: &mut Option<Breach>,
    command: &Command,
) -> Result<usize, NoMemory>
    ensures noted { OnOk result (ChangesKept stages.old stages.new
        (stages_in (action_seen command.now))) }
    ensures wants { OnErr result (stages.old ≡ None → ⊥) }
    ensures shapes { OnOk result (shapes.new ≡ least_of shapes.old
        (walked.command_broken typed.now command.now)) }
    ensures places { KeepsFirstOf result places.old places.new
        (misplaced_in typed.now.entities.items context.now command.now) }
    ensures steps { IfOk result (λ steps. steps ≡ command_steps command.now) }
{
    let steps = keep_inside(typed, context, stages, shapes, places, command)?;
    keep_at(stages, command.id, steps)?;
    Ok(steps)
}

/// As much of a command, but for its own number of phases, which is not noted yet.
#[cycle(commands)]
#[tactic(auto, using(dh_tree::proofs::SeenActions::actions_are, dh_tree::proofs::Leasts::least_append))]
fn keep_inside(
    typed: &Typed,
    context: &Context,
    stages: &mut Option<Vec<usize>>,
    shapes: &mut Option<Breach>,
    places: &mut Option<Breach>,
    command: &Command,
) -> Result<usize, NoMemory>
    ensures noted { OnOk result (ChangesKept stages.old stages.new
        (form_stages (action_form_seen command.now.form))) }
    ensures wants { OnErr result (stages.old ≡ None → ⊥) }
    ensures shapes { OnOk result (shapes.new ≡ least_of shapes.old
        (walked.command_broken typed.now command.now)) }
    ensures places { KeepsFirstOf result places.old places.new
        (misplaced_in typed.now.entities.items context.now command.now) }
    ensures steps { IfOk result (λ steps. steps ≡ command_steps command.now) }
{
    keep_own(typed, shapes, command);
    match &command.form {
        CommandForm::LetMemory {
            name,
            shape,
            value,
            ..
        } => {
            let is_broken = context.within | is_no_memory(shape) | value.is_some();
            keep_if(places, is_broken, Rule::MemoryPlace, name.place);
            Ok(0)
        }
        CommandForm::Assign { target, .. } => {
            keep_assigned(entities_of(typed), context.first, places, target);
            Ok(1)
        }
        CommandForm::Reduce { target, value, .. } => {
            keep_reducer(entities_of(typed), context.joins, places, target, value);
            Ok(1)
        }
        CommandForm::Block { body } => {
            keep_groups(typed, context, stages, shapes, places, body.as_slice())
        }
        CommandForm::If { then, other, .. } => {
            let inner = branched(*context);
            let chosen = keep_command(typed, &inner, stages, shapes, places, then)?;
            let others = keep_other(typed, &inner, stages, shapes, places, other)?;
            let steps = kind_of_choice(chosen, others);
            // copies may take different arms, and then would not take the same steps
            keep_if(
                places,
                context.copied & (steps >= 2),
                Rule::DivergentSteps,
                command.place,
            );
            Ok(steps)
        }
        CommandForm::While { body, .. } => {
            let inside = branched(*context);
            keep_command(typed, &inside, stages, shapes, places, body)?;
            keep_if(places, context.copied, Rule::DivergentSteps, command.place);
            Ok(2)
        }
        CommandForm::For {
            header,
            body,
            combine,
        } => {
            let header = header.as_ref();
            let inner = in_body(*context, header.factor, header.iterator.entity);
            let turn = keep_command(typed, &inner, stages, shapes, places, body)?;
            let joining = in_combine(*context, header.iterator.entity);
            let folds = keep_other(typed, &joining, stages, shapes, places, combine)?;
            keep_combine(places, combine, header.combine_place);
            let turns = turn_count(header.low, header.high, header.factor);
            Ok(kind_of_turns(turns, turn, folds))
        }
        CommandForm::Let { .. } => Ok(1),
        CommandForm::Store { .. } => Ok(1),
        CommandForm::View { form, .. } => Ok(of_view(form)),
        CommandForm::Call { .. } => Ok(0),
    }
}

/// Those in an arm of a branch or a block that joins copies, where there is one.
#[cycle(commands)]
fn keep_other(
    typed: &Typed,
    context: &Context,
    stages: &mut Option<Vec<usize>>,
    shapes: &mut Option<Breach>,
    places: &mut Option<Breach>,
    other: &Option<Box<Command>>,
) -> Result<usize, NoMemory>
    ensures noted { OnOk result (ChangesKept stages.old stages.new
        (other_stages (maybe_block_seen other.now))) }
    ensures wants { OnErr result (stages.old ≡ None → ⊥) }
    ensures shapes { OnOk result (shapes.new ≡ least_of shapes.old
        (walked.other_broken typed.now other.now)) }
    ensures places { KeepsFirstOf result places.old places.new
        (misplaced_in_other typed.now.entities.items context.now other.now) }
    ensures steps { IfOk result (λ steps. steps ≡ other_steps other.now) }
{
    match other {
        Some(block) => keep_command(typed, context, stages, shapes, places, block),
        None => Ok(0),
    }
}

/// Those in the parts between `---`.
#[cycle(commands)]
#[tactic(auto, using(dh_tree::proofs::SeenActions::actions_are, dh_tree::proofs::Leasts::least_append))]
fn keep_groups(
    typed: &Typed,
    context: &Context,
    stages: &mut Option<Vec<usize>>,
    shapes: &mut Option<Breach>,
    places: &mut Option<Breach>,
    parts: &[Vec<Command>],
) -> Result<usize, NoMemory>
    ensures noted { OnOk result (ChangesKept stages.old stages.new
        (groups_stages (all_parts_seen parts.now))) }
    ensures wants { OnErr result (stages.old ≡ None → ⊥) }
    ensures shapes { OnOk result (shapes.new ≡ least_of shapes.old
        (walked.parts_broken typed.now parts.now)) }
    ensures places { KeepsFirstOf result places.old places.new
        (misplaced_in_parts typed.now.entities.items context.now parts.now) }
    ensures steps { IfOk result (λ steps. steps ≡ parts_steps parts.now) }
{
    let mut all: usize = 0;
    for part in parts {
        let mut most: usize = 0;
        for command in part {
            let steps = keep_command(typed, context, stages, shapes, places, command)?;
            keep_joined(context.joins, places, command);
            most = most.max(steps);
        }
        all = kind_behind(all, most);
    }
    Ok(all)
}

/// Those of the memories from outside.
fn keep_decls(kept: &mut Option<Breach>, decls: &[Decl])
    ensures { kept.new ≡ least_of kept.old (decls_placement_breaches
        (map declared_seen decls.now)) }
{
    for decl in decls {
        keep_if(
            kept,
            is_no_memory(&decl.shape),
            Rule::MemoryPlace,
            decl.name.place,
        );
    }
}

/// The first breach of each kind that one walk over the commands finds.
#[derive(Clone, Copy)]
struct Firsts {
    /// Of the rules on shapes, indices and bounds, without those on views.
    shapes: Option<Breach>,
    /// Of the rules on where memories stand, what is assigned to, and what stands in copies.
    places: Option<Breach>,
}

/// The first breaches of a program, where there are some. Notes how many phases each command has, where that is
/// asked for.
#[tactic(auto, using(dh_tree::proofs::Leasts::least_append))]
fn first_breaches(typed: &Typed, stages: &mut Option<Vec<usize>>) -> Result<Firsts, NoMemory>
    ensures shapes { IfOk result (λ firsts. firsts.shapes
        ≡ least_of None (index_breaches_of (program_seen typed.now))) }
    ensures places { IfOk result (λ firsts. firsts.places
        ≡ least_of None (placement_breaches (program_seen typed.now))) }
    ensures noted { OnOk result (ChangesKept stages.old stages.new
        (stages_in (program_seen typed.now).body)) }
    ensures wants { OnErr result (stages.old ≡ None → ⊥) }
{
    let tree = typed.tree();
    let mut shapes = None;
    let mut places = None;
    keep_decl_shapes(&mut shapes, tree.decls.as_slice());
    keep_decls(&mut places, tree.decls.as_slice());
    let round = nothing_round();
    keep_command(typed, &round, stages, &mut shapes, &mut places, &tree.body)?;
    Ok(Firsts { shapes, places })
}

/// Tells whether the memories of a program are declared where they may be, with shapes that memories
/// have; whether no iterator is assigned to, and nothing from outside a body of several copies in it;
/// whether such a body has only steps that all copies take; and whether reducers join copies, and blocks
/// that join them have nothing else. One walk over the commands, which takes no memory.
///
/// # Errors
///
/// `Refused` with the breach of `MemoryPlace`, `OuterWrite`, `DivergentSteps` or `Reducer` that stands
/// first.
pub fn rules(typed: &Typed) -> Result<(), PassFault>
    ensures { TellsLeast (placement_breaches (program_seen typed.now)) result }
{
    let mut stages = None;
    match first_breaches(typed, &mut stages) {
        Ok(firsts) => match firsts.places {
            Some(breach) => Err(PassFault::Refused {
                rule: breach.rule,
                place: breach.place,
            }),
            None => Ok(()),
        },
        Err(NoMemory) => unreachable!(),
    }
}

/// What is found of a program that keeps the rules on shapes.
#[derive(Drop)]
pub struct Shaped {
    /// The first breach of the rules on where memories stand, what is assigned to, and what stands in copies.
    pub misplaced: Option<Breach>,
    /// How many phases each command has, by its number: none, one straight phase, or others (2).
    pub stages: Vec<usize>,
}

/// Tells what `shapes` of `dh_views` tells; and, of a program that keeps the rules on shapes, the first
/// breach of those of `rules`, if there is one, and how many phases its commands have. One walk over the
/// commands for all of it, but for views.
///
/// # Errors
///
/// `Refused` with the first breach of the rules on shapes; `NoMemory` where an allocation was refused.
pub fn shapes_and_places(alloc: Global, typed: &Typed) -> Result<Shaped, PassFault>
    ensures breach { MayTellLeast (shapes_breaches_of (program_seen typed.now)) result }
    ensures places { FindsMisplaced (program_seen typed.now) result }
    ensures stages { IfOk result (λ shaped. AreStagesOf (program_seen typed.now)
        shaped.stages.items) }
{
    let mut stages = Some(Vec::new(alloc));
    let Ok(firsts) = first_breaches(typed, &mut stages) else {
        return Err(PassFault::NoMemory);
    };
    let mut shapes = firsts.shapes;
    let Ok(()) = keep_views(alloc, typed, &mut shapes) else {
        return Err(PassFault::NoMemory);
    };
    match shapes {
        Some(breach) => Err(PassFault::Refused {
            rule: breach.rule,
            place: breach.place,
        }),
        None => match stages {
            Some(stages) => Ok(Shaped {
                misplaced: firsts.places,
                stages,
            }),
            None => unreachable!(),
        },
    }
}
