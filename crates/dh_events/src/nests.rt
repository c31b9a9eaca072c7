//! What one walk over commands notes of them: how many phases they have, which unrolled loops stand
//! round what, and where variables are declared.

ghost use Rattle.std.specs.Prelude.{◌≡◌, [], if◌then◌else◌, nat_lt, IfOk, OnOk, map};
ghost use Rattle.dh_tree.specs.Seen.{action_form_seen, action_seen, part_seen, groups, maybe_block_seen};
ghost use Rattle.dh_events.specs.Rounds.{form_rounds, groups_rounds, header_loop, own_loops as loops_of_own, other_rounds, rounds_in, with_round, AreRounds};
ghost use Rattle.dh_events.specs.Scopes.{form_scopes, groups_scopes, other_scopes, scopes_in, MakeScopes};
ghost use Rattle.dh_events.specs.Stages.{form_stages, groups_stages, other_stages, stages_in};
ghost use Rattle.dh_tree.specs.PhaseKinds.{phase_kind, form_phase_kind, other_phase_kind, groups_phase_kind};
ghost use Rattle.dh_events.specs.Tables.{ChangesNumbers};

use crate::dependence::{Scope, declare, declare_iterator};
use crate::rounds::{inside, set_round};
use crate::stages::view_stages;
use crate::tables::set_at;
use dh_base::NoMemory;
use dh_meaning::{kind_behind, kind_of_choice, kind_of_turns, turn_count};
use dh_tree::{Command, CommandForm, Counter, LoopHeader};
use std::alloc::Global;

/// What is noted of commands.
#[derive(Drop)]
pub struct Nests {
    /// How many phases each has, by its number: none, one Straight phase, or others (2).
    pub stages: Vec<usize>,
    /// By the number of each unrolled loop the unrolled loops round it, and itself.
    pub rounds: Vec<Vec<Counter>>,
    /// By its entity where each variable is declared.
    pub scopes: Vec<Option<Scope>>,
}

impl Nests {
    /// Nothing is noted.
    pub fn new(alloc: Global) -> Nests
        ensures stages { result.stages.items ≡ [] }
        ensures rounds { result.rounds.items ≡ [] }
        ensures scopes { result.scopes.items ≡ [] }
    {
        Nests {
            stages: Vec::new(alloc),
            rounds: Vec::new(alloc),
            scopes: Vec::new(alloc),
        }
    }
}

/// The unrolled loops round an unrolled loop, and itself; none of another loop.
fn own_loops(
    alloc: Global,
    outer: &[Counter],
    header: &LoopHeader,
) -> Result<Vec<Counter>, NoMemory>
    ensures { IfOk result (λ own. own.items ≡ loops_of_own outer.now (header_loop header.now)) }
{
    if header.factor > 1 {
        let counter = Counter {
            entity: header.iterator.entity,
            low: header.low,
            high: header.high,
            factor: header.factor,
        };
        let own = inside(alloc, outer, counter)?;
        Ok(own)
    } else {
        Ok(Vec::new(alloc))
    }
}

/// The unrolled loops round what stands in a loop of a factor.
fn loops_within<'a>(factor: u64, own: &'a [Counter], outer: &'a [Counter]) -> &'a [Counter]
    ensures { result.now ≡ (if nat_lt 1 factor then own.now else outer.now) }
{
    if factor > 1 { own } else { outer }
}

/// Notes those of a loop, where it is unrolled.
fn set_own(
    alloc: Global,
    rounds: &mut Vec<Vec<Counter>>,
    place: u32,
    factor: u64,
    own: Vec<Counter>,
) -> Result<(), NoMemory>
    ensures { OnOk result (AreRounds rounds.old rounds.new
        (λ f. if nat_lt 1 factor then with_round f place own.items else f)) }
{
    if factor > 1 {
        set_round(alloc, rounds, place, own)
    } else {
        Ok(())
    }
}

/// Notes, of a command that stands so many unrolled loops deep inside these, and of each command inside
/// it: how many phases it has, which it answers; which unrolled loops stand round it, where it is one; and
/// where its variables are declared.
#[cycle(nesting)]
#[tactic(auto, using(dh_tree::proofs::SeenActions::actions_are))]
pub fn note_nests(
    alloc: Global,
    nests: &mut Nests,
    outer: &[Counter],
    depth: usize,
    command: &Command,
) -> Result<usize, NoMemory>
    ensures noted { OnOk result (ChangesNumbers nests.old.stages nests.new.stages
        (stages_in (action_seen command.now))) }
    ensures own { IfOk result (λ own. own ≡ phase_kind (action_seen command.now)) }
    ensures rounds { OnOk result (AreRounds nests.old.rounds nests.new.rounds
        (rounds_in outer.now (action_seen command.now))) }
    ensures scopes { OnOk result (MakeScopes nests.old.scopes nests.new.scopes
        (scopes_in depth (action_seen command.now))) }
{
    match &command.form {
        CommandForm::Assign { .. } | CommandForm::Store { .. } | CommandForm::Reduce { .. } => {
            set_at(&mut nests.stages, command.id, 1)?;
            Ok(1)
        }
        CommandForm::Let { .. }
        | CommandForm::LetMemory { .. }
        | CommandForm::View { .. }
        | CommandForm::Call { .. }
        | CommandForm::Block { .. }
        | CommandForm::If { .. }
        | CommandForm::While { .. }
        | CommandForm::For { .. } => note_inside(alloc, nests, outer, depth, command),
    }
}

/// As `note_nests`, in more room than a straight command takes.
#[cycle(nesting)]
#[inline(never)]
fn note_inside(
    alloc: Global,
    nests: &mut Nests,
    outer: &[Counter],
    depth: usize,
    command: &Command,
) -> Result<usize, NoMemory>
    ensures noted { OnOk result (ChangesNumbers nests.old.stages nests.new.stages
        (stages_in (action_seen command.now))) }
    ensures own { IfOk result (λ own. own ≡ phase_kind (action_seen command.now)) }
    ensures rounds { OnOk result (AreRounds nests.old.rounds nests.new.rounds
        (rounds_in outer.now (action_seen command.now))) }
    ensures scopes { OnOk result (MakeScopes nests.old.scopes nests.new.scopes
        (scopes_in depth (action_seen command.now))) }
{
    let own = note_form(alloc, nests, outer, depth, command.id, &command.form)?;
    set_at(&mut nests.stages, command.id, own)?;
    Ok(own)
}

/// As much of a command of a form and of this number, but for how many phases it has itself.
#[cycle(nesting)]
#[tactic(auto, using(dh_tree::proofs::SeenActions::actions_are))]
fn note_form(
    alloc: Global,
    nests: &mut Nests,
    outer: &[Counter],
    depth: usize,
    id: u32,
    form: &CommandForm,
) -> Result<usize, NoMemory>
    ensures noted { OnOk result (ChangesNumbers nests.old.stages nests.new.stages
        (form_stages (action_form_seen form.now))) }
    ensures own { IfOk result (λ own. own ≡ form_phase_kind (action_form_seen form.now)) }
    ensures rounds { OnOk result (AreRounds nests.old.rounds nests.new.rounds
        (form_rounds outer.now id (action_form_seen form.now))) }
    ensures scopes { OnOk result (MakeScopes nests.old.scopes nests.new.scopes
        (form_scopes depth (action_form_seen form.now))) }
{
    match form {
        CommandForm::Let { name, .. } => {
            let iterates = None;
            declare(&mut nests.scopes, name, Scope { depth, iterates })?;
            Ok(1)
        }
        CommandForm::Assign { .. } | CommandForm::Store { .. } | CommandForm::Reduce { .. } => {
            Ok(1)
        }
        CommandForm::Block { body } => note_parts(alloc, nests, outer, depth, body.as_slice()),
        CommandForm::If { then, other, .. } => {
            let chosen = note_nests(alloc, nests, outer, depth, then)?;
            let others = note_other(alloc, nests, outer, depth, other)?;
            Ok(kind_of_choice(chosen, others))
        }
        CommandForm::While { body, .. } => {
            note_nests(alloc, nests, outer, depth, body)?;
            Ok(2)
        }
        CommandForm::For {
            header,
            body,
            combine,
        } => {
            let header = header.as_ref();
            let factor = header.factor;
            let deep = declare_iterator(&mut nests.scopes, depth, &header.iterator, factor)?;
            let own = own_loops(alloc, outer, header)?;
            let within = loops_within(factor, own.as_slice(), outer);
            let turn = note_nests(alloc, nests, within, deep, body)?;
            let joins = note_other(alloc, nests, within, deep, combine)?;
            set_own(alloc, &mut nests.rounds, id, factor, own)?;
            let turns = turn_count(header.low, header.high, factor);
            Ok(kind_of_turns(turns, turn, joins))
        }
        CommandForm::View { form, .. } => Ok(view_stages(form)),
        CommandForm::LetMemory { .. } | CommandForm::Call { .. } => Ok(0),
    }
}

/// Of a block that may lack.
#[cycle(nesting)]
fn note_other(
    alloc: Global,
    nests: &mut Nests,
    outer: &[Counter],
    depth: usize,
    other: &Option<Box<Command>>,
) -> Result<usize, NoMemory>
    ensures noted { OnOk result (ChangesNumbers nests.old.stages nests.new.stages
        (other_stages (maybe_block_seen other.now))) }
    ensures own { IfOk result (λ own. own ≡ other_phase_kind (maybe_block_seen other.now)) }
    ensures rounds { OnOk result (AreRounds nests.old.rounds nests.new.rounds
        (other_rounds outer.now (maybe_block_seen other.now))) }
    ensures scopes { OnOk result (MakeScopes nests.old.scopes nests.new.scopes
        (other_scopes depth (maybe_block_seen other.now))) }
{
    match other {
        Some(block) => note_nests(alloc, nests, outer, depth, block),
        None => Ok(0),
    }
}

/// Of the parts of a block.
#[cycle(nesting)]
fn note_parts(
    alloc: Global,
    nests: &mut Nests,
    outer: &[Counter],
    depth: usize,
    parts: &[Vec<Command>],
) -> Result<usize, NoMemory>
    ensures noted { OnOk result (ChangesNumbers nests.old.stages nests.new.stages
        (groups_stages (groups (map part_seen parts.now)))) }
    ensures own { IfOk result (λ own. own ≡ groups_phase_kind (groups (map part_seen parts.now))) }
    ensures rounds { OnOk result (AreRounds nests.old.rounds nests.new.rounds
        (groups_rounds outer.now (groups (map part_seen parts.now)))) }
    ensures scopes { OnOk result (MakeScopes nests.old.scopes nests.new.scopes
        (groups_scopes depth (groups (map part_seen parts.now)))) }
{
    let mut all: usize = 0;
    for part in parts {
        let mut most: usize = 0;
        for command in part.as_slice() {
            most = note_nests(alloc, nests, outer, depth, command)?.max(most);
        }
        all = kind_behind(all, most);
    }
    Ok(all)
}
