//! The walk that notes what happens in a program.

ghost use Rattle.std.specs.Prelude.{◌≡◌, map, option_map, IfOk, OnOk};
ghost use Rattle.dh_tree.specs.Seen.{action_seen, form_seen, groups, maybe_seen, part_seen, term_seen, terms};
ghost use Rattle.dh_events.specs.Elements.{AreKnown, IsKnown, IsBoundaryEvent, StaysNoted, StaysRead};
ghost use Rattle.dh_events.specs.Incidents as incidents;
ghost use Rattle.dh_events.specs.Incidents.{is_stepped, phase_of as phase_of_open, released, when_parted};
ghost use Rattle.dh_events.specs.Noted.{all_read_by, arms_begun_by, arms_ended_by, arms_opened_by, assigned_by, block_done_by, block_opened_by, body_done_by, combine_opened_by, command_done_by, event_seen, given_done_by, left_open, let_by, maybe_read_by, offsets_read_by, opened_by, other_begun_by, parts_done_by, parts_opened_by, read_by, reads_none, stages_known, stored_by, suffixes_read_by, turns_begun_by, turns_ended_by, view_opened_by, target_written_by, AddsIncidents};
ghost use Rattle.dh_events.specs.Tables.{table_at};

use crate::events::{Event, Notes, Site};
use crate::known::{
    Known, cast, index, no_index, number, operation, reading, row as row_of, truth, variable,
};
use crate::structures::sort_found;
use crate::tables::get_at;
use dh_base::NoMemory;
use dh_tree::{Command, CommandForm, Expr, ExprForm, Ref, ViewForm};
use dh_viewing::moves;

/// Notes what an expression in an index reads, and answers what is known of it.
#[cycle(reading)]
#[tactic(auto, using(dh_tree::proofs::SeenTerms::terms_are, dh_tree::proofs::Collecting::found_none, dh_tree::proofs::Collecting::found_both))]
fn note_index<'a>(notes: &mut Notes<'a>, site: Site, expr: &'a Expr) -> Result<Known, NoMemory>
    ensures adds { OnOk result (AddsIncidents notes.old notes.new (read_by site expr.now)) }
    ensures noted { OnOk result (StaysRead notes.old notes.new) }
    ensures known { IfOk result (λ k. IsKnown notes.new.structures
        (table_at notes.old.clocks.items) (term_seen expr.now) k) }
{
    let sort = sort_found(expr.kind);
    match &expr.form {
        ExprForm::Number { negative, value } => {
            number(&mut notes.structures, sort, *negative, *value)
        }
        ExprForm::Truth { value } => truth(&mut notes.structures, sort, *value),
        ExprForm::Variable { of } => variable(
            &mut notes.structures,
            notes.clocks.as_slice(),
            sort,
            of.entity,
        ),
        ExprForm::Access { of, indices } => {
            let element = note_indices(notes, site, indices.as_slice())?;
            notes.read(site, expr, element)?;
            reading(&mut notes.structures, sort, of.entity, element)
        }
        ExprForm::Physical { of, bank, row, .. } => {
            let row = note_index(notes, site, row)?;
            let element = row_of(&mut notes.structures, *bank, row)?;
            notes.read(site, expr, element)?;
            reading(&mut notes.structures, sort, of.entity, element)
        }
        ExprForm::Binary { op, left, right } => {
            let left = note_index(notes, site, left)?;
            let right = note_index(notes, site, right)?;
            operation(&mut notes.structures, sort, *op, left, right)
        }
        ExprForm::Cast { inner, to } => {
            let inner = note_index(notes, site, inner)?;
            cast(&mut notes.structures, sort, *to, inner)
        }
    }
}

/// Notes what indices read, and answers what is known of them.
#[cycle(reading)]
fn note_indices<'a>(
    notes: &mut Notes<'a>,
    site: Site,
    indices: &'a [Expr],
) -> Result<Known, NoMemory>
    ensures adds { OnOk result (AddsIncidents notes.old notes.new (all_read_by site indices.now)) }
    ensures noted { OnOk result (StaysRead notes.old notes.new) }
    ensures known { IfOk result (λ k. AreKnown notes.new.structures
        (table_at notes.old.clocks.items) (terms (map term_seen indices.now)) k) }
{
    let mut known = None;
    for expr in indices {
        let last = note_index(notes, site, expr)?;
        known = Some(index(&mut notes.structures, known, last)?);
    }
    match known {
        Some(known) => Ok(known),
        None => no_index(&mut notes.structures),
    }
}

/// Notes what an expression reads that stands in no index.
#[cycle(outer)]
#[tactic(auto, using(dh_tree::proofs::SeenTerms::terms_are, dh_tree::proofs::Collecting::found_none, dh_tree::proofs::Collecting::found_both))]
fn note_reads<'a>(notes: &mut Notes<'a>, site: Site, expr: &'a Expr) -> Result<(), NoMemory>
    ensures adds { OnOk result (AddsIncidents notes.old notes.new (read_by site expr.now)) }
    ensures noted { OnOk result (StaysRead notes.old notes.new) }
{
    match &expr.form {
        ExprForm::Number { .. } | ExprForm::Truth { .. } | ExprForm::Variable { .. } => Ok(()),
        ExprForm::Access { indices, .. } => {
            let element = note_indices(notes, site, indices.as_slice())?;
            notes.read(site, expr, element)
        }
        ExprForm::Physical { bank, row, .. } => {
            let row = note_index(notes, site, row)?;
            let element = row_of(&mut notes.structures, *bank, row)?;
            notes.read(site, expr, element)
        }
        ExprForm::Binary { left, right, .. } => {
            note_value(notes, site, left)?;
            note_value(notes, site, right)
        }
        ExprForm::Cast { inner, .. } => note_value(notes, site, inner),
    }
}

/// Whether it is a number, a truth or a name alone, which reads nothing.
#[tactic(auto, using(dh_tree::proofs::SeenTerms::terms_are))]
fn reads_nothing(form: &ExprForm) -> bool
    ensures { result ≡ reads_none (form_seen form.now) }
{
    match form {
        ExprForm::Number { .. } | ExprForm::Truth { .. } | ExprForm::Variable { .. } => true,
        ExprForm::Access { .. }
        | ExprForm::Physical { .. }
        | ExprForm::Binary { .. }
        | ExprForm::Cast { .. } => false,
    }
}

/// As `note_reads`, for what mostly reads nothing.
#[cycle(outer)]
fn note_value<'a>(notes: &mut Notes<'a>, site: Site, expr: &'a Expr) -> Result<(), NoMemory>
    ensures adds { OnOk result (AddsIncidents notes.old notes.new (read_by site expr.now)) }
    ensures noted { OnOk result (StaysRead notes.old notes.new) }
{
    if reads_nothing(&expr.form) {
        return Ok(());
    }
    note_reads(notes, site, expr)
}

/// Notes what the indices of a write or the offsets of a view read. No number is wanted of their
/// structure, since neither shares anything.
fn note_all_reads<'a>(
    notes: &mut Notes<'a>,
    site: Site,
    indices: &'a [Expr],
) -> Result<(), NoMemory>
    ensures adds { OnOk result (AddsIncidents notes.old notes.new (all_read_by site indices.now)) }
    ensures noted { OnOk result (StaysRead notes.old notes.new) }
{
    for index in indices {
        note_value(notes, site, index)?;
    }
    Ok(())
}

/// Notes what a store's target reads, and the write. What is no access is read alone.
#[tactic(auto, using(dh_tree::proofs::SeenTerms::terms_are, dh_tree::proofs::Collecting::found_none, dh_tree::proofs::Collecting::found_both))]
fn note_write<'a>(notes: &mut Notes<'a>, site: Site, target: &'a Expr) -> Result<(), NoMemory>
    ensures adds { OnOk result (AddsIncidents notes.old notes.new (target_written_by site target.now)) }
    ensures noted { OnOk result (StaysRead notes.old notes.new) }
{
    match &target.form {
        ExprForm::Access { indices, .. } => {
            note_all_reads(notes, site, indices.as_slice())?;
            notes.write(site, target)
        }
        ExprForm::Physical { row, .. } => {
            note_reads(notes, site, row)?;
            notes.write(site, target)
        }
        ExprForm::Number { .. }
        | ExprForm::Truth { .. }
        | ExprForm::Variable { .. }
        | ExprForm::Binary { .. }
        | ExprForm::Cast { .. } => note_reads(notes, site, target),
    }
}

/// Notes what an expression that may lack reads.
fn note_maybe<'a>(
    notes: &mut Notes<'a>,
    site: Site,
    value: &'a Option<Expr>,
) -> Result<(), NoMemory>
    ensures adds { OnOk result (AddsIncidents notes.old notes.new (maybe_read_by site value.now)) }
    ensures noted { OnOk result (StaysRead notes.old notes.new) }
{
    match value {
        Some(value) => note_value(notes, site, value),
        None => Ok(()),
    }
}

/// Notes what the offsets of a suffix read.
fn note_suffixes<'a>(
    notes: &mut Notes<'a>,
    site: Site,
    by: &'a [(u64, Expr)],
) -> Result<(), NoMemory>
    ensures adds { OnOk result (AddsIncidents notes.old notes.new (suffixes_read_by site by.now)) }
    ensures noted { OnOk result (StaysRead notes.old notes.new) }
{
    for pair in by {
        note_value(notes, site, &pair.1)?;
    }
    Ok(())
}

/// Notes what the offsets of a view read.
fn note_offsets<'a>(notes: &mut Notes<'a>, site: Site, form: &'a ViewForm) -> Result<(), NoMemory>
    ensures adds { OnOk result (AddsIncidents notes.old notes.new (offsets_read_by site form.now)) }
    ensures noted { OnOk result (StaysRead notes.old notes.new) }
{
    match form {
        ViewForm::Shrink { .. } => Ok(()),
        ViewForm::Split { .. } => Ok(()),
        ViewForm::Suffix { by, .. } => note_suffixes(notes, site, by.as_slice()),
        ViewForm::Shift { by } => note_all_reads(notes, site, by.as_slice()),
    }
}

/// How the phases of a list stand behind some of its commands.
#[derive(Clone, Copy)]
pub struct Open {
    /// The Straight phase with which the next straight command goes on.
    pub going: Option<u32>,
    /// The last phase, where it is Straight.
    pub last: Option<u32>,
}

/// Nothing is open.
fn closed() -> Open
    ensures { result ≡ incidents.closed }
{
    Open {
        going: None,
        last: None,
    }
}

/// A Straight phase is open.
fn open_at(phase: Option<u32>) -> Open
    ensures { result ≡ incidents.open_at phase }
{
    Open {
        going: phase,
        last: phase,
    }
}

/// What is open into a command: nothing, where that has more than one phase.
fn into(stepped: bool, behind: Open) -> Open
    ensures { result ≡ released stepped behind }
{
    if stepped {
        Open {
            going: None,
            last: behind.last,
        }
    } else {
        behind
    }
}

/// What is open behind a view that stands in a phase: that, where the view moves.
fn behind_view(behind: Open, phase: u32, form: &ViewForm) -> Open
    ensures { result ≡ view_opened_by behind phase form.now }
{
    if moves(form) {
        open_at(Some(phase))
    } else {
        behind
    }
}

/// The phase of a command of this number that goes on with an open phase, or begins one.
fn phase_of(behind: Open, id: u32) -> u32
    ensures { result ≡ phase_of_open behind id }
{
    behind.going.unwrap_or(id)
}

/// What is known before the walk, and what stands round a command.
#[derive(Clone, Copy)]
pub struct NotingContext<'b> {
    /// How many phases each command has, by its number.
    pub stages: &'b [usize],
    /// The innermost unrolled loop.
    pub round: Option<u32>,
}

impl NotingContext<'_> {
    /// Whether a command has more than one phase.
    fn is_stepped(&self, id: u32) -> bool
        ensures { result ≡ is_stepped (stages_known self.now) id }
    {
        get_at(self.stages, id) >= 2
    }
}

/// The innermost unrolled loop inside a loop of this number.
fn round_inside(round: Option<u32>, id: u32, factor: u64) -> Option<u32>
    ensures { result ≡ incidents.round_inside round id factor }
{
    if factor > 1 { Some(id) } else { round }
}

/// What is open in the arms of an `if` and behind it, whose test stands in a phase.
fn inside_choice(stepped: bool, phase: u32) -> Open
    ensures { result ≡ incidents.inside_choice stepped phase }
{
    if stepped {
        closed()
    } else {
        open_at(Some(phase))
    }
}

/// Whether the arms of an `if` are parts of which no two accesses meet: in an unrolled loop copies
/// may take different arms.
#[tactic(auto, using(crate::proofs::NotedFacts::some_other))]
fn are_arms_parted(round: Option<u32>, other: &Option<Box<Command>>) -> bool
    ensures { result ≡ incidents.arms_part round
        (maybe_seen (option_map (λ b. action_seen b.value) other.now)) }
{
    round.is_none() && other.is_some()
}

/// Whether a block has more than one part.
fn are_parts(parts: &[Vec<Command>]) -> bool
    ensures { result ≡ incidents.are_parts (groups (map part_seen parts.now)) }
{
    parts.len() > 1
}

/// Notes an event where there are the parts or the arm that it tells of.
fn note_parted<'a>(notes: &mut Notes<'a>, parted: bool, event: Event<'a>) -> Result<(), NoMemory>
    requires step { IsBoundaryEvent event }
    ensures adds { OnOk result (AddsIncidents notes.old notes.new
        (when_parted parted (event_seen event.entry))) }
    ensures noted { OnOk result (StaysRead notes.old notes.new) }
{
    if parted { notes.note(event) } else { Ok(()) }
}

/// Notes what a `let` reads, and its assignment. Answers that its phase is open after it.
#[tactic(auto, using(dh_tree::proofs::Collecting::found_both))]
fn note_let<'a>(
    notes: &mut Notes<'a>,
    site: Site,
    name: &Ref,
    value: &'a Option<Expr>,
) -> Result<Open, NoMemory>
    ensures adds { OnOk result (AddsIncidents notes.old notes.new (let_by site name.now value.now)) }
    ensures after { IfOk result (λ after. after ≡ left_open site) }
    ensures noted { OnOk result (StaysNoted notes.old notes.new) }
{
    note_maybe(notes, site, value)?;
    notes.assign(name.entity)?;
    Ok(open_at(Some(site.phase)))
}

/// Notes what an assignment or a reducer reads, and the assignment. Answers as `note_let`.
#[tactic(auto, using(dh_tree::proofs::Collecting::found_both))]
fn note_assign<'a>(
    notes: &mut Notes<'a>,
    site: Site,
    target: &Ref,
    value: &'a Expr,
) -> Result<Open, NoMemory>
    ensures adds { OnOk result (AddsIncidents notes.old notes.new (assigned_by site target.now value.now)) }
    ensures after { IfOk result (λ after. after ≡ left_open site) }
    ensures noted { OnOk result (StaysNoted notes.old notes.new) }
{
    note_value(notes, site, value)?;
    notes.assign(target.entity)?;
    Ok(open_at(Some(site.phase)))
}

/// Notes what a store reads, and its write. Answers as `note_let`.
#[tactic(auto, using(dh_tree::proofs::Collecting::found_both))]
fn note_store<'a>(
    notes: &mut Notes<'a>,
    site: Site,
    target: &'a Expr,
    value: &'a Expr,
) -> Result<Open, NoMemory>
    ensures adds { OnOk result (AddsIncidents notes.old notes.new (stored_by site target.now value.now)) }
    ensures after { IfOk result (λ after. after ≡ left_open site) }
    ensures noted { OnOk result (StaysRead notes.old notes.new) }
{
    note_value(notes, site, value)?;
    note_write(notes, site, target)?;
    Ok(open_at(Some(site.phase)))
}

/// Notes what the offsets of a view read, and answers which phases are open after it.
fn note_view<'a>(
    notes: &mut Notes<'a>,
    site: Site,
    behind: Open,
    form: &'a ViewForm,
) -> Result<Open, NoMemory>
    ensures adds { OnOk result (AddsIncidents notes.old notes.new (offsets_read_by site form.now)) }
    ensures after { IfOk result (λ after. after ≡ view_opened_by behind site.phase form.now) }
    ensures noted { OnOk result (StaysRead notes.old notes.new) }
{
    note_offsets(notes, site, form)?;
    Ok(behind_view(behind, site.phase, form))
}

/// Notes what stands before the first arm of an `if`: what its test reads, and where parts and the
/// arm begin. Answers what is open in the arms and behind them.
fn begin_arms<'a>(
    notes: &mut Notes<'a>,
    around: NotingContext<'_>,
    behind: Open,
    id: u32,
    test: &'a Expr,
    other: &Option<Box<Command>>,
) -> Result<Open, NoMemory>
    ensures adds { OnOk result (AddsIncidents notes.old notes.new
        (arms_begun_by around.entry behind id test.now other.now)) }
    ensures inside { IfOk result (λ inside. inside ≡ arms_opened_by around.entry behind id) }
    ensures noted { OnOk result (StaysRead notes.old notes.new) }
{
    let stepped = around.is_stepped(id);
    let phase = phase_of(into(stepped, behind), id);
    let round = around.round;
    note_reads(notes, Site { phase, round }, test)?;
    note_parted(notes, are_arms_parted(round, other), Event::Begins)?;
    notes.note(Event::ArmBegins)?;
    Ok(inside_choice(stepped, phase))
}

/// Notes what stands between the arms of an `if`, of which the other may lack.
#[tactic(auto, using(crate::proofs::NotedFacts::some_other, dh_tree::proofs::Collecting::found_both))]
fn begin_other<'a>(
    notes: &mut Notes<'a>,
    round: Option<u32>,
    other: &Option<Box<Command>>,
) -> Result<(), NoMemory>
    ensures adds { OnOk result (AddsIncidents notes.old notes.new (other_begun_by round other.now)) }
    ensures noted { OnOk result (StaysRead notes.old notes.new) }
{
    notes.note(Event::ArmEnds)?;
    note_parted(notes, are_arms_parted(round, other), Event::Next)?;
    note_parted(notes, other.is_some(), Event::ArmBegins)
}

/// Notes what stands behind the arms of an `if`, and answers what is open there.
#[tactic(auto, using(crate::proofs::NotedFacts::some_other, dh_tree::proofs::Collecting::found_both))]
fn end_arms<'a>(
    notes: &mut Notes<'a>,
    round: Option<u32>,
    inside: Open,
    other: &Option<Box<Command>>,
) -> Result<Open, NoMemory>
    ensures adds { OnOk result (AddsIncidents notes.old notes.new (arms_ended_by round other.now)) }
    ensures after { IfOk result (λ after. after ≡ inside) }
    ensures noted { OnOk result (StaysRead notes.old notes.new) }
{
    note_parted(notes, other.is_some(), Event::ArmEnds)?;
    note_parted(notes, are_arms_parted(round, other), Event::Ends)?;
    Ok(inside)
}

/// Notes what stands before the body of a `while`: parts begin, its test reads, and the next
/// part begins.
#[tactic(auto, using(dh_tree::proofs::Collecting::found_both))]
fn begin_turns<'a>(notes: &mut Notes<'a>, site: Site, test: &'a Expr) -> Result<(), NoMemory>
    ensures adds { OnOk result (AddsIncidents notes.old notes.new (turns_begun_by site test.now)) }
    ensures noted { OnOk result (StaysRead notes.old notes.new) }
{
    notes.note(Event::Begins)?;
    note_reads(notes, site, test)?;
    notes.note(Event::Next)
}

/// Notes that the parts of a `while` end. Answers that nothing is open behind them.
fn end_turns(notes: &mut Notes<'_>) -> Result<Open, NoMemory>
    ensures adds { OnOk result (AddsIncidents notes.old notes.new turns_ended_by) }
    ensures after { IfOk result (λ after. after ≡ incidents.closed) }
    ensures noted { OnOk result (StaysRead notes.old notes.new) }
{
    notes.note(Event::Ends)?;
    Ok(closed())
}

/// What is open into a block that joins copies: where it is straight, it goes on with the last
/// phase of the turn.
fn into_combine(around: NotingContext<'_>, turn: Open, combine: &Option<Box<Command>>) -> Open
    ensures { result ≡ combine_opened_by around.entry turn combine.now }
{
    match combine {
        Some(block) => {
            if around.is_stepped(block.id) {
                closed()
            } else {
                open_at(turn.last)
            }
        }
        None => closed(),
    }
}

/// What is open behind a loop: nothing, where it has more than one phase.
fn behind_loop(stepped: bool, behind: Open) -> Open
    ensures { result ≡ incidents.behind_loop stepped behind }
{
    if stepped { closed() } else { behind }
}

/// Notes what happens in a command behind open phases, and answers which are open after it.
#[cycle(noting)]
#[tactic(auto, using(dh_tree::proofs::SeenActions::actions_are, dh_tree::proofs::Collecting::found_none, dh_tree::proofs::Collecting::found_both))]
fn note_command<'a>(
    notes: &mut Notes<'a>,
    around: NotingContext<'_>,
    behind: Open,
    command: &'a Command,
) -> Result<Open, NoMemory>
    ensures adds { OnOk result
        (AddsIncidents notes.old notes.new (command_done_by around.entry behind command.now)) }
    ensures after { IfOk result (λ after. after ≡ opened_by around.entry behind command.now) }
    ensures noted { OnOk result (StaysNoted notes.old notes.new) }
{
    let id = command.id;
    let round = around.round;
    let site = Site {
        phase: phase_of(behind, id),
        round,
    };
    match &command.form {
        CommandForm::Let { name, value, .. } => note_let(notes, site, name, value),
        CommandForm::Assign { target, value } | CommandForm::Reduce { target, value, .. } => {
            note_assign(notes, site, target, value)
        }
        CommandForm::Store { sides } => {
            let sides = sides.as_ref();
            note_store(notes, site, &sides.target, &sides.value)
        }
        CommandForm::If { test, then, other } => {
            let inside = begin_arms(notes, around, behind, id, test, other)?;
            note_inside(notes, around, inside, then)?;
            begin_other(notes, round, other)?;
            note_given(notes, around, inside, other)?;
            end_arms(notes, round, inside, other)
        }
        CommandForm::While { test, body } => {
            begin_turns(notes, Site { phase: id, round }, test)?;
            note_inside(notes, around, closed(), body)?;
            end_turns(notes)
        }
        CommandForm::For {
            header,
            body,
            combine,
        } => {
            let header = header.as_ref();
            notes.assign(header.iterator.entity)?;
            let inside = NotingContext {
                stages: around.stages,
                round: round_inside(round, id, header.factor),
            };
            let turn = note_inside(notes, inside, closed(), body)?;
            let joins = into_combine(inside, turn, combine);
            note_given(notes, inside, joins, combine)?;
            Ok(behind_loop(around.is_stepped(id), behind))
        }
        CommandForm::Block { body } => note_block(notes, around, behind, id, body.as_slice()),
        CommandForm::View { form, .. } => note_view(notes, site, behind, form),
        CommandForm::LetMemory { .. } | CommandForm::Call { .. } => Ok(behind),
    }
}

/// Notes what happens in a command that may lack, and answers which phases are open after it.
#[cycle(noting)]
fn note_given<'a>(
    notes: &mut Notes<'a>,
    around: NotingContext<'_>,
    behind: Open,
    command: &'a Option<Box<Command>>,
) -> Result<Open, NoMemory>
    ensures adds { OnOk result
        (AddsIncidents notes.old notes.new (given_done_by around.entry behind command.now)) }
    ensures noted { OnOk result (StaysNoted notes.old notes.new) }
{
    match command {
        Some(command) => note_inside(notes, around, behind, command),
        None => Ok(behind),
    }
}

/// Notes what happens in a block of these parts, by its number.
#[cycle(noting)]
#[tactic(auto, using(dh_tree::proofs::Collecting::found_none, dh_tree::proofs::Collecting::found_both))]
fn note_block<'a>(
    notes: &mut Notes<'a>,
    around: NotingContext<'_>,
    behind: Open,
    id: u32,
    body: &'a [Vec<Command>],
) -> Result<Open, NoMemory>
    ensures adds { OnOk result
        (AddsIncidents notes.old notes.new (block_done_by around.entry behind id body.now)) }
    ensures after { IfOk result (λ after. after
        ≡ block_opened_by around.entry behind id body.now) }
    ensures noted { OnOk result (StaysNoted notes.old notes.new) }
{
    let stepped = around.is_stepped(id);
    let parted = are_parts(body);
    note_parted(notes, parted, Event::Begins)?;
    let inside = into(stepped, behind);
    let last = note_parts(notes, around, inside, stepped, parted, body)?;
    note_parted(notes, parted, Event::Ends)?;
    Ok(into(stepped, last))
}

/// As `note_command`; blocks inside one another take less of the stack.
#[cycle(noting)]
#[tactic(auto, using(dh_tree::proofs::SeenActions::actions_are))]
fn note_inside<'a>(
    notes: &mut Notes<'a>,
    around: NotingContext<'_>,
    behind: Open,
    command: &'a Command,
) -> Result<Open, NoMemory>
    ensures adds { OnOk result
        (AddsIncidents notes.old notes.new (command_done_by around.entry behind command.now)) }
    ensures after { IfOk result (λ after. after ≡ opened_by around.entry behind command.now) }
    ensures noted { OnOk result (StaysNoted notes.old notes.new) }
{
    if let CommandForm::Block { body } = &command.form {
        note_block(notes, around, behind, command.id, body.as_slice())
    } else {
        note_command(notes, around, behind, command)
    }
}

/// Notes what happens in the parts of a block.
#[cycle(noting)]
fn note_parts<'a>(
    notes: &mut Notes<'a>,
    around: NotingContext<'_>,
    behind: Open,
    stepped: bool,
    parted: bool,
    parts: &'a [Vec<Command>],
) -> Result<Open, NoMemory>
    ensures adds { OnOk result (AddsIncidents notes.old notes.new
        (parts_done_by around.entry stepped parted behind parts.now)) }
    ensures after { IfOk result (λ after. after
        ≡ parts_opened_by around.entry stepped behind parts.now) }
    ensures noted { OnOk result (StaysNoted notes.old notes.new) }
{
    let mut behind = behind;
    for part in parts {
        behind = into(stepped, behind);
        for command in part {
            behind = note_inside(notes, around, behind, command)?;
        }
        note_parted(notes, parted, Event::Next)?;
    }
    Ok(behind)
}

/// Notes what happens in a program's body, of which the phases are counted.
pub fn note_body<'a>(
    notes: &mut Notes<'a>,
    stages: &[usize],
    body: &'a Command,
) -> Result<(), NoMemory>
    ensures adds { OnOk result (AddsIncidents notes.old notes.new
        (body_done_by stages.now body.now)) }
    ensures noted { OnOk result (StaysNoted notes.old notes.new) }
{
    let around = NotingContext {
        stages,
        round: None,
    };
    note_command(notes, around, closed(), body)?;
    Ok(())
}
