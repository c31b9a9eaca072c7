//! The passes over a text, in order.

ghost use Rattle.std.specs.Prelude.{◌≡◌, ◌≤◌, [], length, IfOk};
ghost use Rattle.dh_shape.specs.Above.{TellsExcess};
ghost use Rattle.dh_tree.specs.Forms.{unbuilt_forms};
ghost use Rattle.dh_tree.specs.Seen.{program_seen};
ghost use Rattle.dh_tree.specs.Written.{IsOfText};
ghost use Rattle.dh_tree.specs.Excesses as excesses;
ghost use Rattle.dh_tree.specs.Ready.{most_tokens};
ghost use Rattle.dh_check.specs.Acceptance.{IsSoundProgram};
ghost use Rattle.dh_check.specs.declared.checking.CheckFault.TheVariants as fault;
ghost use Rattle.dh_events.specs.Stages.{AreStagesOf};
ghost use Rattle.dh_check.specs.Ready.{of_pass, HasStages, TellsText, TellsTree, TellsNamed, TellsShapes};
ghost use Rattle.dh_check.specs.Verdicts.{Checks, ChecksWithoutPorts, counted_excess, tokens_excess};

use crate::laws::ready_programs_have_tables;
use dh_base::{Excess, Limit, PassFault, Place, Rule};
use dh_lexer::{Counts, Token, counts, lex};
use dh_names::resolve_built;
use dh_parser::parse;
use dh_ports::{Accepted, check_counted};
use dh_rules::shapes_and_places;
use dh_shape::within;
use dh_sound::{accepted_programs_are_never_stuck, ready_accesses_are_told};
use dh_tree::{Breach, Named, Tree, Typed};
use dh_types::type_program;
use std::alloc::Global;

/// Why a text is no accepted program.
#[derive(Clone, Copy, Debug, PartialEq, Eq)]
pub enum CheckFault {
    /// It breaks a rule.
    Refused {
        /// The rule that is broken.
        rule: Rule,
        /// Where it is broken.
        place: Place,
    },
    /// It exceeds a limit.
    TooLarge {
        /// The limit that is exceeded.
        limit: Limit,
        /// The counted quantity: above the limit, and at most 1,000,000,000.
        count: u64,
    },
    /// Want of memory: an allocation was refused.
    NoMemory,
}

impl From<PassFault> for CheckFault {
    ghost from_gives = { λ pass e. e ≡ of_pass pass };

    fn from(pass: PassFault) -> CheckFault {
        match pass {
            PassFault::Refused { rule, place } => CheckFault::Refused { rule, place },
            PassFault::NoMemory => CheckFault::NoMemory,
        }
    }
}

impl From<Excess> for CheckFault {
    ghost from_gives = { λ excess e. e ≡ fault.TooLarge excess.limit excess.count };

    fn from(excess: Excess) -> CheckFault {
        let Excess { limit, count } = excess;
        CheckFault::TooLarge { limit, count }
    }
}

impl From<Breach> for CheckFault {
    ghost from_gives = { λ breach e. e ≡ fault.Refused breach.rule breach.place };

    fn from(breach: Breach) -> CheckFault {
        let Breach { rule, place } = breach;
        CheckFault::Refused { rule, place }
    }
}

/// Counts that are reported stop here.
const MOST_COUNTED: u64 = 1_000_000_000;

/// That a count is above its limit, where it is.
fn excess_at(limit: Limit, count: u64) -> Option<Excess>
    ensures { result ≡ excesses.excess_at limit count }
{
    if count > limit.greatest() {
        let count = count.min(MOST_COUNTED);
        return Some(Excess { limit, count });
    }
    None
}

/// The first limit on tokens that these counts exceed.
fn first_excess(counts: Counts) -> Option<Excess>
    ensures { result ≡ counted_excess counts.brackets counts.operators counts.else_ifs }
{
    excess_at(Limit::Brackets, counts.brackets)
        .or(excess_at(Limit::Operators, counts.operators))
        .or(excess_at(Limit::ElseIfs, counts.else_ifs))
}

/// A program that is ready, and what the passes count on the way.
#[derive(Drop)]
struct CountedProgram {
    /// The program.
    typed: Typed,
    /// How many phases each of its commands has, by its number.
    stages: Vec<usize>,
}

/// Checks a text of at most 1,048,576 bytes: its tokens, the limits on them, its tree, the forms that
/// are built, names, kinds, shapes with indices and bounds, the limits on memories, where memories stand,
/// and ports, in this order. The
/// first of these with a breach or an excess refuses it, at the least place; of ports spent, at the first
/// access in order of evaluation with which they are. A program that is accepted is sound: in no run, from
/// whatever memories, does a phase spend more of a bank than the ports of its memory, and no run is ever stuck.
///
/// # Errors
///
/// `Refused` with the rule that is broken and its place; `TooLarge` with the limit and the count above
/// it, at most 1,000,000,000; `NoMemory` where an allocation was refused.
pub fn check(alloc: Global, text: &[u8]) -> Result<Accepted, CheckFault>
    requires { length text.now ≤ 1048576 }
    ensures verdict { Checks text.now result }
    ensures sound { IfOk result (λ a. IsSoundProgram (program_seen a)) }
{
    ready_programs_have_tables();
    ready_accesses_are_told();
    accepted_programs_are_never_stuck();
    let counted = ready(alloc, text)?;
    let CountedProgram { typed, stages } = counted;
    let accepted = check_counted(alloc, typed, stages)?;
    Ok(accepted)
}

/// Checks a text as `check` does, but for its ports.
///
/// # Errors
///
/// As `check`, without the rules on ports.
pub fn check_without_ports(alloc: Global, text: &[u8]) -> Result<Typed, CheckFault>
    requires { length text.now ≤ 1048576 }
    ensures { ChecksWithoutPorts text.now result }
{
    match ready(alloc, text) {
        Ok(counted) => Ok(counted.typed),
        Err(fault) => Err(fault),
    }
}

/// The passes over a text before that over ports.
fn ready(alloc: Global, text: &[u8]) -> Result<CountedProgram, CheckFault>
    requires { length text.now ≤ 1048576 }
    ensures tells { TellsText text.now result }
    ensures counts { IfOk result HasStages }
{
    let tokens = lex(alloc, text)?;
    within_limits(tokens.as_slice())?;
    let tree = parse(alloc, tokens.as_slice())?;
    ready_tree(alloc, tree)
}

/// The limits on tokens.
fn within_limits(tokens: &[Token]) -> Result<(), Excess>
    ensures { TellsExcess (tokens_excess tokens.now) result }
{
    match first_excess(counts(tokens)) {
        Some(excess) => Err(excess),
        None => Ok(()),
    }
}

/// The passes over a tree before that over ports.
fn ready_tree(alloc: Global, tree: Tree) -> Result<CountedProgram, CheckFault>
    requires { IsOfText most_tokens (program_seen tree) }
    ensures tells { TellsTree (program_seen tree) result }
    ensures counts { IfOk result HasStages }
{
    let named = resolve_built(alloc, tree)?;
    ready_named(alloc, named)
}

/// The passes over a tree whose names are resolved, before that over ports.
fn ready_named(alloc: Global, named: Named) -> Result<CountedProgram, CheckFault>
    requires of_text { IsOfText most_tokens (program_seen named) }
    requires built { unbuilt_forms (program_seen named) ≡ [] }
    ensures tells { TellsNamed (program_seen named) result }
    ensures counts { IfOk result HasStages }
{
    let typed = type_program(alloc, named)?;
    // a typed tree keeps the rules on names and kinds
    typed.tree();
    let stages = shaped(alloc, &typed)?;
    Ok(CountedProgram { typed, stages })
}

/// The rules on shapes, indices, bounds and views, then the limits on memories, then the rules on where
/// memories stand and what is assigned to, whose first breach the walk over shapes has found. Answers how many
/// phases each command has.
fn shaped(alloc: Global, typed: &Typed) -> Result<Vec<usize>, CheckFault>
    ensures tells { TellsShapes (program_seen typed.now) result }
    ensures counts { IfOk result (λ stages. AreStagesOf (program_seen typed.now) stages.items) }
{
    let shaped = shapes_and_places(alloc, typed)?;
    within(typed)?;
    match shaped.misplaced {
        Some(breach) => Err(CheckFault::from(breach)),
        None => Ok(shaped.stages),
    }
}
