//! What is noted of a program's commands before what happens in them.

ghost use Rattle.std.specs.Prelude.{IfOk};
ghost use Rattle.dh_tree.specs.Seen.{program_seen};
ghost use Rattle.dh_events.specs.Stages.{AreStagesOf};
ghost use Rattle.dh_ports.specs.Layouts.{AreRoundsOf, AreScopesNoted};

use dh_base::NoMemory;
use dh_events::{Nests, note_nests, note_stages};
use dh_tree::Typed;
use std::alloc::Global;

/// How many phases the commands of a program have; and, where not each loop has one copy, which unrolled loops
/// stand round what and where the variables of the body are declared.
pub fn nests_of(alloc: Global, typed: &Typed) -> Result<Nests, NoMemory>
    ensures stages { IfOk result (λ nests. AreStagesOf (program_seen typed.now)
        nests.stages.items) }
    ensures rounds { IfOk result (λ nests. AreRoundsOf (program_seen typed.now)
        nests.rounds.items) }
    ensures scopes { IfOk result (λ nests. AreScopesNoted (program_seen typed.now)
        nests.rounds.items nests.scopes.items) }
{
    let body = &typed.tree().body;
    let mut nests = Nests::new(alloc);
    if typed.has_single_loops() {
        note_stages(&mut nests.stages, body)?;
        return Ok(nests);
    }
    note_nests(alloc, &mut nests, &[], 0, body)?;
    Ok(nests)
}

/// The same of a program whose phases are counted already.
pub(crate) fn nests_with(
    alloc: Global,
    typed: &Typed,
    stages: Vec<usize>,
) -> Result<Nests, NoMemory>
    requires counted { AreStagesOf (program_seen typed.now) stages.items }
    ensures stages { IfOk result (λ nests. AreStagesOf (program_seen typed.now)
        nests.stages.items) }
    ensures rounds { IfOk result (λ nests. AreRoundsOf (program_seen typed.now)
        nests.rounds.items) }
    ensures scopes { IfOk result (λ nests. AreScopesNoted (program_seen typed.now)
        nests.rounds.items nests.scopes.items) }
{
    if typed.has_single_loops() {
        let mut nests = Nests::new(alloc);
        nests.stages = stages;
        return Ok(nests);
    }
    nests_of(alloc, typed)
}
