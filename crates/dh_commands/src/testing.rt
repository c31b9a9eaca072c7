//! Tests, at each path in turn.

ghost use Rattle.std.specs.Prelude.{IfOk};
ghost use Rattle.dh_tree.specs.Seen.{term_seen};
ghost use Rattle.dh_commands.specs.Setting.{TestsAll, TestsOne};
ghost use Rattle.dh_commands.specs.LanesRun.{paths_counted};
ghost use Rattle.dh_commands.specs.MadeCommands.{MadeTested, MadeTests};

use crate::buildings::Building;
use dh_base::NoMemory;
use dh_expressions::{Around, Lane, Scene, Valued, push_term};
use dh_tree::Expr;

/// Evaluates a test at one path. Gives its value, and the number of the next access.
fn test_at(
    scene: &Scene<'_>,
    lane: &Lane<'_>,
    building: &mut Building,
    first: u32,
    test: &Expr,
) -> Result<Valued, NoMemory>
    ensures means { IfOk result (λ own. TestsOne scene.now lane.now building.old building.new first
        (term_seen test.now) own) }
    ensures made { IfOk result (λ own. MadeTested scene.now lane.now first (term_seen test.now)
        building.old building.new own.next own.value) }
{
    let current = building.values.current.as_slice();
    let accesses = &mut building.accesses;
    push_term(
        scene,
        lane,
        current,
        accesses,
        &mut building.draft,
        first,
        test,
    )
}

/// Evaluates a test at each path. Gives its values, and the number of the next access.
pub fn test_all(
    scene: &Scene<'_>,
    around: Around<'_>,
    building: &mut Building,
    first: u32,
    test: &Expr,
) -> Result<(Vec<u64>, u32), NoMemory>
    ensures means { IfOk result (λ r. TestsAll scene.now around.entry building.old building.new
        first r.1 (term_seen test.now) r.0.items) }
    ensures made { IfOk result (λ r. MadeTests scene.now around.entry first (term_seen test.now)
        (paths_counted around.entry) building.old building.new r.1 r.0.items) }
{
    let mut tests = Vec::new(scene.alloc);
    let mut next = first;
    for i in 0..around.guards.len() {
        let lane = Lane {
            around,
            number: i as u64,
        };
        let own = test_at(scene, &lane, building, first, test)?;
        tests.push(own.value)?;
        next = own.next;
    }
    Ok((tests, next))
}
