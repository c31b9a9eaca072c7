//! Assignments that stand one behind the other.

ghost use Rattle.dh_code.specs.Rows.{contents_of};
ghost use Rattle.dh_code.specs.Scenes.{IsScene};
ghost use Rattle.dh_code.specs.States.{IsReadyState};
ghost use Rattle.dh_code.specs.Underway.{RunSoFar};

use crate::codes::Action;
use crate::evaluating::StepContext;
use crate::operands::{slot, whole};
use crate::running::{StepState, ranks_at, set_slot};
use crate::worths::plain_value;

/// Does the assignments at the beginning of a list, at a path that is alone, as far as their values
/// are of one operator at most; what is left of the list. (Where there is no room to note a change,
/// the assignment is left too.)
#[inline(always)]
pub fn assign_on(
    scene: &StepContext<'_>,
    state: &mut StepState,
    rows: &[Vec<u32>],
    paths: &[usize],
    mut list: Option<usize>,
) -> Option<usize>
    requires scene { IsScene scene.now }
    requires ready { IsReadyState scene.now state.old }
    ensures { RunSoFar scene.now state.old (contents_of rows.now) paths.now list state.new result }
{
    if paths.len() != 1 {
        return list;
    }
    let ranks = ranks_at(rows, paths[0]);
    while let Some(at) = list {
        let Some(step) = scene.code.steps.as_slice().get(at) else {
            return list;
        };
        let Action::Assign {
            value,
            first,
            depth,
        } = &step.action
        else {
            return list;
        };
        let Some(word) = plain_value(scene, state, ranks, value) else {
            return list;
        };
        let Ok(()) = set_slot(state, slot(*first, *depth, ranks), whole(word)) else {
            return list;
        };
        list = step.next;
    }
    list
}
