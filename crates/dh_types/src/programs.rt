//! The kinds of whole programs.

ghost use Rattle.std.specs.Prelude.{◌≡◌, ◌<◌, None, MatchResult};
ghost use Rattle.dh_tree.specs.Seen.{program_seen};
ghost use Rattle.dh_tree.specs.Breaches.{KeepsNames};
ghost use Rattle.dh_tree.specs.Resolved.{HasEntities};
ghost use Rattle.dh_tree.specs.Kinds.{HasKinds};
ghost use Rattle.dh_tree.specs.KindBreaches.{KeepsKinds};
ghost use Rattle.dh_tree.specs.NameCounts.{names_declared};
ghost use Rattle.dh_types.specs.Walks.{typing_state_of, nothing_known};
ghost use Rattle.dh_types.specs.Programs.{Answers, TypesTree, SettlesKinds};

use crate::walks::Walk;
use dh_base::{NoMemory, PassFault};
use dh_tree::{Breach, Named, Tree, Typed};
use std::alloc::Global;

// The walk over a program where it stands. What owns it drops it, so that no drop of a tree is
// written out at each of these calls.
fn walk_tree(alloc: Global, walk: &mut Walk, tree: &mut Tree) -> Result<(), NoMemory>
    requires start { typing_state_of walk.old ≡ nothing_known }
    ensures { MatchResult result (λ _. TypesTree tree.old tree.new walk.new.least)
        (λ _. 0 < names_declared (program_seen tree.old)) }
{
    walk.learn_memories(&tree.decls)?;
    walk.learn_functions(alloc, &tree.functions)?;
    walk.functions(alloc, &mut tree.functions)?;
    walk.command(alloc, &mut tree.body)
}

// The tree with the kinds of its expressions, unless a rule on kinds is broken.
fn settled(alloc: Global, tree: Tree, least: Option<Breach>) -> Result<Typed, PassFault>
    requires names { KeepsNames (program_seen tree) }
    requires entities { HasEntities (program_seen tree) }
    requires kinds { HasKinds (program_seen tree) }
    requires suits { least ≡ None → KeepsKinds (program_seen tree) }
    ensures { SettlesKinds tree least result }
{
    match least {
        Some(breach) => {
            tree.let_go();
            Err(PassFault::Refused {
                rule: breach.rule,
                place: breach.place,
            })
        }
        None => Ok(Typed::of(alloc, tree)?),
    }
}

/// Gives each expression of a program its kind, and refuses a program that breaks a rule on kinds, with
/// the breach that stands first.
///
/// # Errors
///
/// `Refused` with `TypeMismatch` where an operand, a right side, a condition, an index or a name is of
/// the wrong sort or sign, or with `WidthLost` at a number that is no value of its kind and at a right
/// side that is wider than its target. `NoMemory` where an allocation was refused; a program that declares
/// no name and breaks a rule takes none.
pub fn type_program(alloc: Global, named: Named) -> Result<Typed, PassFault>
    ensures { Answers (program_seen named) result }
{
    let mut tree = named.into_tree();
    let mut walk = Walk {
        facts: Vec::new(alloc),
        least: None,
    };
    match walk_tree(alloc, &mut walk, &mut tree) {
        Ok(()) => settled(alloc, tree, walk.least),
        Err(NoMemory) => {
            tree.let_go();
            Err(PassFault::NoMemory)
        }
    }
}
