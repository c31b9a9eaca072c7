//! Trees whose names are resolved.

ghost use Rattle.std.specs.Prelude.{◌≡◌};
ghost use Rattle.dh_tree.specs.Seen.{program_seen};
ghost use Rattle.dh_tree.specs.Breaches.{KeepsNames};
ghost use Rattle.dh_tree.specs.Resolved.{HasEntities};

use crate::trees::Tree;
use std::marker::Model;

/// A tree whose every name has the number of what it stands for, and that breaks no rule on names: no
/// name is used where it is not visible, and none is declared where it is visible already. A contract
/// sees its tree.
#[derive(Drop)]
pub struct Named {
    tree: Tree,
}

impl Model for Named {
    ghost use Rattle.std.specs.Coded.{codes};
    ghost use Rattle.dh_tree.specs.contracts.trees.commands.Command as command;
    ghost use Rattle.dh_tree.specs.declared.trees.programs.Tree.{Tree};
    ghost use Rattle.dh_tree.specs.Seen.{program_seen};
    ghost use Rattle.dh_tree.specs.Breaches.{KeepsNames};
    ghost use Rattle.dh_tree.specs.Resolved.{HasEntities};

    ghost Value = { Tree };

    ghost coded = { Prim.hlevel (codes, command.the_row.coded) };

    ghost view = { λ n. n.tree };

    ghost invariant = { λ n. KeepsNames (program_seen n.tree) × HasEntities (program_seen n.tree) };
}

impl Named {
    /// The tree, whose names are resolved.
    pub fn of(tree: Tree) -> Named
        requires names { KeepsNames (program_seen tree) }
        requires entities { HasEntities (program_seen tree) }
        ensures { result ≡ tree }
    {
        Named { tree }
    }

    /// The tree.
    pub fn into_tree(self) -> Tree
        ensures tree { result ≡ self }
        ensures names { KeepsNames (program_seen self) }
        ensures entities { HasEntities (program_seen self) }
    {
        self.tree
    }

    /// The tree.
    pub fn tree(&self) -> &Tree
        ensures tree { result.now ≡ self.now }
        ensures names { KeepsNames (program_seen self.now) }
        ensures entities { HasEntities (program_seen self.now) }
    {
        &self.tree
    }
}
