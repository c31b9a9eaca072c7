//! Accepted programs.

ghost use Rattle.std.specs.Prelude.{◌≡◌};
ghost use Rattle.dh_tree.specs.Seen.{program_seen};
ghost use Rattle.dh_meets.specs.Ports.{KeepsPortRules};
ghost use Rattle.dh_tree.specs.Ready.{IsReady};

use dh_tree::{Tree, Typed};
use std::marker::Model;

/// A program that breaks no rule and exceeds no limit, each of its names with what it stands for and
/// each of its expressions with its kind. A contract sees its tree.
#[derive(Drop)]
pub struct Accepted {
    typed: Typed,
}

impl Model for Accepted {
    ghost use Rattle.std.specs.Coded.{codes};
    ghost use Rattle.dh_tree.specs.contracts.trees.commands.Command as command;
    ghost use Rattle.dh_tree.specs.declared.trees.programs.Tree.{Tree};
    ghost use Rattle.dh_tree.specs.Seen.{program_seen};
    ghost use Rattle.dh_meets.specs.Ports.{KeepsPortRules};
    ghost use Rattle.dh_tree.specs.Ready.{IsReady};

    ghost Value = { Tree };

    ghost coded = { Prim.hlevel (codes, command.the_row.coded) };

    ghost view = { λ a. a.typed };

    ghost invariant = { λ a. IsReady (program_seen a.typed)
        × KeepsPortRules (program_seen a.typed) };
}

impl Accepted {
    /// The accepted program of this tree.
    pub(crate) fn of(typed: Typed) -> Accepted
        requires ready { IsReady (program_seen typed) }
        requires kept { KeepsPortRules (program_seen typed) }
        ensures { result ≡ typed }
    {
        Accepted { typed }
    }

    /// Its typed tree, with the table of its memories.
    pub fn typed(&self) -> &Typed
        ensures typed { result.now ≡ self.now }
        ensures ready { IsReady (program_seen self.now) }
        ensures kept { KeepsPortRules (program_seen self.now) }
    {
        &self.typed
    }

    /// Its tree.
    pub fn tree(&self) -> &Tree
        ensures tree { result.now ≡ self.now }
        ensures ready { IsReady (program_seen result.now) }
        ensures kept { KeepsPortRules (program_seen result.now) }
    {
        self.typed.tree()
    }
}
