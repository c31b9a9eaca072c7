//! Names where they are used and declared.

ghost use Rattle.std.specs.Prelude.{◌≡◌, ◌++◌, ◌∷◌, [], OnOk};
ghost use Rattle.dh_tree.specs.Scopes.{entity_of, entity};
ghost use Rattle.dh_tree.specs.Breaches.{unknown, twice};
ghost use Rattle.dh_tree.specs.Resolved.{used};
ghost use Rattle.dh_names.specs.Visible.{visible, Binds, LeastBy};

use crate::bindings::Bindings;
use dh_base::{NoMemory, Rule};
use dh_tree::{Breach, Entity, Name, Ref, Sort, keep_least};
use std::alloc::Global;

/// The names that are visible: those that a function sees of the program, none in the program's body,
/// and those of the function or the program's body.
pub struct VisibleNames {
    /// Those seen of the program.
    pub outer: Bindings,
    /// Those of the function or the program's body.
    pub own: Bindings,
}

/// A call, and not the drop of each map where names are dropped: that is long, and would stand in the
/// proof of each such function.
impl Drop for VisibleNames {
    fn drop(self) {
        let VisibleNames {
            outer: _outer,
            own: _own,
        } = self;
    }
}

impl VisibleNames {
    // The number of what the name stands for among those seen of the program. A program without
    // functions has none of them, and nothing is looked for.
    fn find_outer(&self, name: &Name) -> Option<u32>
        ensures { result ≡ entity_of self.now.outer name.now }
    {
        if self.outer.len() == 0 {
            return None;
        }
        self.outer.find(name)
    }

    /// The number of what the name stands for, where it is visible.
    pub fn find(&self, name: &Name) -> Option<u32>
        ensures { result ≡ entity_of (visible self.now) name.now }
    {
        match self.find_outer(name) {
            Some(entity) => Some(entity),
            None => self.own.find(name),
        }
    }
}

/// Gives a name that is used its number, and keeps the breach where it is not visible.
pub fn resolve_use(names: &VisibleNames, least: &mut Option<Breach>, name: &mut Ref)
    ensures tree { name.new ≡ used (visible names.now) name.old }
    ensures least { LeastBy unknown names.now least.old least.new name.old }
{
    name.entity = names.find(&name.name);
    if name.entity.is_none() {
        keep_least(
            least,
            Breach {
                rule: Rule::UnknownName,
                place: name.place,
            },
        );
    }
}

/// Makes a name visible that is declared as entity number `entity`, and keeps the breach where it is
/// visible already. After want of memory names and breach are as before.
pub fn bind_name(
    alloc: Global,
    names: &mut VisibleNames,
    least: &mut Option<Breach>,
    name: &Ref,
    entity: u32,
) -> Result<(), NoMemory>
    ensures outer { names.new.outer ≡ names.old.outer }
    ensures names { Binds (visible names.old) (visible names.new) name.now.name entity result }
    ensures least { LeastBy twice names.old least.old least.new name.now }
{
    if names.find(&name.name).is_some() {
        keep_least(
            least,
            Breach {
                rule: Rule::NameTwice,
                place: name.place,
            },
        );
        return Ok(());
    }
    names.own.add(alloc, &name.name, entity)
}

/// Lists what a name stands for that is declared, behind the others.
pub fn list_entity(
    alloc: Global,
    entities: &mut Vec<Entity>,
    name: &Ref,
    sort: Sort,
) -> Result<(), NoMemory>
    ensures { OnOk result (entities.new.items ≡ entities.old.items ++ entity name.now sort ∷ []) }
{
    entities.push(Entity {
        name: name.name.try_clone(alloc)?,
        place: name.place,
        sort,
    })?;
    Ok(())
}
