//! The variables that keep the offsets of views.

ghost use Rattle.std.specs.Prelude.{◌≡◌, ◌+◌, ◌<◌, ◌++◌, length, map, IfOk, OnOk};
ghost use Rattle.dh_tree.specs.Seen.{program_seen, term_seen};
ghost use Rattle.dh_tree.specs.ViewOffsets.{offsets_of};
ghost use Rattle.dh_meaning.specs.Bindings.{kind_found};
ghost use Rattle.dh_ways.specs.CutStands.{HasFewWays};
ghost use Rattle.dh_ways.specs.Stands.{all_own, hidden_at, hidden_of_program, own_of, stand_seen};

use crate::standing::{Stood, standing_in};
use crate::variables::Own;
use crate::ways::Hidden;
use dh_base::{Items, NoMemory};
use dh_tree::{Expr, Typed, ViewForm};
use dh_value::Kind;
use std::alloc::Global;

/// The entity that stands so many behind another.
pub(crate) fn entity_behind(first: u32, count: usize) -> u32
    requires { first + count < 4294967296 }
    ensures { result ≡ first + count }
{
    first + count as u32
}

/// The kind of an offset.
fn kind_of(offset: &Expr) -> Kind
    ensures { result ≡ kind_found (term_seen offset.now) }
{
    match offset.kind {
        Some(kind) => kind,
        None => Kind::Bool,
    }
}

/// The variables of these offsets, the first of which is this entity.
fn hide_all(
    alloc: Global,
    first: u32,
    depth: u32,
    copies: u64,
    offsets: &[Expr],
) -> Result<Items<Hidden>, NoMemory>
    requires few { first + length offsets.now < 4294967296 }
    ensures { IfOk result (λ hidden. hidden
        ≡ hidden_at first depth copies (map term_seen offsets.now)) }
{
    let mut hidden = Items::with_room(alloc, offsets.len())?;
    for (i, offset) in offsets.iter().enumerate() {
        let entity = entity_behind(first, i);
        let kind = kind_of(offset);
        hidden.push(Hidden {
            entity,
            kind,
            depth,
            copies,
        })?;
    }
    Ok(hidden)
}

/// Those of the offsets of a suffix.
fn hide_pairs(
    alloc: Global,
    first: u32,
    depth: u32,
    copies: u64,
    by: &[(u64, Expr)],
) -> Result<Items<Hidden>, NoMemory>
    requires few { first + length by.now < 4294967296 }
    ensures { IfOk result (λ hidden. hidden
        ≡ hidden_at first depth copies (map (λ p. term_seen p.1) by.now)) }
{
    let mut hidden = Items::with_room(alloc, by.len())?;
    for (i, pair) in by.iter().enumerate() {
        let entity = entity_behind(first, i);
        let kind = kind_of(&pair.1);
        hidden.push(Hidden {
            entity,
            kind,
            depth,
            copies,
        })?;
    }
    Ok(hidden)
}

/// The variables of these offsets, as a view holds them.
fn own_all(
    alloc: Global,
    first: u32,
    depth: u32,
    copies: u64,
    offsets: &[Expr],
) -> Result<Own, NoMemory>
    requires few { first + length offsets.now < 4294967296 }
    ensures { IfOk result (λ own. own ≡ hidden_at first depth copies (map term_seen offsets.now)) }
{
    if offsets.len() != 1 {
        return Ok(Own::of(hide_all(alloc, first, depth, copies, offsets)?));
    }
    let kind = kind_of(&offsets[0]);
    Ok(Own::alone(Hidden {
        entity: first,
        kind,
        depth,
        copies,
    }))
}

/// Those of the offsets of a suffix.
fn own_pairs(
    alloc: Global,
    first: u32,
    depth: u32,
    copies: u64,
    by: &[(u64, Expr)],
) -> Result<Own, NoMemory>
    requires few { first + length by.now < 4294967296 }
    ensures { IfOk result (λ own. own
        ≡ hidden_at first depth copies (map (λ p. term_seen p.1) by.now)) }
{
    if by.len() != 1 {
        return Ok(Own::of(hide_pairs(alloc, first, depth, copies, by)?));
    }
    let kind = kind_of(&by[0].1);
    Ok(Own::alone(Hidden {
        entity: first,
        kind,
        depth,
        copies,
    }))
}

/// Those of the offsets of a view.
pub(crate) fn own_hidden(alloc: Global, first: u32, view: &Stood<'_>) -> Result<Own, NoMemory>
    requires few { first + length (offsets_of (stand_seen view.now).form) < 4294967296 }
    ensures { IfOk result (λ hidden. hidden ≡ own_of first (stand_seen view.now)) }
{
    match view.form {
        ViewForm::Shrink { .. } => Ok(Own::of(Items::new(alloc))),
        ViewForm::Split { .. } => Ok(Own::of(Items::new(alloc))),
        ViewForm::Suffix { by, .. } => {
            own_pairs(alloc, first, view.depth, view.copies, by.as_slice())
        }
        ViewForm::Shift { by } => own_all(alloc, first, view.depth, view.copies, by.as_slice()),
    }
}

/// Adds variables behind others.
pub(crate) fn append(hidden: &mut Items<Hidden>, more: &[Hidden]) -> Result<(), NoMemory>
    ensures { OnOk result (hidden.new ≡ hidden.old ++ more.now) }
{
    for one in more {
        hidden.push(*one)?;
    }
    Ok(())
}

/// Those of these views, one behind the other.
fn hide_views(alloc: Global, first: u32, stood: &[Stood<'_>]) -> Result<Items<Hidden>, NoMemory>
    requires few { first + length (all_own first (map stand_seen stood.now)) < 4294967296 }
    ensures { IfOk result (λ hidden. hidden ≡ all_own first (map stand_seen stood.now)) }
{
    let mut hidden = Items::new(alloc);
    for view in stood {
        let next = entity_behind(first, hidden.len());
        let own = own_hidden(alloc, next, view)?;
        append(&mut hidden, own.as_slice())?;
    }
    Ok(hidden)
}

/// The number of the first entity behind the names of a program.
pub(crate) fn first_hidden(typed: &Typed) -> u32
    requires few { length (program_seen typed.now).entities < 4294967296 }
    ensures { result ≡ length (program_seen typed.now).entities }
{
    entity_behind(0, typed.tree().entities.len())
}

/// The variables that keep the offsets of a program's views, in text order: their entities follow one
/// another behind those of the program's names.
///
/// # Errors
///
/// `NoMemory`, the one error; no clause tells when.
pub fn hidden_in(alloc: Global, typed: &Typed) -> Result<Items<Hidden>, NoMemory>
    requires few { HasFewWays (program_seen typed.now) }
    ensures { IfOk result (λ hidden. hidden ≡ hidden_of_program (program_seen typed.now)) }
{
    let stood = standing_in(alloc, typed)?;
    let first = first_hidden(typed);
    hide_views(alloc, first, stood.as_slice())
}
