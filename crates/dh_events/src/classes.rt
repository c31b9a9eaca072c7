//! Numbers for keys of accesses: two of them have one number where they are equal.
//!
//! Accesses mostly come phase by phase, and keys of different phases are never equal. So the keys of
//! past phases need only keep their numbers, and the table in which keys are sought stays small.

ghost use Rattle.std.specs.Prelude.{◌≡◌, ◌<◌, [], IfOk, OnOk, length};
ghost use Rattle.indexmap.specs.IndexSet.{insert_all};
ghost use Rattle.dh_events.specs.Classes.{KeysAreDistinct, ArePhased, FindsKeyNumber, IsTurnedTo, IsTurnedToAll, KeepsAllKeys, NumbersKey, all_keys, is_same};
ghost use Rattle.dh_events.specs.Digests as digests;

use crate::digests::joined;
use dh_base::NoMemory;
use indexmap::IndexSet;
use std::alloc::Global;
use std::hash::{Hash, Hasher};
use std::marker::Model;

/// What accesses of one class have in common.
#[derive(Clone, Copy, PartialEq, Eq)]
pub struct Key {
    /// Their Straight phase.
    pub phase: u32,
    /// What their memory's name stands for; 0 where banks are told.
    pub entity: u32,
    /// The structure of their indices, or their bank by its number among all banks.
    pub element: usize,
    /// The moment behind the last assignment to a variable in their indices; 0 where banks are
    /// told.
    pub newest: usize,
}

// The number by which a key is sought.
fn key_digest(key: Key) -> usize
    ensures { result ≡ digests.of_key key }
{
    let place = joined(key.phase as usize, key.entity as usize);
    joined(joined(place, key.element), key.newest)
}

// A write of one word in place of four.
impl Hash for Key {
    ghost use Rattle.std.specs.Hash as fed;
    ghost use Rattle.std.proofs.Common.{ap};
    ghost use Rattle.dh_events.specs.Digests.{of_key};
    ghost use Rattle.dh_events.specs.AlikeDigests.{alike_keys};

    ghost hash_input = { λ k. fed.usize (of_key k) };

    ghost respects_eq = { λ x y h. ap fed.usize (alike_keys x y h) };

    fn hash<H: Hasher>(&self, state: &mut H) {
        state.write_usize(key_digest(*self));
    }
}

/// Keys, those of past phases apart.
#[derive(Drop)]
pub struct PhaseKeys {
    /// Keys of past phases, which are not sought.
    past: Vec<Key>,
    /// Those behind them.
    known: IndexSet<Key>,
    /// The newest phase: keys become past when one of a later phase comes.
    newest: u32,
}

/// How many keys a table may have held that is kept for the next phase: to empty a larger one for
/// each of many small phases would take long.
const SMALL: usize = 64;

/// No keys, of which none become past before a phase later than this one comes.
fn none_until(alloc: Global, newest: u32) -> PhaseKeys
    ensures none { all_keys result.past.items result.known.keys ≡ [] }
    ensures phased { ArePhased result.past.items result.known.keys result.newest }
{
    PhaseKeys {
        past: Vec::new(alloc),
        known: IndexSet::new(alloc),
        newest,
    }
}

/// Takes all keys out of a table.
fn empty(known: &mut IndexSet<Key>)
    ensures { known.new.keys ≡ [] }
{
    if known.len() > SMALL {
        let alloc = *known.allocator();
        *known = IndexSet::new(alloc);
    } else {
        known.clear();
    }
}

/// Makes the keys so far past, since one of a later phase comes.
fn pass(parts: &mut PhaseKeys, phase: u32) -> Result<(), NoMemory>
    requires phased { ArePhased parts.old.past.items parts.old.known.keys parts.old.newest }
    requires later { parts.old.newest < phase }
    ensures same { KeepsAllKeys parts.old.past.items parts.old.known.keys
        parts.new.past.items parts.new.known.keys }
    ensures phased { ArePhased parts.new.past.items parts.new.known.keys parts.new.newest }
    ensures turned { OnOk result (IsTurnedTo phase parts.new.past.items parts.new.newest) }
{
    parts.past.extend_from_slice(parts.known.as_slice())?;
    empty(&mut parts.known);
    parts.newest = phase;
    Ok(())
}

/// Puts keys into a table.
fn insert_keys(known: &mut IndexSet<Key>, keys: &[Key]) -> Result<(), NoMemory>
    ensures { OnOk result (known.new.keys ≡ insert_all is_same known.old.keys keys.now) }
{
    for key in keys {
        known.insert(*key)?;
    }
    Ok(())
}

/// Seeks all keys from here on, since one of an earlier phase comes.
fn gather(parts: &mut PhaseKeys) -> Result<(), NoMemory>
    requires phased { ArePhased parts.old.past.items parts.old.known.keys parts.old.newest }
    ensures same { KeepsAllKeys parts.old.past.items parts.old.known.keys
        parts.new.past.items parts.new.known.keys }
    ensures phased { ArePhased parts.new.past.items parts.new.known.keys parts.new.newest }
    ensures turned { OnOk result (IsTurnedToAll parts.new.past.items parts.new.newest) }
{
    let mut all = IndexSet::new(*parts.past.allocator());
    insert_keys(&mut all, parts.past.as_slice())?;
    insert_keys(&mut all, parts.known.as_slice())?;
    parts.past.clear();
    parts.known = all;
    parts.newest = u32::MAX;
    Ok(())
}

/// Sees to it that no key of a phase is past.
fn turn_to(parts: &mut PhaseKeys, phase: u32) -> Result<(), NoMemory>
    requires phased { ArePhased parts.old.past.items parts.old.known.keys parts.old.newest }
    ensures same { KeepsAllKeys parts.old.past.items parts.old.known.keys
        parts.new.past.items parts.new.known.keys }
    ensures phased { ArePhased parts.new.past.items parts.new.known.keys parts.new.newest }
    ensures turned { OnOk result (IsTurnedTo phase parts.new.past.items parts.new.newest) }
{
    if parts.newest < phase {
        pass(parts, phase)
    } else if phase < parts.newest && !parts.past.is_empty() {
        gather(parts)
    } else {
        Ok(())
    }
}

/// The number of a key.
fn number_in(parts: &mut PhaseKeys, key: Key) -> Result<usize, NoMemory>
    requires phased { ArePhased parts.old.past.items parts.old.known.keys parts.old.newest }
    ensures phased { ArePhased parts.new.past.items parts.new.known.keys parts.new.newest }
    ensures numbers { IfOk result (λ n. NumbersKey (all_keys parts.old.past.items parts.old.known.keys)
        (all_keys parts.new.past.items parts.new.known.keys) key n) }
{
    turn_to(parts, key.phase)?;
    let found = parts.known.insert_full(key)?;
    // fewer than half of what a word counts
    let _ = parts.known.len();
    Ok(parts.past.len() + found.0)
}

/// The place of a key among past ones, where it is there.
fn find_past(past: &[Key], key: Key) -> Option<usize>
    ensures { FindsKeyNumber past.now key result }
{
    for place in 0..past.len() {
        if past[place] == key {
            return Some(place);
        }
    }
    None
}

/// Keys, each with the number of its place.
#[derive(Drop)]
pub struct Classes {
    parts: PhaseKeys,
}

impl Model for Classes {
    ghost use Rattle.std.specs.Prelude.{List};
    ghost use Rattle.dh_events.specs.declared.classes.Key.{Key};
    ghost use Rattle.dh_events.specs.Classes.{all_keys, ArePhased};

    ghost Value = { List Key };

    ghost view = { λ c. all_keys c.parts.past.items c.parts.known.keys };

    ghost invariant = { λ c. ArePhased c.parts.past.items c.parts.known.keys c.parts.newest };
}

impl Classes {
    /// None; keys of all phases are sought alike.
    pub fn new(alloc: Global) -> Classes
        ensures { result ≡ [] }
    {
        Classes {
            parts: none_until(alloc, u32::MAX),
        }
    }

    /// None; those to come mostly come phase by phase, and none is sought without a number for it.
    pub fn by_phase(alloc: Global) -> Classes
        ensures { result ≡ [] }
    {
        Classes {
            parts: none_until(alloc, 0),
        }
    }

    /// The number of a key.
    pub fn number(&mut self, key: Key) -> Result<usize, NoMemory>
        ensures numbers { IfOk result (λ n. NumbersKey self.old self.new key n) }
    {
        number_in(&mut self.parts, key)
    }

    /// The number of a key, where it has one.
    pub fn find(&self, key: Key) -> Option<usize>
        ensures { FindsKeyNumber self.now key result }
    {
        // fewer than half of what a word counts
        let _ = self.parts.known.len();
        match self.parts.known.get_index_of(&key) {
            Some(place) => Some(self.parts.past.len() + place),
            None => find_past(self.parts.past.as_slice(), key),
        }
    }

    /// How many there are.
    pub fn len(&self) -> usize
        ensures long { result ≡ length self.now }
        ensures distinct { KeysAreDistinct self.now }
    {
        self.parts.past.len() + self.parts.known.len()
    }
}
