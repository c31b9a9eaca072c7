//! The names that were read last, so that equal names share one text.

ghost use Rattle.std.specs.Prelude.{◌≡◌, IfOk, IfSome, IsTrue};
ghost use Rattle.dh_lexer.specs.KnownWords.{IsFree, AreFree};

use dh_base::NoMemory;
use dh_tree::Name;
use std::alloc::Global;
use std::marker::Model;

/// How many names are kept.
const MOST: usize = 1024;

/// Names, each at a place that its letters tell, where the last one with that place stands. An equal name
/// is shared where it is there and made where it is not, so that what is kept changes no token. None is a
/// word of the language: what is found here needs no look among the words.
#[derive(Drop)]
pub(crate) struct KnownNames {
    names: Vec<Option<Name>>,
}

impl Model for KnownNames {
    ghost use Rattle.std.specs.Prelude.{List, ℕ, Option};
    ghost use Rattle.dh_lexer.specs.KnownWords.{AreFree};

    ghost Value = { List (Option (List ℕ)) };

    ghost view = { λ k. k.names.items };

    ghost invariant = { λ k. AreFree k.names.items };
}

impl KnownNames {
    /// No names.
    pub(crate) fn new(alloc: Global) -> Result<KnownNames, NoMemory> {
        let names = no_names(alloc)?;
        Ok(KnownNames { names })
    }

    /// The name that these bytes with this code are, if it is known.
    pub(crate) fn find(&self, code: u32, bytes: &[u8]) -> Option<&Name>
        ensures { IfSome result (λ name. (name.now ≡ bytes.now) × IsFree bytes.now) }
    {
        known_at(self.names.as_slice(), place_of(code), bytes)
    }

    /// The name of this text with this code, which is known from now on.
    pub(crate) fn add(&mut self, alloc: Global, code: u32, text: &str) -> Result<Name, NoMemory>
        requires { IsFree text.now }
        ensures { IfOk result (λ name. name ≡ text.now) }
    {
        let name = Name::new(alloc, String::from_str(alloc, text)?)?;
        let known = name.try_clone(alloc)?;
        keep(self.names.as_mut_slice(), place_of(code), known);
        Ok(name)
    }
}

/// All places without names.
fn no_names(alloc: Global) -> Result<Vec<Option<Name>>, NoMemory>
    ensures { IfOk result (λ names. AreFree names.items) }
{
    let mut names = Vec::with_capacity(alloc, MOST)?;
    for _ in 0..MOST {
        names.push(None)?;
    }
    Ok(names)
}

/// The name at a place, if it has these bytes.
fn known_at<'n>(names: &'n [Option<Name>], place: usize, bytes: &[u8]) -> Option<&'n Name>
    requires { AreFree names.now }
    ensures { IfSome result (λ name. (name.now ≡ bytes.now) × IsFree bytes.now) }
{
    match names.get(place) {
        Some(known) => match known {
            Some(name) => {
                if are_equal(name.as_str().as_bytes(), bytes) {
                    Some(name)
                } else {
                    None
                }
            }
            None => None,
        },
        None => None,
    }
}

/// Puts a name at a place, if there is one.
fn keep(names: &mut [Option<Name>], place: usize, name: Name)
    requires { AreFree names.old × IsFree name }
    ensures { AreFree names.new }
{
    if place < names.len() {
        names[place] = Some(name);
    }
}

/// Whether the bytes are equal. They are those of names, of which most have few.
fn are_equal(left: &[u8], right: &[u8]) -> bool
    ensures { IsTrue result → left.now ≡ right.now }
{
    if left.len() != right.len() {
        return false;
    }
    for i in 0..left.len() {
        if left[i] != right[i] {
            return false;
        }
    }
    true
}

/// The code of letters of which the last is this one, by that of the others.
pub(crate) fn code_with(code: u32, letter: u8) -> u32 {
    code.wrapping_mul(31).wrapping_add(letter as u32)
}

/// The place that a code tells.
fn place_of(code: u32) -> usize {
    code as usize % MOST
}
