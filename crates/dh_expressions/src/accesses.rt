//! The accesses of a program as operations were made of them: their copies, their faults, and
//! what reads gave.

ghost use Rattle.std.specs.Prelude.{◌≡◌, ◌<◌, IfOk, OnOk, Some, length, slice_set};
ghost use Rattle.dh_tree.specs.Seen.{term_seen};
ghost use Rattle.dh_expressions.specs.Noted.{IsUntouched, Notes, copied_in, fault_in, given_in, given_then, has_no_operations, noted_in};
ghost use Rattle.dh_expressions.specs.Touching.{TouchesAccess};

use crate::copies::{AccessAt, copies_of};
use crate::drafts::{Draft, name_fault};
use crate::scenes::{Around, Scene};
use dh_base::{Items, NoMemory};
use dh_tree::Expr;

/// An access of which operations were made.
#[derive(Drop)]
pub struct Touched {
    /// The number of its fault.
    pub fault: u32,
    /// Its copies, by the numbers of their paths.
    pub copies: Items<AccessAt>,
    /// Of a read what it gives at each path so far.
    pub given: Items<u64>,
}

/// The accesses of a program, by their numbers.
#[derive(Drop)]
pub struct Accesses {
    /// Those of which operations were made.
    pub touched: Vec<Option<Touched>>,
    // how many copies of an access reach each bank, while they are made; none between accesses
    counts: Vec<usize>,
}

/// So many accesses, of which none has operations.
pub fn untouched(scene: &Scene<'_>) -> Result<Accesses, NoMemory>
    ensures { IfOk result (λ a. IsUntouched a (length scene.now.shares.now)) }
{
    let mut touched = Vec::new(scene.alloc);
    for _ in 0..scene.shares.len() {
        touched.push(None)?;
    }
    Ok(Accesses {
        touched,
        counts: Vec::new(scene.alloc),
    })
}

/// Whether there is an access of this number, and it has no operations.
fn is_bare_at(accesses: &Accesses, number: u32) -> bool
    ensures { result ≡ has_no_operations accesses.now number }
{
    match accesses.touched.get(number as usize) {
        Some(Some(_)) => false,
        Some(None) => true,
        None => false,
    }
}

/// Puts down an access with its operations.
fn put_touched(list: &mut Vec<Option<Touched>>, number: u32, touched: Touched)
    requires there { number < length list.old.items }
    ensures { list.new.items ≡ slice_set list.old.items number (Some touched) }
{
    list[number as usize] = Some(touched);
}

/// Begins the operations of an access of this number, where it has none yet.
pub fn touch(
    scene: &Scene<'_>,
    around: Around<'_>,
    draft: &mut Draft,
    accesses: &mut Accesses,
    number: u32,
    memory: usize,
    access: &Expr,
    writes: bool,
) -> Result<(), NoMemory>
    ensures { OnOk result (TouchesAccess scene.now around.entry memory (term_seen access.now) writes
        draft.old draft.new accesses.old accesses.new number) }
{
    if !is_bare_at(accesses, number) {
        return Ok(());
    }
    let fault = name_fault(draft, access.place)?;
    let numbers = &mut accesses.counts;
    let copies = copies_of(scene, around, draft, numbers, memory, access, writes)?;
    let touched = Touched {
        fault,
        copies: Items::from_vec(copies),
        given: Items::new(scene.alloc),
    };
    put_touched(&mut accesses.touched, number, touched);
    Ok(())
}

/// What a read gives at a path; None where it was not made there.
pub fn given_at(accesses: &Accesses, number: u32, path: u64) -> Option<u64>
    ensures { result ≡ given_in accesses.now number path }
{
    match accesses.touched.get(number as usize) {
        Some(Some(touched)) => match touched.given.as_slice().get(path as usize) {
            Some(value) => Some(*value),
            None => None,
        },
        Some(None) => None,
        None => None,
    }
}

/// Adds what a read gives at a path, where that is the next one.
fn note(given: &mut Items<u64>, path: u64, value: u64) -> Result<(), NoMemory>
    ensures { OnOk result (given.new ≡ given_then given.old path value) }
{
    if given.len() as u64 == path {
        given.push(value)?;
    }
    Ok(())
}

/// The same of an access that may have no operations.
fn note_in(touched: &mut Option<Touched>, path: u64, value: u64) -> Result<(), NoMemory>
    ensures { OnOk result (touched.new ≡ noted_in touched.old path value) }
{
    if let Some(touched) = touched {
        note(&mut touched.given, path, value)?;
    }
    Ok(())
}

/// Notes what a read gives at a path, where that is the next one.
pub fn give(accesses: &mut Accesses, number: u32, path: u64, value: u64) -> Result<(), NoMemory>
    ensures { OnOk result (Notes accesses.old accesses.new number path value) }
{
    let at = number as usize;
    if at < accesses.touched.len() {
        note_in(&mut accesses.touched[at], path, value)?;
    }
    Ok(())
}

/// An access at a path; where there is none one that stands for itself.
pub fn copy_of(accesses: &Accesses, number: u32, path: u64) -> AccessAt
    ensures { result ≡ copied_in accesses.now number path }
{
    let none = AccessAt {
        leader: path,
        bank: 0,
        place: 0,
        guard: None,
    };
    match accesses.touched.get(number as usize) {
        Some(Some(touched)) => match touched.copies.as_slice().get(path as usize) {
            Some(copy) => *copy,
            None => none,
        },
        Some(None) => none,
        None => none,
    }
}

/// The number of the fault of an access; 0 where it has no operations.
pub fn fault_of(accesses: &Accesses, number: u32) -> u32
    ensures { result ≡ fault_in accesses.now number }
{
    match accesses.touched.get(number as usize) {
        Some(Some(touched)) => touched.fault,
        Some(None) => 0,
        None => 0,
    }
}
