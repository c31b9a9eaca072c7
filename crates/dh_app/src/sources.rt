//! What jobs read: the program of a file, and the memories that another holds.

ghost use Rattle.std.specs.Prelude.{◌≤◌, length, true, IfOk};
ghost use Rattle.dh_base.specs.Outside.{KeepsFiles};
ghost use Rattle.dh_tree.specs.Shapes.{IsProgramTable};
ghost use Rattle.dh_tree.specs.Tables.{Fits};
ghost use Rattle.dh_app.specs.Asking.{interpreted};
ghost use Rattle.dh_app.specs.Parts.{SaysFault, FileRead, ProgramOf, AcceptedRead, TypedOf, UncheckedRead, DataOf, SecondRead};
ghost use Rattle.dh_app.specs.Replies.{reply_seen};

use crate::lines::{bad_data_line, refused_line, too_large_line};
use crate::replies::{Reply, reply_with, too_large};
use dh_base::{Excess, FileFault, Files, Limit, Status};
use dh_check::{Accepted, CheckFault, check, check_without_ports};
use dh_tree::{MemTable, Memories, Typed};
use std::alloc::Global;

/// The bytes of a file, if they are within a limit.
fn read_file<F: Files>(
    alloc: Global,
    name: &str,
    limit: Limit,
    files: &mut F,
) -> Result<Vec<u8>, Reply>
    ensures files { KeepsFiles (F.seen files.old) (F.seen files.new) }
    ensures read { FileRead (F.seen files.old) (F.seen files.new) name.now limit result }
{
    match files.read(alloc, name, limit.greatest()) {
        Ok(bytes) => Ok(bytes),
        Err(FileFault::Failed) => Err(Reply::ReadFault),
        Err(FileFault::TooLong) => Err(too_large(alloc, limit)),
        Err(FileFault::NoMemory) => Err(Reply::NoMemory),
    }
}

/// The program of a file, accepted, or the line of its verdict.
pub fn read_program<F: Files>(alloc: Global, name: &str, files: &mut F) -> Result<Accepted, Reply>
    ensures files { KeepsFiles (F.seen files.old) (F.seen files.new) }
    ensures read { AcceptedRead (F.seen files.old) (F.seen files.new) name.now result }
{
    let text = read_file(alloc, name, Limit::Source, files)?;
    program_of(alloc, text.as_slice())
}

/// The program of a file, whose ports are not judged, or the line of its verdict.
pub fn read_typed<F: Files>(alloc: Global, name: &str, files: &mut F) -> Result<Typed, Reply>
    ensures files { KeepsFiles (F.seen files.old) (F.seen files.new) }
    ensures read { UncheckedRead (F.seen files.old) (F.seen files.new) name.now result }
{
    let text = read_file(alloc, name, Limit::Source, files)?;
    typed_of(alloc, text.as_slice())
}

/// The program of a text, or the line of its verdict.
fn program_of(alloc: Global, text: &[u8]) -> Result<Accepted, Reply>
    requires { length text.now ≤ 1048576 }
    ensures program { ProgramOf true text.now result }
{
    match check(alloc, text) {
        Ok(accepted) => Ok(accepted),
        Err(fault) => Err(fault_line(alloc, fault)),
    }
}

/// The program of a text, whose ports are not judged, or the line of its verdict.
fn typed_of(alloc: Global, text: &[u8]) -> Result<Typed, Reply>
    requires { length text.now ≤ 1048576 }
    ensures { TypedOf (interpreted true) text.now result }
{
    match check_without_ports(alloc, text) {
        Ok(typed) => Ok(typed),
        Err(fault) => Err(fault_line(alloc, fault)),
    }
}

/// The line of a fault of the check.
fn fault_line(alloc: Global, fault: CheckFault) -> Reply
    ensures { SaysFault fault (reply_seen result) }
{
    match fault {
        CheckFault::Refused { rule, place } => {
            reply_with(Status::Refused, refused_line(alloc, rule, place))
        }
        CheckFault::TooLarge { limit, count } => {
            let excess = Excess { limit, count };
            reply_with(Status::TooLarge, too_large_line(alloc, excess))
        }
        CheckFault::NoMemory => Reply::NoMemory,
    }
}

/// The memories of a table that a data file holds, or the line of its fault. It is the second file
/// that a job reads.
pub fn read_memories<F: Files>(
    alloc: Global,
    name: &str,
    table: &MemTable,
    files: &mut F,
) -> Result<Memories, Reply>
    requires { IsProgramTable table.now }
    ensures files { KeepsFiles (F.seen files.old) (F.seen files.new) }
    ensures fits { IfOk result (λ m. Fits table.now m) }
    ensures read { SecondRead (F.seen files.old) (F.seen files.new) name.now table.now result }
{
    let bytes = read_file(alloc, name, Limit::Data, files)?;
    memories_of(alloc, table, bytes.as_slice())
}

/// The memories that bytes hold, or the line of their fault.
fn memories_of(alloc: Global, table: &MemTable, bytes: &[u8]) -> Result<Memories, Reply>
    requires { IsProgramTable table.now }
    ensures { DataOf bytes.now table.now result }
{
    match dh_data::read(alloc, table, bytes) {
        Ok(memories) => Ok(memories),
        Err(fault) => Err(reply_with(Status::BadData, bad_data_line(alloc, table, &fault))),
    }
}
