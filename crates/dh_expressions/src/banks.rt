//! Which bank an access reaches at a path of what it names, a memory or a view, told by the first
//! turn of each loop. An access by indices tells it by each dimension, whose index is a literal or
//! an iterator with a literal added where there is more than one bank; an access of a row names
//! its bank.

ghost use Rattle.std.specs.Prelude.{◌≡◌, ◌%◌, ◌<◌, ◌-◌, ◌^◌, [], Some, min, pos, ◌+ℤ◌, unsigned_abs, map, slice_get, IfOk, OnOk};
ghost use Rattle.dh_tree.specs.Counters.{counters_of};
ghost use Rattle.dh_tree.specs.Elements.{dims_at};
ghost use Rattle.dh_tree.specs.Indices.{index_kind};
ghost use Rattle.dh_tree.specs.Memories.{same_entity, table_of};
ghost use Rattle.dh_tree.specs.Seen.{form_seen, program_seen, term_seen};
ghost use Rattle.dh_meaning.specs.CoreOf.{dims_by, way_of};
ghost use Rattle.dh_expressions.specs.Levels.{copy_to};
ghost use Rattle.dh_expressions.specs.Named.{known_in};
ghost use Rattle.dh_expressions.specs.Numbers.{narrowed};
ghost use Rattle.dh_expressions.specs.ReachedBanks.{AddsSpan, IsSpan, TellsBank, TellsSpans, level_with, span_bank, spans_number};

use crate::kinds::narrow;
use crate::naming::way_in;
use crate::paths::{Level, copy_at};
use crate::scenes::Scene;
use dh_base::NoMemory;
use dh_shape::{IndexKind, classify};
use dh_tree::{Dim, Expr, ExprForm, Ref};
use std::alloc::Global;

/// A dimension, as the number of a path tells its bank: by the size of `low + copy + offset`.
#[derive(Clone, Copy)]
pub struct BankSpan {
    /// The banks of the dimension.
    pub banks: u64,
    /// The banks of the dimensions behind it.
    pub times: u64,
    /// Where the iterator begins that its index is; 0 where it is none.
    pub low: u64,
    /// What is added to it.
    pub offset: i128,
    /// The loop whose copy is added; no loop's number where none is.
    pub level: usize,
}

/// Whether a loop has this iterator.
fn is_loop(level: Level, entity: u32) -> bool
    ensures { result ≡ same_entity level.entity (Some entity) }
{
    match level.entity {
        Some(own) => own == entity,
        None => false,
    }
}

/// The number of the loop that has an iterator; that of all loops where none has.
fn level_of(levels: &[Level], entity: u32) -> usize
    ensures { result ≡ level_with levels.now (Some entity) }
{
    for i in 0..levels.len() {
        if is_loop(levels[i], entity) {
            return i;
        }
    }
    levels.len()
}

/// A dimension whose index is a literal, or tells no bank.
fn fixed(levels: usize, banks: u64, times: u64, offset: i128) -> BankSpan
    ensures { result ≡ record {
      banks = banks;
      times = times;
      low = 0;
      offset = offset;
      level =
          levels;
    } }
{
    BankSpan {
        banks,
        times,
        low: 0,
        offset,
        level: levels,
    }
}

/// A dimension whose index is an iterator with a literal added.
fn counting(level: usize, banks: u64, times: u64, low: u64, offset: i128) -> BankSpan
    ensures { result ≡ record {
      banks = banks;
      times = times;
      low = low;
      offset = offset;
      level =
          level;
    } }
{
    BankSpan {
        banks,
        times,
        low,
        offset,
        level,
    }
}

/// A dimension, by its index.
fn span_of(scene: &Scene<'_>, levels: &[Level], banks: u64, times: u64, index: &Expr) -> BankSpan
    ensures { IsSpan levels.now (index_kind (counters_of (program_seen scene.now.program.now))
        index.now.kind (form_seen index.now.form)) banks times result }
{
    match classify(scene.program, index) {
        IndexKind::Constant(value) => fixed(levels.len(), banks, times, value),
        IndexKind::Iterator { entity, offset } => match scene.program.counter(entity) {
            Some(counter) => {
                let level = level_of(levels, entity);
                counting(level, banks, times, counter.low, offset)
            }
            None => fixed(levels.len(), banks, times, 0),
        },
        IndexKind::Dynamic => fixed(levels.len(), banks, times, 0),
    }
}

/// Adds a dimension by its index, unless its one bank tells nothing.
fn add_span(
    scene: &Scene<'_>,
    levels: &[Level],
    spans: &mut Vec<BankSpan>,
    banks: u64,
    times: u64,
    index: &Expr,
) -> Result<(), NoMemory>
    ensures { OnOk result (AddsSpan scene.now levels.now banks times (Some (term_seen index.now))
        spans.old.items spans.new.items) }
{
    if banks != 1 {
        spans.push(span_of(scene, levels, banks, times, index))?;
    }
    Ok(())
}

/// Adds the dimension of this number, where there is an index for it.
fn add_span_at(
    scene: &Scene<'_>,
    levels: &[Level],
    spans: &mut Vec<BankSpan>,
    banks: u64,
    times: u64,
    indices: &[Expr],
    number: usize,
) -> Result<(), NoMemory>
    ensures { OnOk result (AddsSpan scene.now levels.now banks times (slice_get (map term_seen
        indices.now) number) spans.old.items spans.new.items) }
{
    match indices.get(number) {
        Some(index) => add_span(scene, levels, spans, banks, times, index),
        None => Ok(()),
    }
}

/// The dimensions, the last one first.
fn spans_of(
    scene: &Scene<'_>,
    levels: &[Level],
    dims: &[Dim],
    indices: &[Expr],
) -> Result<Vec<BankSpan>, NoMemory>
    ensures { IfOk result (λ spans. TellsSpans scene.now levels.now dims.now (map term_seen
        indices.now) spans.items) }
{
    let mut spans = Vec::new(scene.alloc);
    let mut times: u64 = 1;
    for i in (0..dims.len()).rev() {
        let banks = dims[i].banks;
        add_span_at(scene, levels, &mut spans, banks, times, indices, i)?;
        times = times.saturating_mul(banks);
    }
    Ok(spans)
}

/// No dimension.
fn no_spans(alloc: Global) -> Vec<BankSpan>
    ensures { result.items ≡ [] }
{
    Vec::new(alloc)
}

/// The dimensions of a memory by indices; none where there is no such memory.
fn spans_in(
    scene: &Scene<'_>,
    levels: &[Level],
    memory: usize,
    indices: &[Expr],
) -> Result<Vec<BankSpan>, NoMemory>
    ensures { IfOk result (λ spans. TellsSpans scene.now levels.now (dims_at (table_of
        (program_seen scene.now.program.now)) memory) (map term_seen indices.now) spans.items) }
{
    match scene.program.memories().as_slice().get(memory) {
        Some(entry) => spans_of(scene, levels, entry.shape.dims.as_slice(), indices),
        None => Ok(no_spans(scene.alloc)),
    }
}

/// The dimensions of what a name stands for by indices: those of its memory, or of the view.
fn spans_named(
    scene: &Scene<'_>,
    levels: &[Level],
    of: &Ref,
    memory: usize,
    indices: &[Expr],
) -> Result<Vec<BankSpan>, NoMemory>
    ensures { IfOk result (λ spans. TellsSpans scene.now levels.now (dims_by (dims_at (table_of
        (program_seen scene.now.program.now)) memory) (way_of (known_in scene.now) of.now)) (map
        term_seen indices.now) spans.items) }
{
    match way_in(scene, of) {
        Some(way) => {
            let named = way.view();
            spans_of(scene, levels, named.shape.dims.as_slice(), indices)
        }
        None => spans_in(scene, levels, memory, indices),
    }
}

/// The dimensions by which an access tells the bank of what it names, and what it names of it itself.
pub fn bank_told(
    scene: &Scene<'_>,
    levels: &[Level],
    memory: usize,
    access: &Expr,
) -> Result<(Vec<BankSpan>, u64), NoMemory>
    ensures { IfOk result (λ r. TellsBank scene.now levels.now memory (form_seen access.now.form)
        r.0.items r.1) }
{
    match &access.form {
        ExprForm::Access { of, indices } => {
            let spans = spans_named(scene, levels, of, memory, indices.as_slice())?;
            Ok((spans, 0))
        }
        ExprForm::Physical { bank, .. } => Ok((no_spans(scene.alloc), *bank)),
        ExprForm::Number { .. } => Ok((no_spans(scene.alloc), 0)),
        ExprForm::Truth { .. } => Ok((no_spans(scene.alloc), 0)),
        ExprForm::Variable { .. } => Ok((no_spans(scene.alloc), 0)),
        ExprForm::Binary { .. } => Ok((no_spans(scene.alloc), 0)),
        ExprForm::Cast { .. } => Ok((no_spans(scene.alloc), 0)),
    }
}

/// The size of a number with an offset added.
fn size_of(number: u128, offset: i128) -> u128
    requires few { number < 2 ^ 66 }
    ensures { result ≡ unsigned_abs (pos number +ℤ offset) }
{
    let size = offset.unsigned_abs();
    if offset >= 0 {
        number + size
    } else if size <= number {
        number - size
    } else {
        size - number
    }
}

/// A size in 64 bits, the greatest number where it has more.
fn capped(size: u128) -> u64
    ensures { result ≡ min size (2 ^ 64 - 1) }
{
    if size < 18446744073709551616 {
        size as u64
    } else {
        u64::MAX
    }
}

/// A size modulo a number of banks. (No dimension has 0 banks.)
fn residue_of(size: u128, banks: u64) -> u64
    ensures { result ≡ min (size % banks) (2 ^ 64 - 1) }
{
    if banks == 0 {
        return capped(size);
    }
    (size % u128::from(banks)) as u64
}

/// The copy at a path that is added to an index.
fn copy_added(levels: &[Level], level: usize, number: u64) -> u64
    ensures { result ≡ copy_to (slice_get levels.now level) number }
{
    match levels.get(level) {
        Some(level) => copy_at(*level, number),
        None => 0,
    }
}

/// The bank of a dimension at a path.
fn bank_in(span: BankSpan, levels: &[Level], number: u64) -> u64
    ensures { result ≡ min (span_bank span levels.now number) (2 ^ 64 - 1) }
{
    let copy = copy_added(levels, span.level, number);
    let size = size_of(u128::from(span.low) + u128::from(copy), span.offset);
    residue_of(size, span.banks)
}

/// The bank that an access reaches at a path.
pub fn bank_at(spans: &[BankSpan], levels: &[Level], named: u64, number: u64) -> u32
    ensures { result ≡ narrowed (spans_number spans.now levels.now named number) }
{
    let mut bank = named;
    for span in spans {
        let own = bank_in(*span, levels, number);
        bank = bank.saturating_add(own.saturating_mul(span.times));
    }
    narrow(bank)
}
