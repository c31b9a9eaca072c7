//! The head of a `for`.

ghost use Rattle.std.specs.Prelude.{◌≡◌, ◌≤◌, length, IfOk, IfErr};
ghost use Rattle.dh_parser.specs.Answers.{SameHead, SameRange, AnswersAs, SameCopies, SameDeclared, TookTokens};
ghost use Rattle.dh_parser.specs.Reading.{the_declared, the_head, the_range, the_unroll};
ghost use Rattle.dh_parser.specs.declared.parsing.reading.Stop.TheVariants as stop;

use crate::parsing::reading::{Mark, Numeral, Reader, Stop};
use crate::parsing::types::read_kind;
use dh_base::Place;
use dh_tree::{Kind, Ref};

/// What stands before the body of a `for`.
#[derive(Drop)]
pub(crate) struct LoopHead {
    /// The place of the word `for`.
    pub place: Place,
    /// The iterator.
    pub iterator: Ref,
    /// Its kind, where it is written.
    pub declared: Option<Kind>,
    /// Its first value.
    pub low: Numeral,
    /// The number after its last value.
    pub high: Numeral,
    /// The copies of the body; 1 at the place of the word `for` where none are written.
    pub factor: Numeral,
    /// The place of the word `unroll`; that of `for` where it is not written.
    pub unroll: Place,
}

/// What an iterator goes over, as it is written.
#[derive(Clone, Copy)]
pub(crate) struct WrittenRange {
    /// The iterator's kind, where it is written.
    pub declared: Option<Kind>,
    /// Its first value.
    pub low: Numeral,
    /// The number after its last value.
    pub high: Numeral,
}

/// `for (let iterator: declared = low..high) unroll factor`
pub(crate) fn read_loop_head(reader: &mut Reader<'_>) -> Result<LoopHead, Stop>
    ensures answer { AnswersAs the_head SameHead result reader.old reader.new }
    ensures commands { reader.new.commands ≡ reader.old.commands }
    ensures shorter { length reader.new.rest.now ≤ length reader.old.rest.now }
    ensures taken { IfOk result (λ _. TookTokens reader.old reader.new) }
{
    let place = reader.skip(Mark::For)?;
    reader.skip(Mark::OpenParen)?;
    reader.skip(Mark::Let)?;
    let iterator = reader.name()?;
    let range = read_range(reader)?;
    let (factor, unroll) = read_factor(reader, place)?;
    Ok(LoopHead {
        place,
        iterator,
        declared: range.declared,
        low: range.low,
        high: range.high,
        factor,
        unroll,
    })
}

/// `: kind = low..high)`, behind an iterator.
fn read_range(reader: &mut Reader<'_>) -> Result<WrittenRange, Stop>
    ensures answer { AnswersAs the_range SameRange result reader.old reader.new }
    ensures commands { reader.new.commands ≡ reader.old.commands }
    ensures shorter { length reader.new.rest.now ≤ length reader.old.rest.now }
    ensures memory { IfErr result (λ e. e ≡ stop.Here) }
{
    let declared = read_declared(reader)?;
    reader.skip(Mark::Assign)?;
    let low = reader.number()?;
    reader.skip(Mark::Range)?;
    let high = reader.number()?;
    reader.skip(Mark::CloseParen)?;
    Ok(WrittenRange {
        declared,
        low,
        high,
    })
}

/// The kind after `:`, if that sign comes next.
fn read_declared(reader: &mut Reader<'_>) -> Result<Option<Kind>, Stop>
    ensures memory { IfErr result (λ e. e ≡ stop.Here) }
    ensures answer { AnswersAs the_declared SameDeclared result reader.old reader.new }
    ensures commands { reader.new.commands ≡ reader.old.commands }
    ensures shorter { length reader.new.rest.now ≤ length reader.old.rest.now }
{
    if !reader.take(Mark::Colon) {
        return Ok(None);
    }
    Ok(Some(read_kind(reader)?))
}

/// The number after `unroll` with the place of the word, if that comes next; else 1, at the place of the
/// loop.
fn read_factor(reader: &mut Reader<'_>, place: Place) -> Result<(Numeral, Place), Stop>
    ensures memory { IfErr result (λ e. e ≡ stop.Here) }
    ensures answer { AnswersAs the_unroll (SameCopies place) result reader.old reader.new }
    ensures commands { reader.new.commands ≡ reader.old.commands }
    ensures shorter { length reader.new.rest.now ≤ length reader.old.rest.now }
{
    if !reader.is_next(Mark::Unroll) {
        return Ok((Numeral { value: 1, place }, place));
    }
    let word = reader.skip(Mark::Unroll)?;
    Ok((reader.number()?, word))
}
