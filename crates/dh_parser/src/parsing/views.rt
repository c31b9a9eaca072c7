//! Views.

ghost use Rattle.std.specs.Prelude.{◌≡◌, ◌≤◌, length, IfOk, IfErr};
ghost use Rattle.dh_parser.specs.Answers.{SameFactors, SameSuffixes, SameOffsets, SamePlan, SameSimple, AnswersAfterWord, AnswersAs, AnswersParentAnd, SameFactor, SameOffset, SameSuffixRead, TookTokens};
ghost use Rattle.dh_parser.specs.Reading.{the_factor, the_suffix, the_offset, all_of, the_view, view_command_from};
ghost use Rattle.dh_parser.specs.declared.parsing.reading.Stop.TheVariants as stop;

use crate::parsing::expressions::{read_expression, read_operand};
use crate::parsing::reading::{Mark, Numeral, Reader, Stop};
use dh_base::Place;
use dh_lexer::TokenKind;
use dh_tree::{CommandForm, Expr, Ref, ViewForm};

/// The factors of a view and where each stands.
#[derive(Drop)]
pub(crate) struct Factors {
    /// The factors.
    pub by: Vec<u64>,
    /// Their places.
    pub by_place: Vec<Place>,
}

/// The factors of a view with their offsets.
#[derive(Drop)]
pub(crate) struct Suffixes {
    /// The factors with their offsets.
    pub by: Vec<(u64, Expr)>,
    /// The places of the factors.
    pub by_place: Vec<Place>,
}

/// `name = form parent[by ..]..`, after the word `view`.
pub(crate) fn read_view(reader: &mut Reader<'_>) -> Result<CommandForm, Stop>
    ensures answer { AnswersAfterWord view_command_from SameSimple result reader.old reader.new }
    ensures commands { reader.new.commands ≡ reader.old.commands }
    ensures shorter { length reader.new.rest.now ≤ length reader.old.rest.now }
{
    let name = reader.name()?;
    reader.skip(Mark::Assign)?;
    let (parent, form) = read_plan(reader)?;
    let view = Box::new(reader.alloc, name)?;
    let shown = Box::new(reader.alloc, parent)?;
    let plan = Box::new(reader.alloc, form)?;
    Ok(CommandForm::View {
        name: view,
        parent: shown,
        form: plan,
    })
}

/// `form parent[by ..]..`
fn read_plan(reader: &mut Reader<'_>) -> Result<(Ref, ViewForm), Stop>
    ensures answer { AnswersAs the_view (λ v t. SamePlan v.0 v.1 t) result reader.old reader.new }
    ensures commands { reader.new.commands ≡ reader.old.commands }
    ensures shorter { length reader.new.rest.now ≤ length reader.old.rest.now }
{
    let [token, after @ ..] = reader.rest else {
        return Err(Stop::Here);
    };
    match token.kind {
        TokenKind::Shrink => {
            reader.rest = after;
            let (parent, factors) = read_factored(reader)?;
            let (by, by_place) = (factors.by, factors.by_place);
            Ok((parent, ViewForm::Shrink { by, by_place }))
        }
        TokenKind::Split => {
            reader.rest = after;
            let (parent, factors) = read_factored(reader)?;
            let (by, by_place) = (factors.by, factors.by_place);
            Ok((parent, ViewForm::Split { by, by_place }))
        }
        TokenKind::Suffix => {
            reader.rest = after;
            let (parent, factors) = read_suffixed(reader)?;
            let (by, by_place) = (factors.by, factors.by_place);
            Ok((parent, ViewForm::Suffix { by, by_place }))
        }
        TokenKind::Shift => {
            reader.rest = after;
            let (parent, by) = read_shifted(reader)?;
            Ok((parent, ViewForm::Shift { by }))
        }
        _ => Err(Stop::Here),
    }
}

/// `parent[by factor]..`
fn read_factored(reader: &mut Reader<'_>) -> Result<(Ref, Factors), Stop>
    ensures answer { AnswersParentAnd the_factor SameFactors result reader.old reader.new }
    ensures commands { reader.new.commands ≡ reader.old.commands }
    ensures shorter { length reader.new.rest.now ≤ length reader.old.rest.now }
{
    let parent = reader.name()?;
    let factors = read_factors(reader)?;
    Ok((parent, factors))
}

/// `parent[by factor * offset]..`
fn read_suffixed(reader: &mut Reader<'_>) -> Result<(Ref, Suffixes), Stop>
    ensures answer { AnswersParentAnd the_suffix SameSuffixes result reader.old reader.new }
    ensures commands { reader.new.commands ≡ reader.old.commands }
    ensures shorter { length reader.new.rest.now ≤ length reader.old.rest.now }
{
    let parent = reader.name()?;
    let suffixes = read_suffixes(reader)?;
    Ok((parent, suffixes))
}

/// `parent[by offset]..`
fn read_shifted(reader: &mut Reader<'_>) -> Result<(Ref, Vec<Expr>), Stop>
    ensures answer { AnswersParentAnd the_offset SameOffsets result reader.old reader.new }
    ensures commands { reader.new.commands ≡ reader.old.commands }
    ensures shorter { length reader.new.rest.now ≤ length reader.old.rest.now }
{
    let parent = reader.name()?;
    let offsets = read_offsets(reader)?;
    Ok((parent, offsets))
}

/// `[by factor]`, once or more.
fn read_factors(reader: &mut Reader<'_>) -> Result<Factors, Stop>
    ensures answer { AnswersAs (all_of the_factor) SameFactors result reader.old reader.new }
    ensures commands { reader.new.commands ≡ reader.old.commands }
    ensures shorter { length reader.new.rest.now ≤ length reader.old.rest.now }
{
    // most views have one bracket
    let mut by_place = Vec::with_capacity(reader.alloc, 1)?;
    let mut by = Vec::with_capacity(reader.alloc, 1)?;
    let first = read_factor(reader)?;
    by.push(first.value)?;
    by_place.push(first.place)?;
    while reader.is_next(Mark::OpenBracket) {
        let factor = read_factor(reader)?;
        by.push(factor.value)?;
        by_place.push(factor.place)?;
    }
    Ok(Factors { by, by_place })
}

/// `[by factor]`
fn read_factor(reader: &mut Reader<'_>) -> Result<Numeral, Stop>
    ensures memory { IfErr result (λ e. e ≡ stop.Here) }
    ensures answer { AnswersAs the_factor SameFactor result reader.old reader.new }
    ensures commands { reader.new.commands ≡ reader.old.commands }
    ensures shorter { length reader.new.rest.now ≤ length reader.old.rest.now }
    ensures taken { IfOk result (λ _. TookTokens reader.old reader.new) }
{
    reader.skip(Mark::OpenBracket)?;
    reader.skip(Mark::By)?;
    let factor = reader.number()?;
    reader.skip(Mark::CloseBracket)?;
    Ok(factor)
}

/// `[by factor * offset]`, once or more.
fn read_suffixes(reader: &mut Reader<'_>) -> Result<Suffixes, Stop>
    ensures answer { AnswersAs (all_of the_suffix) SameSuffixes result reader.old reader.new }
    ensures commands { reader.new.commands ≡ reader.old.commands }
    ensures shorter { length reader.new.rest.now ≤ length reader.old.rest.now }
{
    // most views have one bracket
    let mut by_place = Vec::with_capacity(reader.alloc, 1)?;
    let mut by = Vec::with_capacity(reader.alloc, 1)?;
    let (first, offset) = read_suffix(reader)?;
    by.push((first.value, offset))?;
    by_place.push(first.place)?;
    while reader.is_next(Mark::OpenBracket) {
        let (factor, offset) = read_suffix(reader)?;
        by.push((factor.value, offset))?;
        by_place.push(factor.place)?;
    }
    Ok(Suffixes { by, by_place })
}

/// `[by factor * offset]`
fn read_suffix(reader: &mut Reader<'_>) -> Result<(Numeral, Expr), Stop>
    ensures answer { AnswersAs the_suffix SameSuffixRead result reader.old reader.new }
    ensures commands { reader.new.commands ≡ reader.old.commands }
    ensures shorter { length reader.new.rest.now ≤ length reader.old.rest.now }
    ensures taken { IfOk result (λ _. TookTokens reader.old reader.new) }
{
    reader.skip(Mark::OpenBracket)?;
    reader.skip(Mark::By)?;
    let factor = reader.number()?;
    reader.skip(Mark::Star)?;
    let offset = read_operand(reader)?;
    reader.skip(Mark::CloseBracket)?;
    Ok((factor, offset))
}

/// `[by offset]`, once or more.
fn read_offsets(reader: &mut Reader<'_>) -> Result<Vec<Expr>, Stop>
    ensures answer { AnswersAs (all_of the_offset) SameOffsets result reader.old reader.new }
    ensures commands { reader.new.commands ≡ reader.old.commands }
    ensures shorter { length reader.new.rest.now ≤ length reader.old.rest.now }
{
    // most views have one bracket
    let mut by = Vec::with_capacity(reader.alloc, 1)?;
    let first = read_offset(reader)?;
    by.push(first)?;
    while reader.is_next(Mark::OpenBracket) {
        let offset = read_offset(reader)?;
        by.push(offset)?;
    }
    Ok(by)
}

/// `[by offset]`
fn read_offset(reader: &mut Reader<'_>) -> Result<Expr, Stop>
    ensures answer { AnswersAs the_offset SameOffset result reader.old reader.new }
    ensures commands { reader.new.commands ≡ reader.old.commands }
    ensures shorter { length reader.new.rest.now ≤ length reader.old.rest.now }
    ensures taken { IfOk result (λ _. TookTokens reader.old reader.new) }
{
    reader.skip(Mark::OpenBracket)?;
    reader.skip(Mark::By)?;
    let offset = read_expression(reader, 0)?;
    reader.skip(Mark::CloseBracket)?;
    Ok(offset)
}
