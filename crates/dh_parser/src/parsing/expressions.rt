//! Expressions: operands joined by operators, of which the tighter take their operands first.

ghost use Rattle.std.specs.Prelude.{◌≡◌, ◌≤◌, ◌++◌, ◌∷◌, [], length, IfOk, IfErr, None};
ghost use Rattle.dh_tree.specs.declared.trees.expressions.Expr.{Expr};
ghost use Rattle.dh_tree.specs.PlainTrees.{term, number, truth_value};
ghost use Rattle.dh_tree.specs.Seen.{form_seen, term_seen};
ghost use Rattle.dh_parser.specs.Answers.{MadeIfMemorySuffices, MadeOf, SameTerm, SameIndices, AnswersAfterName, AnswersAs, AnswersTerm, SameAccess, SameArguments, SameBank, SameCast, SameCastOf, SameIndex, SameRow, TookTokens, element_seen, joined_expressions, written_row_seen};
ghost use Rattle.dh_parser.specs.Parts.{the_bank, the_row};
ghost use Rattle.dh_parser.specs.Reading.{the, expression, operand, named_from, access_from, all_indices, the_index, bracket_from, the_cast, the_argument, the_arguments};
ghost use Rattle.dh_parser.specs.declared.parsing.reading.Mark.TheVariants as sign;
ghost use Rattle.dh_parser.specs.declared.parsing.reading.Stop.TheVariants as stop;

use crate::parsing::operators::{level_above, take_operator};
use crate::parsing::reading::{Mark, Numeral, Reader, Stop};
use crate::parsing::rooms::{indices_in_sight, room_for_second};
use crate::parsing::types::read_kind;
use dh_base::Place;
use dh_lexer::TokenKind;
use dh_tree::{Expr, ExprForm, Kind, Ref};
use dh_value::Op;
use std::alloc::Global;

/// A row of a bank as it is written.
#[derive(Drop)]
pub(crate) struct WrittenRow {
    /// The number of the bank.
    pub bank: Numeral,
    /// The row in that bank.
    pub row: Expr,
}

/// The expression of operators that bind at least as tightly as `level`, from 0 for all to 10 for
/// none.
#[cycle(expression)]
pub(crate) fn read_expression(reader: &mut Reader<'_>, level: u8) -> Result<Expr, Stop>
    ensures answer { AnswersTerm (expression level) result reader.old reader.new }
    ensures commands { reader.new.commands ≡ reader.old.commands }
    ensures shorter { length reader.new.rest.now ≤ length reader.old.rest.now }
{
    let mut left = read_operand(reader)?;
    while let Some(op) = take_operator(reader, level) {
        let right = read_expression(reader, level_above(op));
        left = joined_with(reader.alloc, op, left, right)?;
    }
    Ok(left)
}

/// An operand: a literal, a name, an access, or something in parentheses.
#[cycle(expression)]
#[inline(always)]
pub(crate) fn read_operand(reader: &mut Reader<'_>) -> Result<Expr, Stop>
    ensures answer { AnswersTerm (operand expression) result reader.old reader.new }
    ensures commands { reader.new.commands ≡ reader.old.commands }
    ensures shorter { length reader.new.rest.now ≤ length reader.old.rest.now }
{
    let [token, after @ ..] = reader.rest else {
        return Err(Stop::Here);
    };
    match &token.kind {
        TokenKind::Number(value) => {
            let value = *value;
            reader.rest = after;
            Ok(literal(token.place, false, value))
        }
        TokenKind::Minus => {
            reader.rest = after;
            let number = reader.number()?;
            Ok(literal(token.place, true, number.value))
        }
        TokenKind::True => {
            reader.rest = after;
            Ok(truth(token.place, true))
        }
        TokenKind::False => {
            reader.rest = after;
            Ok(truth(token.place, false))
        }
        TokenKind::Name(_) => {
            let of = reader.name()?;
            read_named(reader, of)
        }
        TokenKind::OpenParen => {
            reader.rest = after;
            read_bracketed(reader, token.place)
        }
        _ => Err(Stop::Here),
    }
}

/// What a name begins: an access, or the name alone.
#[cycle(expression)]
#[inline(always)]
fn read_named(reader: &mut Reader<'_>, of: Ref) -> Result<Expr, Stop>
    requires { of.entity ≡ None }
    ensures answer { AnswersAfterName named_from SameTerm of result reader.old reader.new }
    ensures commands { reader.new.commands ≡ reader.old.commands }
    ensures shorter { length reader.new.rest.now ≤ length reader.old.rest.now }
{
    if reader.goes_on() {
        return read_access(reader, of);
    }
    let place = of.place;
    Ok(plain(place, ExprForm::Variable { of }))
}

/// The rest of the access `of[index]..` or `of{bank}[row]`, after its name.
#[cycle(expression)]
pub(crate) fn read_access(reader: &mut Reader<'_>, of: Ref) -> Result<Expr, Stop>
    requires { of.entity ≡ None }
    ensures answer { AnswersAfterName access_from SameAccess of result reader.old reader.new }
    ensures commands { reader.new.commands ≡ reader.old.commands }
    ensures shorter { length reader.new.rest.now ≤ length reader.old.rest.now }
{
    if !reader.is_next(Mark::OpenBrace) {
        let indices = read_indices(reader);
        return element_of(of, indices);
    }
    let row = read_row(reader);
    row_of(reader.alloc, of, row)
}

/// `{bank}[row]`, what follows the name of a memory of which one bank is read.
#[cycle(expression)]
fn read_row(reader: &mut Reader<'_>) -> Result<WrittenRow, Stop>
    ensures answer { AnswersAs (the_row expression) SameRow result reader.old reader.new }
    ensures commands { reader.new.commands ≡ reader.old.commands }
    ensures shorter { length reader.new.rest.now ≤ length reader.old.rest.now }
{
    let bank = read_bank(reader)?;
    let row = read_index(reader)?;
    Ok(WrittenRow { bank, row })
}

/// Indices in brackets, at least one.
#[cycle(expression)]
fn read_indices(reader: &mut Reader<'_>) -> Result<Vec<Expr>, Stop>
    ensures answer { AnswersAs (all_indices expression) SameIndices result reader.old reader.new }
    ensures commands { reader.new.commands ≡ reader.old.commands }
    ensures shorter { length reader.new.rest.now ≤ length reader.old.rest.now }
{
    let mut indices = Vec::with_capacity(reader.alloc, indices_in_sight(reader.rest))?;
    read_further(reader, &mut indices)?;
    while reader.is_next(Mark::OpenBracket) {
        read_further(reader, &mut indices)?;
    }
    indices.shrink_to_fit();
    Ok(indices)
}

/// An index in brackets, put behind others. It is read into their list, in place of being handed on.
#[cycle(expression)]
fn read_further(reader: &mut Reader<'_>, indices: &mut Vec<Expr>) -> Result<(), Stop>
    ensures answer { AnswersAs (the_index expression)
        (λ _ i. (e : Expr) × ((indices.new.items ≡ indices.old.items ++ (e ∷ [])) × SameIndex e i))
        result reader.old reader.new }
    ensures commands { reader.new.commands ≡ reader.old.commands }
    ensures shorter { length reader.new.rest.now ≤ length reader.old.rest.now }
    ensures taken { IfOk result (λ _. TookTokens reader.old reader.new) }
{
    reader.skip(Mark::OpenBracket)?;
    let index = read_expression(reader, 0)?;
    put_index(reader, index, indices)
}

/// An index in brackets.
#[cycle(expression)]
fn read_index(reader: &mut Reader<'_>) -> Result<Expr, Stop>
    ensures answer { AnswersAs (the_index expression) SameIndex result reader.old reader.new }
    ensures commands { reader.new.commands ≡ reader.old.commands }
    ensures shorter { length reader.new.rest.now ≤ length reader.old.rest.now }
    ensures taken { IfOk result (λ _. TookTokens reader.old reader.new) }
{
    reader.skip(Mark::OpenBracket)?;
    let index = read_expression(reader, 0)?;
    read_closing(reader, Mark::CloseBracket, index)
}

/// What stands in parentheses, of which the first stood at `opening`: an expression or a cast.
#[cycle(expression)]
fn read_bracketed(reader: &mut Reader<'_>, opening: Place) -> Result<Expr, Stop>
    ensures answer { AnswersTerm (bracket_from expression opening) result reader.old reader.new }
    ensures commands { reader.new.commands ≡ reader.old.commands }
    ensures shorter { length reader.new.rest.now ≤ length reader.old.rest.now }
{
    let inner = read_expression(reader, 0)?;
    if !reader.is_next(Mark::As) {
        return read_closing(reader, Mark::CloseParen, inner);
    }
    read_cast_of(reader, opening, inner)
}

/// The number of a bank in braces.
fn read_bank(reader: &mut Reader<'_>) -> Result<Numeral, Stop>
    ensures memory { IfErr result (λ e. e ≡ stop.Here) }
    ensures answer { AnswersAs the_bank SameBank result reader.old reader.new }
    ensures commands { reader.new.commands ≡ reader.old.commands }
    ensures shorter { length reader.new.rest.now ≤ length reader.old.rest.now }
{
    reader.skip(Mark::OpenBrace)?;
    let bank = reader.number()?;
    reader.skip(Mark::CloseBrace)?;
    Ok(bank)
}

/// An expression that was read, once the sign that closes it is.
fn read_closing(reader: &mut Reader<'_>, mark: Mark, inner: Expr) -> Result<Expr, Stop>
    ensures answer { AnswersAs (the mark) (λ e p. e ≡ inner) result reader.old reader.new }
    ensures commands { reader.new.commands ≡ reader.old.commands }
    ensures shorter { length reader.new.rest.now ≤ length reader.old.rest.now }
{
    reader.skip(mark)?;
    Ok(inner)
}

/// Puts an index behind others, once the sign that closes it is read.
fn put_index(reader: &mut Reader<'_>, index: Expr, indices: &mut Vec<Expr>) -> Result<(), Stop>
    ensures answer { AnswersAs (the sign.CloseBracket)
        (λ _ p. indices.new.items ≡ indices.old.items ++ (index ∷ []))
        result reader.old reader.new }
    ensures commands { reader.new.commands ≡ reader.old.commands }
    ensures shorter { length reader.new.rest.now ≤ length reader.old.rest.now }
{
    reader.skip(Mark::CloseBracket)?;
    room_for_second(indices);
    indices.push(index)?;
    Ok(())
}

/// The cast of an expression that stands behind the `(` of this place, once its `as kind)` is read.
fn read_cast_of(reader: &mut Reader<'_>, opening: Place, inner: Expr) -> Result<Expr, Stop>
    ensures answer { AnswersAs the_cast (SameCastOf opening inner) result reader.old reader.new }
    ensures commands { reader.new.commands ≡ reader.old.commands }
    ensures shorter { length reader.new.rest.now ≤ length reader.old.rest.now }
{
    let to = read_cast(reader)?;
    let inner = Box::new(reader.alloc, inner)?;
    Ok(plain(opening, ExprForm::Cast { inner, to }))
}

/// `as kind)`, what makes an expression behind `(` a cast.
fn read_cast(reader: &mut Reader<'_>) -> Result<Kind, Stop>
    ensures answer { AnswersAs the_cast SameCast result reader.old reader.new }
    ensures commands { reader.new.commands ≡ reader.old.commands }
    ensures shorter { length reader.new.rest.now ≤ length reader.old.rest.now }
    ensures memory { IfErr result (λ e. e ≡ stop.Here) }
{
    reader.skip(Mark::As)?;
    let to = read_kind(reader)?;
    reader.skip(Mark::CloseParen)?;
    Ok(to)
}

/// Arguments between parentheses, after the first of these.
pub(crate) fn read_arguments(reader: &mut Reader<'_>) -> Result<Vec<Expr>, Stop>
    ensures answer { AnswersAs the_arguments SameArguments result reader.old reader.new }
    ensures commands { reader.new.commands ≡ reader.old.commands }
    ensures shorter { length reader.new.rest.now ≤ length reader.old.rest.now }
{
    let mut arguments = Vec::new(reader.alloc);
    if reader.is_next(Mark::CloseParen) {
        reader.skip(Mark::CloseParen)?;
        return Ok(arguments);
    }
    let first = read_expression(reader, 0)?;
    arguments.push(first)?;
    while reader.is_next(Mark::Comma) {
        let argument = read_argument(reader)?;
        arguments.push(argument)?;
    }
    reader.skip(Mark::CloseParen)?;
    Ok(arguments)
}

/// `, argument`
fn read_argument(reader: &mut Reader<'_>) -> Result<Expr, Stop>
    ensures answer { AnswersAs the_argument (λ e t. SameTerm e t.1) result reader.old reader.new }
    ensures commands { reader.new.commands ≡ reader.old.commands }
    ensures shorter { length reader.new.rest.now ≤ length reader.old.rest.now }
    ensures taken { IfOk result (λ _. TookTokens reader.old reader.new) }
{
    reader.skip(Mark::Comma)?;
    let argument = read_expression(reader, 0)?;
    Ok(argument)
}

/// The expression of this form, its kind not yet found.
fn plain(place: Place, form: ExprForm) -> Expr
    ensures { term_seen result ≡ term place None (form_seen form) }
{
    Expr {
        place,
        kind: None,
        form,
    }
}

/// A number, or a number after a `-`.
fn literal(place: Place, negative: bool, value: u64) -> Expr
    ensures { term_seen result ≡ term place None (number negative value) }
{
    plain(place, ExprForm::Number { negative, value })
}

/// `true` or `false`.
fn truth(place: Place, value: bool) -> Expr
    ensures { term_seen result ≡ term place None (truth_value value) }
{
    plain(place, ExprForm::Truth { value })
}

/// `of[index]..`, where its indices were read.
fn element_of(of: Ref, indices: Result<Vec<Expr>, Stop>) -> Result<Expr, Stop>
    ensures { MadeOf (λ read e. term_seen e ≡ element_seen of read) indices result }
{
    match indices {
        Ok(indices) => Ok(plain(of.place, ExprForm::Access { of, indices })),
        Err(stop) => Err(stop),
    }
}

/// `of{bank}[row]`, where its bank and its row were read.
fn row_of(alloc: Global, of: Ref, row: Result<WrittenRow, Stop>) -> Result<Expr, Stop>
    ensures { MadeOf (λ read e. term_seen e ≡ written_row_seen of read) row result }
{
    match row {
        Ok(row) => physical(alloc, of, row),
        Err(stop) => Err(stop),
    }
}

/// `of{bank}[row]`
fn physical(alloc: Global, of: Ref, written: WrittenRow) -> Result<Expr, Stop>
    ensures { MadeIfMemorySuffices (λ e. term_seen e ≡ written_row_seen of written) result }
{
    let WrittenRow { bank, row } = written;
    let row = Box::new(alloc, row)?;
    let place = of.place;
    let form = ExprForm::Physical {
        of,
        bank: bank.value,
        bank_place: bank.place,
        row,
    };
    Ok(plain(place, form))
}

/// `left op right`, where the right operand was read. It stands apart, since most expressions have no operator.
#[inline(never)]
fn joined_with(alloc: Global, op: Op, left: Expr, right: Result<Expr, Stop>) -> Result<Expr, Stop>
    ensures { MadeOf (λ read e. term_seen e ≡ joined_expressions op left read) right result }
{
    match right {
        Ok(right) => joined(alloc, op, left, right),
        Err(stop) => Err(stop),
    }
}

/// `left op right`
fn joined(alloc: Global, op: Op, left: Expr, right: Expr) -> Result<Expr, Stop>
    ensures { MadeIfMemorySuffices (λ e. term_seen e ≡ joined_expressions op left right) result }
{
    let place = left.place;
    let form = ExprForm::Binary {
        op,
        left: Box::new(alloc, left)?,
        right: Box::new(alloc, right)?,
    };
    Ok(plain(place, form))
}
