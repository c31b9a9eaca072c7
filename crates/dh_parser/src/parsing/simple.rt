//! Commands without blocks.

ghost use Rattle.std.specs.Prelude.{◌≡◌, ◌<◌, ◌≤◌, ◌^◌, None, length, IfOk};
ghost use Rattle.dh_tree.specs.Seen.{action_form_seen};
ghost use Rattle.dh_parser.specs.Answers.{SameSimple, AnswersAfterWord, AnswersAs, AnswersNamed, AnswersSimple, NumbersAs, SameSimpleCommand, SameValue, TookTokens, most_commands, typed_let_seen, MadeIfMemorySuffices};
ghost use Rattle.dh_parser.specs.Reading.{the_simple, let_from, after_name, store_from, the_value};

use crate::parsing::expressions::{read_access, read_arguments, read_expression};
use crate::parsing::operators::reducer_of;
use crate::parsing::reading::{Mark, Reader, Stop, begin};
use crate::parsing::types::{WrittenType, read_type};
use crate::parsing::views::read_view;
use dh_lexer::TokenKind;
use dh_tree::{Command, CommandForm, Expr, Ref, Sides};
use std::alloc::Global;

/// A command that begins with `let`, `view` or a name. It stands apart, so that blocks in blocks take little of
/// the stack.
#[inline(never)]
pub(crate) fn read_simple(reader: &mut Reader<'_>) -> Result<Command, Stop>
    requires { most_commands reader.old ≤ 2 ^ 32 }
    ensures answer { NumbersAs the_simple SameSimpleCommand result reader.old reader.new }
    ensures room { most_commands reader.new ≤ most_commands reader.old }
    ensures shorter { length reader.new.rest.now ≤ length reader.old.rest.now }
    ensures taken { IfOk result (λ _. TookTokens reader.old reader.new) }
{
    let place = reader.place()?;
    let form = read_form(reader)?;
    let id = begin(&mut reader.commands);
    Ok(Command { id, place, form })
}

/// What a command is that begins with `let`, `view` or a name.
fn read_form(reader: &mut Reader<'_>) -> Result<CommandForm, Stop>
    requires { 0 < length reader.old.rest.now }
    ensures answer { AnswersSimple result reader.old reader.new }
    ensures commands { reader.new.commands ≡ reader.old.commands }
    ensures shorter { length reader.new.rest.now ≤ length reader.old.rest.now }
    ensures taken { IfOk result (λ _. TookTokens reader.old reader.new) }
{
    let [token, after @ ..] = reader.rest else {
        return Err(Stop::Here);
    };
    match token.kind {
        TokenKind::Let => {
            reader.rest = after;
            let form = read_let(reader)?;
            Ok(form)
        }
        TokenKind::View => {
            reader.rest = after;
            let form = read_view(reader)?;
            Ok(form)
        }
        _ => {
            let name = reader.name()?;
            let form = read_named(reader, name)?;
            Ok(form)
        }
    }
}

/// The rest of a `let`, after its word.
fn read_let(reader: &mut Reader<'_>) -> Result<CommandForm, Stop>
    ensures answer { AnswersAfterWord let_from SameSimple result reader.old reader.new }
    ensures commands { reader.new.commands ≡ reader.old.commands }
    ensures shorter { length reader.new.rest.now ≤ length reader.old.rest.now }
{
    let name = reader.name()?;
    if !reader.is_next(Mark::Colon) {
        reader.skip(Mark::Assign)?;
        let value = read_expression(reader, 0)?;
        let held = Box::new(reader.alloc, Some(value))?;
        return Ok(CommandForm::Let {
            declared: None,
            name,
            value: held,
        });
    }
    reader.skip(Mark::Colon)?;
    let written = read_type(reader)?;
    let value = read_value(reader)?;
    let form = typed_let(reader.alloc, name, written, value)?;
    Ok(form)
}

/// The `let` of this name with a type.
fn typed_let(
    alloc: Global,
    name: Ref,
    written: WrittenType,
    value: Option<Expr>,
) -> Result<CommandForm, Stop>
    ensures { MadeIfMemorySuffices (λ form. action_form_seen form ≡ typed_let_seen name written value) result }
{
    let WrittenType {
        shape,
        places,
        is_memory,
    } = written;
    let held = Box::new(alloc, value)?;
    if is_memory {
        let memory = Box::new(alloc, name)?;
        let shape = Box::new(alloc, shape)?;
        let shape_places = Box::new(alloc, places)?;
        return Ok(CommandForm::LetMemory {
            name: memory,
            shape,
            shape_places,
            value: held,
        });
    }
    Ok(CommandForm::Let {
        declared: Some(shape.kind),
        name,
        value: held,
    })
}

/// The expression after `=`, if that sign comes next.
fn read_value(reader: &mut Reader<'_>) -> Result<Option<Expr>, Stop>
    ensures answer { AnswersAs the_value SameValue result reader.old reader.new }
    ensures commands { reader.new.commands ≡ reader.old.commands }
    ensures shorter { length reader.new.rest.now ≤ length reader.old.rest.now }
{
    if !reader.take(Mark::Assign) {
        return Ok(None);
    }
    let value = read_expression(reader, 0)?;
    Ok(Some(value))
}

/// The rest of a command that begins with this name.
fn read_named(reader: &mut Reader<'_>, name: Ref) -> Result<CommandForm, Stop>
    requires { name.entity ≡ None }
    ensures answer { AnswersNamed after_name name result reader.old reader.new }
    ensures commands { reader.new.commands ≡ reader.old.commands }
    ensures shorter { length reader.new.rest.now ≤ length reader.old.rest.now }
{
    let [token, after @ ..] = reader.rest else {
        return Err(Stop::Here);
    };
    match &token.kind {
        TokenKind::Becomes => {
            reader.rest = after;
            let value = read_expression(reader, 0)?;
            let held = Box::new(reader.alloc, value)?;
            Ok(CommandForm::Assign {
                target: name,
                value: held,
            })
        }
        TokenKind::OpenParen => {
            reader.rest = after;
            let arguments = read_arguments(reader)?;
            let function = Box::new(reader.alloc, name)?;
            Ok(CommandForm::Call {
                function,
                arguments,
            })
        }
        TokenKind::OpenBracket | TokenKind::OpenBrace => read_store(reader, name),
        kind => {
            let Some(op) = reducer_of(kind) else {
                return Err(Stop::Here);
            };
            reader.rest = after;
            let value = read_expression(reader, 0)?;
            let held = Box::new(reader.alloc, value)?;
            Ok(CommandForm::Reduce {
                op,
                target: name,
                value: held,
            })
        }
    }
}

/// The rest of a store to an element of the memory of this name.
fn read_store(reader: &mut Reader<'_>, name: Ref) -> Result<CommandForm, Stop>
    requires { name.entity ≡ None }
    ensures answer { AnswersNamed store_from name result reader.old reader.new }
    ensures commands { reader.new.commands ≡ reader.old.commands }
    ensures shorter { length reader.new.rest.now ≤ length reader.old.rest.now }
{
    let target = read_access(reader, name)?;
    reader.skip(Mark::Becomes)?;
    let value = read_expression(reader, 0)?;
    let sides = Box::new(reader.alloc, Sides { target, value })?;
    Ok(CommandForm::Store { sides })
}
