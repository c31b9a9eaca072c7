//! Whole programs: declarations and functions in any order, and then the body.

ghost use Rattle.std.specs.Prelude.{◌≡◌, ◌<◌, ◌≤◌, ◌^◌, length, IfOk, IfSome};
ghost use Rattle.dh_parser.specs.Answers.{MadeIfMemorySuffices, Kept, SameDecl, SameFunction, SameItem, SameItems, AnswersAfterWord, AnswersAs, NumbersAs, ParameterOfParts, SameBody, SameFurtherParameter, SameParameter, SameParameters, SameProgram, TookTokens, most_commands};
ghost use Rattle.dh_parser.specs.Reading.{the_parameter, further_parameter, the_parameters, the_decl, the_def, the_item, the_body, the_program};
ghost use Rattle.dh_parser.specs.StepsEnough.{all_items};

use crate::parsing::commands::{read_block, read_sequence};
use crate::parsing::reading::{Mark, Reader, Stop, begin};
use crate::parsing::types::{WrittenType, read_type};
use dh_base::Place;
use dh_lexer::TokenKind;
use dh_tree::{Command, CommandForm, Decl, Function, Parameter, Ref, Tree};

/// What may stand before the body.
#[derive(Drop)]
pub(crate) enum Item {
    /// A memory from outside.
    Decl(Decl),
    /// A function.
    Function(Function),
}

/// All that stands before the body.
#[derive(Drop)]
pub(crate) struct ItemsRead {
    /// The memories from outside, in order.
    pub decls: Vec<Decl>,
    /// The functions, in order.
    pub functions: Vec<Function>,
}

/// A program, up to the end of the text.
pub(crate) fn program(reader: &mut Reader<'_>) -> Result<Tree, Stop>
    requires few { length reader.old.rest.now < 2 ^ 32 }
    requires none { reader.old.commands ≡ 0 }
    ensures { AnswersAs the_program SameProgram result reader.old reader.new }
{
    let items = read_items(reader)?;
    let body = read_body(reader)?;
    let ItemsRead { decls, functions } = items;
    Ok(Tree {
        decls,
        functions,
        body,
        entities: Vec::new(reader.alloc),
    })
}

/// The declarations and functions that come next.
fn read_items(reader: &mut Reader<'_>) -> Result<ItemsRead, Stop>
    requires { most_commands reader.old ≤ 2 ^ 32 }
    ensures answer { NumbersAs all_items SameItems result reader.old reader.new }
    ensures room { most_commands reader.new ≤ most_commands reader.old }
{
    let mut items = ItemsRead {
        decls: Vec::new(reader.alloc),
        functions: Vec::new(reader.alloc),
    };
    loop {
        let item = read_item(reader)?;
        let Some(item) = item else {
            return Ok(items);
        };
        keep(&mut items, item)?;
    }
}

/// Puts an item behind those of its sort.
fn keep(items: &mut ItemsRead, item: Item) -> Result<(), Stop>
    ensures { MadeIfMemorySuffices (λ _. Kept item items.old items.new) result }
{
    match item {
        Item::Decl(decl) => {
            items.decls.push(decl)?;
            Ok(())
        }
        Item::Function(function) => {
            items.functions.push(function)?;
            Ok(())
        }
    }
}

/// The body of a program, and the end of the text.
fn read_body(reader: &mut Reader<'_>) -> Result<Command, Stop>
    requires { most_commands reader.old < 2 ^ 32 }
    ensures { AnswersAs the_body (SameBody reader.old.commands) result reader.old reader.new }
{
    let place = reader.place()?;
    let id = begin(&mut reader.commands);
    let body = read_sequence(reader)?;
    reader.skip(Mark::End)?;
    let form = CommandForm::Block { body };
    Ok(Command { id, place, form })
}

/// A declaration or a function, if one comes next.
fn read_item(reader: &mut Reader<'_>) -> Result<Option<Item>, Stop>
    requires { most_commands reader.old ≤ 2 ^ 32 }
    ensures answer { NumbersAs the_item SameItem result reader.old reader.new }
    ensures room { most_commands reader.new ≤ most_commands reader.old }
    ensures shorter { length reader.new.rest.now ≤ length reader.old.rest.now }
    ensures taken { IfOk result (λ item. IfSome item (λ _. TookTokens reader.old reader.new)) }
{
    let [token, after @ ..] = reader.rest else {
        return Ok(None);
    };
    match token.kind {
        TokenKind::Decl => {
            reader.rest = after;
            let decl = read_decl(reader)?;
            Ok(Some(Item::Decl(decl)))
        }
        TokenKind::Def => {
            reader.rest = after;
            let function = read_function(reader, token.place)?;
            Ok(Some(Item::Function(function)))
        }
        _ => Ok(None),
    }
}

/// The rest of `decl name: type;`, after its word.
fn read_decl(reader: &mut Reader<'_>) -> Result<Decl, Stop>
    ensures answer { AnswersAfterWord the_decl (λ _. SameDecl) result reader.old reader.new }
    ensures commands { reader.new.commands ≡ reader.old.commands }
    ensures shorter { length reader.new.rest.now ≤ length reader.old.rest.now }
{
    let name = reader.name()?;
    reader.skip(Mark::Colon)?;
    let written = read_type(reader)?;
    reader.skip(Mark::Semicolon)?;
    Ok(Decl {
        name,
        shape: written.shape,
        shape_places: written.places,
    })
}

/// The rest of `def name(parameters) = { .. }`, after its word, which stands here.
fn read_function(reader: &mut Reader<'_>, word: Place) -> Result<Function, Stop>
    requires { most_commands reader.old ≤ 2 ^ 32 }
    ensures answer { NumbersAs (the_def word) SameFunction result reader.old reader.new }
    ensures room { most_commands reader.new ≤ most_commands reader.old }
    ensures shorter { length reader.new.rest.now ≤ length reader.old.rest.now }
{
    let name = reader.name()?;
    reader.skip(Mark::OpenParen)?;
    let parameters = read_parameters(reader)?;
    reader.skip(Mark::Assign)?;
    let body = read_block(reader)?;
    Ok(Function {
        place: word,
        name,
        parameters,
        body,
    })
}

/// Parameters between parentheses, after the first of these.
fn read_parameters(reader: &mut Reader<'_>) -> Result<Vec<Parameter>, Stop>
    ensures answer { AnswersAs the_parameters SameParameters result reader.old reader.new }
    ensures commands { reader.new.commands ≡ reader.old.commands }
    ensures shorter { length reader.new.rest.now ≤ length reader.old.rest.now }
{
    let mut parameters = Vec::new(reader.alloc);
    if reader.is_next(Mark::CloseParen) {
        reader.skip(Mark::CloseParen)?;
        return Ok(parameters);
    }
    let first = read_parameter(reader)?;
    parameters.push(first)?;
    while reader.is_next(Mark::Comma) {
        let parameter = read_further_parameter(reader)?;
        parameters.push(parameter)?;
    }
    reader.skip(Mark::CloseParen)?;
    Ok(parameters)
}

/// `, name: type`
fn read_further_parameter(reader: &mut Reader<'_>) -> Result<Parameter, Stop>
    ensures answer { AnswersAs further_parameter SameFurtherParameter result reader.old reader.new }
    ensures commands { reader.new.commands ≡ reader.old.commands }
    ensures shorter { length reader.new.rest.now ≤ length reader.old.rest.now }
    ensures taken { IfOk result (λ _. TookTokens reader.old reader.new) }
{
    reader.skip(Mark::Comma)?;
    let parameter = read_parameter(reader)?;
    Ok(parameter)
}

/// `name: type`
fn read_parameter(reader: &mut Reader<'_>) -> Result<Parameter, Stop>
    ensures answer { AnswersAs the_parameter SameParameter result reader.old reader.new }
    ensures commands { reader.new.commands ≡ reader.old.commands }
    ensures shorter { length reader.new.rest.now ≤ length reader.old.rest.now }
{
    let name = reader.name()?;
    reader.skip(Mark::Colon)?;
    let written = read_type(reader)?;
    Ok(parameter_of(name, written))
}

/// The parameter of this name and type.
fn parameter_of(name: Ref, written: WrittenType) -> Parameter
    ensures { ParameterOfParts name written result }
{
    let WrittenType {
        shape,
        places,
        is_memory,
    } = written;
    let kind = shape.kind;
    if is_memory {
        return Parameter {
            name,
            shape: Some(shape),
            shape_places: places,
            kind,
        };
    }
    Parameter {
        name,
        shape: None,
        shape_places: places,
        kind,
    }
}
