//! Commands, and the blocks that hold them.

ghost use Rattle.std.specs.Prelude.{◌≡◌, ◌<◌, ◌≤◌, ◌+◌, ◌^◌, [], ◌∷◌, ◌++◌, length, IfOk};
ghost use Rattle.dh_tree.specs.Seen.{action_seen};
ghost use Rattle.dh_parser.specs.Answers.{MadeIfMemorySuffices, MadeOf, SameArms, SameAsked, SameBlock, SameCompound, SameIf, SameElseIf, SameElse, SamePart, SameParts, SameTerm, begins_as, AnswersAs, NumbersAs, SameBoxedBlock, SameCombineAt, TookTokens, arms_with, block_around, block_seen, if_seen, loop_seen, while_seen, most_commands};
ghost use Rattle.dh_parser.specs.Parts.{the_arms, the_asked};
ghost use Rattle.dh_parser.specs.Reading.{the, the_test, the_compound, the_block, whole_if, whole_else, the_while, the_for, beginning};
ghost use Rattle.dh_parser.specs.StepsEnough.{all_parts, whole_combine, whole_part};

use crate::parsing::expressions::read_expression;
use crate::parsing::loops::{LoopHead, read_loop_head};
use crate::parsing::reading::{Mark, Reader, Stop, begin};
use crate::parsing::rooms::{commands_in_sight, room_for_second};
use crate::parsing::simple::read_simple;
use dh_base::{NoMemory, Place};
use dh_lexer::{Token, TokenKind};
use dh_tree::{Command, CommandForm, Expr, LoopHeader};
use std::alloc::Global;

/// What begins at a token, among the commands of a part.
#[derive(Clone, Copy, PartialEq, Eq)]
pub(crate) enum Beginning {
    /// A command that a `;` or the end of its part follows.
    Simple,
    /// A command that ends with a block.
    Compound,
    /// A `;` of its own.
    Semicolon,
    /// No command.
    Nothing,
}

/// What an `if` or a `while` asks, with the number and the place of its command.
#[derive(Drop)]
pub(crate) struct Asked {
    /// The number of the command.
    pub id: u32,
    /// The place of its word.
    pub place: Place,
    /// What it asks.
    pub test: Box<Expr>,
}

/// The arms of an `if`.
#[derive(Drop)]
pub(crate) struct Arms {
    /// The block that runs where the test holds.
    pub chosen: Box<Command>,
    /// The block that runs where it does not, if one is written.
    pub other: Option<Box<Command>>,
}

/// The parts between `---`.
#[cycle(command)]
pub(crate) fn read_sequence(reader: &mut Reader<'_>) -> Result<Vec<Vec<Command>>, Stop>
    requires { most_commands reader.old ≤ 2 ^ 32 }
    ensures answer { NumbersAs all_parts SameParts result reader.old reader.new }
    ensures room { most_commands reader.new ≤ most_commands reader.old }
    ensures shorter { length reader.new.rest.now ≤ length reader.old.rest.now }
{
    let mut parts = Vec::new(reader.alloc);
    loop {
        let part = read_part(reader)?;
        let more = reader.is_next(Mark::Dashes);
        put_part(&mut parts, part, more)?;
        if !reader.take(Mark::Dashes) {
            return Ok(parts);
        }
    }
}

/// Puts a part behind others, which more follow or none. Most blocks have one part or two: the list of such
/// is made once, of its size.
fn put_part(parts: &mut Vec<Vec<Command>>, part: Vec<Command>, more: bool) -> Result<(), Stop>
    ensures { MadeIfMemorySuffices (λ _. parts.new.items ≡ parts.old.items ++ part ∷ []) result }
{
    let Ok(()) = first_room(parts, more) else {
        // a call, in the place of the drop of each command
        let_go(part);
        return Err(Stop::NoMemory);
    };
    parts.push(part)?;
    trim(parts, more);
    Ok(())
}

/// Room for the first part, and for a second where more follow.
fn first_room(parts: &mut Vec<Vec<Command>>, more: bool) -> Result<(), NoMemory>
    ensures { parts.new.items ≡ parts.old.items }
{
    let room: usize = if more { 2 } else { 1 };
    if parts.is_empty() {
        parts.reserve_exact(room)?;
    }
    Ok(())
}

/// Gives back the room that is left behind the last part.
fn trim(parts: &mut Vec<Vec<Command>>, more: bool)
    ensures { parts.new.items ≡ parts.old.items }
{
    if !more {
        parts.shrink_to_fit();
    }
}

/// Drops a part.
fn let_go(_part: Vec<Command>) {}

/// The commands of a part. A simple one that no `;` follows is the last. The list keeps no room to
/// spare: most lists are short, and every pass walks them.
#[cycle(command)]
fn read_part(reader: &mut Reader<'_>) -> Result<Vec<Command>, Stop>
    requires { most_commands reader.old ≤ 2 ^ 32 }
    ensures answer { NumbersAs whole_part SamePart result reader.old reader.new }
    ensures room { most_commands reader.new ≤ most_commands reader.old }
    ensures shorter { length reader.new.rest.now ≤ length reader.old.rest.now }
{
    let mut commands = room_for(reader.alloc, reader.rest)?;
    loop {
        match what_begins(reader.rest) {
            Beginning::Simple => {
                let command = read_simple(reader)?;
                append(&mut commands, command)?;
                if !reader.take(Mark::Semicolon) {
                    commands.shrink_to_fit();
                    return Ok(commands);
                }
            }
            Beginning::Compound => {
                let command = read_compound(reader)?;
                append(&mut commands, command)?;
            }
            Beginning::Semicolon => {
                reader.skip(Mark::Semicolon)?;
            }
            Beginning::Nothing => {
                commands.shrink_to_fit();
                return Ok(commands);
            }
        }
    }
}

/// A list with room for the commands that these tokens begin with. It is made before they are read, so that in
/// memory it lies in front of what is inside, as every pass walks.
fn room_for(alloc: Global, tokens: &[Token]) -> Result<Vec<Command>, Stop>
    ensures { MadeIfMemorySuffices (λ commands. commands.items ≡ []) result }
{
    let commands = Vec::with_capacity(alloc, commands_in_sight(tokens))?;
    Ok(commands)
}

/// Puts a command behind others.
fn append(commands: &mut Vec<Command>, command: Command) -> Result<(), Stop>
    ensures { MadeIfMemorySuffices (λ _. commands.new.items ≡ commands.old.items ++ command ∷ []) result }
{
    room_for_second(commands);
    commands.push(command)?;
    Ok(())
}

/// What begins at the first of these tokens.
#[inline(always)]
fn what_begins(tokens: &[Token]) -> Beginning
    ensures { begins_as result ≡ beginning tokens.now }
{
    let [token, ..] = tokens else {
        return Beginning::Nothing;
    };
    match token.kind {
        TokenKind::Let | TokenKind::View | TokenKind::Name(_) => Beginning::Simple,
        TokenKind::OpenBrace | TokenKind::If | TokenKind::While | TokenKind::For => {
            Beginning::Compound
        }
        TokenKind::Semicolon => Beginning::Semicolon,
        _ => Beginning::Nothing,
    }
}

/// A command that ends with a block. It stands apart, for the sake of the stack.
#[cycle(command)]
#[inline(never)]
fn read_compound(reader: &mut Reader<'_>) -> Result<Command, Stop>
    requires { most_commands reader.old ≤ 2 ^ 32 }
    ensures answer { NumbersAs (the_compound the_block) SameCompound result reader.old reader.new }
    ensures room { most_commands reader.new ≤ most_commands reader.old }
    ensures shorter { length reader.new.rest.now ≤ length reader.old.rest.now }
    ensures taken { IfOk result (λ _. TookTokens reader.old reader.new) }
{
    if reader.is_next(Mark::If) {
        read_if(reader)
    } else if reader.is_next(Mark::While) {
        read_while(reader)
    } else if reader.is_next(Mark::For) {
        read_for(reader)
    } else {
        read_block(reader)
    }
}

/// `{ .. }`
#[cycle(command)]
pub(crate) fn read_block(reader: &mut Reader<'_>) -> Result<Command, Stop>
    requires { most_commands reader.old ≤ 2 ^ 32 }
    ensures answer { NumbersAs the_block SameBlock result reader.old reader.new }
    ensures room { most_commands reader.new ≤ most_commands reader.old }
    ensures shorter { length reader.new.rest.now ≤ length reader.old.rest.now }
    ensures taken { IfOk result (λ _. TookTokens reader.old reader.new) }
{
    let place = reader.skip(Mark::OpenBrace)?;
    let id = begin(&mut reader.commands);
    let body = read_sequence(reader)?;
    closed_block(reader, Mark::CloseBrace, id, place, body)
}

/// The block of this number with these parts, once the sign that closes it is read.
fn closed_block(
    reader: &mut Reader<'_>,
    mark: Mark,
    id: u32,
    place: Place,
    body: Vec<Vec<Command>>,
) -> Result<Command, Stop>
    ensures answer { AnswersAs (the mark) (λ c p. action_seen c ≡ block_seen id place body)
        result reader.old reader.new }
    ensures commands { reader.new.commands ≡ reader.old.commands }
    ensures shorter { length reader.new.rest.now ≤ length reader.old.rest.now }
{
    reader.skip(mark)?;
    let form = CommandForm::Block { body };
    Ok(Command { id, place, form })
}

/// `{ .. }`, as a command holds it.
#[cycle(command)]
fn read_boxed_block(reader: &mut Reader<'_>) -> Result<Box<Command>, Stop>
    requires { most_commands reader.old ≤ 2 ^ 32 }
    ensures answer { NumbersAs the_block SameBoxedBlock result reader.old reader.new }
    ensures room { most_commands reader.new ≤ most_commands reader.old }
    ensures shorter { length reader.new.rest.now ≤ length reader.old.rest.now }
    ensures taken { IfOk result (λ _. TookTokens reader.old reader.new) }
{
    let block = read_block(reader)?;
    let block = Box::new(reader.alloc, block)?;
    Ok(block)
}

/// `(test)`, what an `if` or a `while` asks.
fn read_test(reader: &mut Reader<'_>) -> Result<Box<Expr>, Stop>
    ensures answer { AnswersAs the_test (λ e t. SameTerm e.value t.test) result
        reader.old reader.new }
    ensures commands { reader.new.commands ≡ reader.old.commands }
    ensures shorter { length reader.new.rest.now ≤ length reader.old.rest.now }
{
    reader.skip(Mark::OpenParen)?;
    let test = read_expression(reader, 0)?;
    reader.skip(Mark::CloseParen)?;
    let held = Box::new(reader.alloc, test)?;
    Ok(held)
}

/// The word of an `if` or a `while` with its test; its command begins there.
fn read_asked(reader: &mut Reader<'_>, word: Mark) -> Result<Asked, Stop>
    requires { most_commands reader.old ≤ 2 ^ 32 }
    ensures answer { NumbersAs (the_asked word) SameAsked result reader.old reader.new }
    ensures room { most_commands reader.new ≤ most_commands reader.old }
    ensures shorter { length reader.new.rest.now ≤ length reader.old.rest.now }
    ensures taken { IfOk result (λ _. TookTokens reader.old reader.new) }
{
    let place = reader.skip(word)?;
    let id = begin(&mut reader.commands);
    let test = read_test(reader)?;
    Ok(Asked { id, place, test })
}

/// `if (test) { .. }` with what follows `else`, if anything does.
#[cycle(command)]
fn read_if(reader: &mut Reader<'_>) -> Result<Command, Stop>
    requires { most_commands reader.old ≤ 2 ^ 32 }
    ensures answer { NumbersAs whole_if SameIf result reader.old reader.new }
    ensures room { most_commands reader.new ≤ most_commands reader.old }
    ensures shorter { length reader.new.rest.now ≤ length reader.old.rest.now }
    ensures taken { IfOk result (λ _. TookTokens reader.old reader.new) }
{
    let asked = read_asked(reader, Mark::If)?;
    let arms = read_arms(reader);
    if_of(asked, arms)
}

/// The block of an `if`, and what follows `else`, if anything does.
#[cycle(command)]
fn read_arms(reader: &mut Reader<'_>) -> Result<Arms, Stop>
    requires { most_commands reader.old ≤ 2 ^ 32 }
    ensures answer { NumbersAs the_arms SameArms result reader.old reader.new }
    ensures room { most_commands reader.new ≤ most_commands reader.old }
    ensures shorter { length reader.new.rest.now ≤ length reader.old.rest.now }
{
    let chosen = read_boxed_block(reader)?;
    let other = read_else(reader);
    arms_of(chosen, other)
}

/// The arms of an `if`, where the second was read or is not there.
fn arms_of(chosen: Box<Command>, other: Result<Option<Box<Command>>, Stop>) -> Result<Arms, Stop>
    ensures { MadeOf (λ read arms. arms ≡ arms_with chosen read) other result }
{
    match other {
        Ok(other) => Ok(Arms { chosen, other }),
        Err(stop) => Err(stop),
    }
}

/// The `if` that asks this, where its arms were read.
fn if_of(asked: Asked, arms: Result<Arms, Stop>) -> Result<Command, Stop>
    ensures { MadeOf (λ read c. action_seen c ≡ if_seen asked read) arms result }
{
    match arms {
        Ok(arms) => Ok(decided(asked, arms)),
        Err(stop) => Err(stop),
    }
}

/// The `if` that asks this, with these arms.
fn decided(asked: Asked, arms: Arms) -> Command
    ensures { action_seen result ≡ if_seen asked arms }
{
    let Asked { id, place, test } = asked;
    let Arms { chosen, other } = arms;
    let form = CommandForm::If {
        test,
        then: chosen,
        other,
    };
    Command { id, place, form }
}

/// `else` and its block, if the word comes next.
#[cycle(command)]
fn read_else(reader: &mut Reader<'_>) -> Result<Option<Box<Command>>, Stop>
    requires { most_commands reader.old ≤ 2 ^ 32 }
    ensures answer { NumbersAs whole_else SameElse result reader.old reader.new }
    ensures room { most_commands reader.new ≤ most_commands reader.old }
    ensures shorter { length reader.new.rest.now ≤ length reader.old.rest.now }
{
    if !reader.is_next(Mark::Else) {
        return Ok(None);
    }
    reader.skip(Mark::Else)?;
    if reader.is_next(Mark::If) {
        let inner = read_else_if(reader)?;
        return Ok(Some(Box::new(reader.alloc, inner)?));
    }
    let block = read_boxed_block(reader)?;
    Ok(Some(block))
}

/// The block that an `if` after `else` stands for: its one command is that `if`.
#[cycle(command)]
fn read_else_if(reader: &mut Reader<'_>) -> Result<Command, Stop>
    requires { most_commands reader.old < 2 ^ 32 }
    ensures answer { NumbersAs whole_if SameElseIf result reader.old reader.new }
    ensures room { most_commands reader.new ≤ most_commands reader.old + 1 }
    ensures shorter { length reader.new.rest.now ≤ length reader.old.rest.now }
{
    let id = begin(&mut reader.commands);
    let inner = read_if(reader)?;
    block_of_one(reader.alloc, id, inner)
}

/// The block of this number that holds this command alone.
fn block_of_one(alloc: Global, id: u32, inner: Command) -> Result<Command, Stop>
    ensures { MadeIfMemorySuffices (λ block. action_seen block ≡ block_around id inner) result }
{
    let place = inner.place;
    let mut part = Vec::new(alloc);
    part.push(inner)?;
    let mut body = Vec::new(alloc);
    body.push(part)?;
    let form = CommandForm::Block { body };
    Ok(Command { id, place, form })
}

/// `while (test) { .. }`
#[cycle(command)]
fn read_while(reader: &mut Reader<'_>) -> Result<Command, Stop>
    requires { most_commands reader.old ≤ 2 ^ 32 }
    ensures answer { NumbersAs (the_while the_block) SameCompound result reader.old reader.new }
    ensures room { most_commands reader.new ≤ most_commands reader.old }
    ensures shorter { length reader.new.rest.now ≤ length reader.old.rest.now }
    ensures taken { IfOk result (λ _. TookTokens reader.old reader.new) }
{
    let asked = read_asked(reader, Mark::While)?;
    let body = read_boxed_block(reader);
    while_of(asked, body)
}

/// The `while` that asks this, where its block was read.
fn while_of(asked: Asked, body: Result<Box<Command>, Stop>) -> Result<Command, Stop>
    ensures { MadeOf (λ read c. action_seen c ≡ while_seen asked read) body result }
{
    match body {
        Ok(body) => Ok(repeated(asked, body)),
        Err(stop) => Err(stop),
    }
}

/// The `while` that asks this, with this block.
fn repeated(asked: Asked, body: Box<Command>) -> Command
    ensures { action_seen result ≡ while_seen asked body }
{
    let Asked { id, place, test } = asked;
    let form = CommandForm::While { test, body };
    Command { id, place, form }
}

/// `for (let ..) { .. }` with its combine block, if one follows.
#[cycle(command)]
fn read_for(reader: &mut Reader<'_>) -> Result<Command, Stop>
    requires { most_commands reader.old ≤ 2 ^ 32 }
    ensures answer { NumbersAs (the_for the_block) SameCompound result reader.old reader.new }
    ensures room { most_commands reader.new ≤ most_commands reader.old }
    ensures shorter { length reader.new.rest.now ≤ length reader.old.rest.now }
    ensures taken { IfOk result (λ _. TookTokens reader.old reader.new) }
{
    let head = read_loop_head(reader)?;
    let id = begin(&mut reader.commands);
    let body = read_boxed_block(reader)?;
    let (combine, combine_place) = read_combine(reader, head.place)?;
    let whole = counted_loop(reader.alloc, id, head, body, combine, combine_place)?;
    Ok(whole)
}

/// The loop of this number with this head and these blocks.
fn counted_loop(
    alloc: Global,
    id: u32,
    head: LoopHead,
    body: Box<Command>,
    combine: Option<Box<Command>>,
    combine_place: Place,
) -> Result<Command, Stop>
    ensures { MadeIfMemorySuffices (λ c. action_seen c ≡ loop_seen id head body combine combine_place) result }
{
    let LoopHead {
        place,
        iterator,
        declared,
        low,
        high,
        factor,
        unroll,
    } = head;
    let header = LoopHeader {
        iterator,
        declared,
        low: low.value,
        low_place: low.place,
        high: high.value,
        high_place: high.place,
        factor: factor.value,
        factor_place: factor.place,
        unroll_place: unroll,
        combine_place,
    };
    let held = Box::new(alloc, header)?;
    let form = CommandForm::For {
        header: held,
        body,
        combine,
    };
    Ok(Command { id, place, form })
}

/// `combine { .. }` with the place of its word, if it comes next; else the place of the loop.
#[cycle(command)]
fn read_combine(
    reader: &mut Reader<'_>,
    place: Place,
) -> Result<(Option<Box<Command>>, Place), Stop>
    requires { most_commands reader.old ≤ 2 ^ 32 }
    ensures answer { NumbersAs whole_combine (SameCombineAt place) result reader.old reader.new }
    ensures room { most_commands reader.new ≤ most_commands reader.old }
    ensures shorter { length reader.new.rest.now ≤ length reader.old.rest.now }
{
    if !reader.is_next(Mark::Combine) {
        return Ok((None, place));
    }
    let word = reader.skip(Mark::Combine)?;
    let block = read_boxed_block(reader)?;
    Ok((Some(block), word))
}
