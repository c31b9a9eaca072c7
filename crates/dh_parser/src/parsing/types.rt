//! Kinds and types.

ghost use Rattle.std.specs.Prelude.{◌≡◌, ◌≤◌, length, IfOk, IfErr};
ghost use Rattle.dh_value.specs.declared.kinds.Kind.TheVariants as kinds;
ghost use Rattle.dh_parser.specs.Answers.{SameBanks, SamePorts, SameDim, SameType, AnswersAs, AnswersWidth, SameDims, SameKind, TookTokens, TypeOfParts};
ghost use Rattle.dh_parser.specs.Grammar.{bit_kind, ubit_kind};
ghost use Rattle.dh_parser.specs.Reading.{the_kind, the_ports, the_banks, the_dim, the_type};
ghost use Rattle.dh_parser.specs.StepsEnough.{all_dims};
ghost use Rattle.dh_parser.specs.declared.parsing.reading.Stop.TheVariants as stop;

use crate::parsing::reading::{Mark, Numeral, Reader, Stop};
use dh_base::{Items, Place};
use dh_lexer::{Token, TokenKind};
use dh_tree::{Dim, DimPlaces, Kind, Shape, ShapePlaces};

/// A type as it is written.
#[derive(Drop)]
pub(crate) struct WrittenType {
    /// Its kind, ports and dimensions; 1 port and 1 bank where they are not written.
    pub shape: Shape,
    /// The places of its parts.
    pub places: ShapePlaces,
    /// Whether it has ports or dimensions, as a memory has.
    pub is_memory: bool,
}

/// A number of ports as it is written.
#[derive(Clone, Copy)]
pub(crate) struct WrittenPorts {
    /// Where the `{` before it stands.
    pub braces: Place,
    /// The number.
    pub number: Numeral,
}

/// A number of banks as it is written, or 1 where it is not.
#[derive(Clone, Copy)]
pub(crate) struct WrittenBanks {
    /// Where the word before it stands, where it is written.
    pub word: Option<Place>,
    /// The number.
    pub number: Numeral,
}

/// A dimension as it is written.
#[derive(Clone, Copy)]
pub(crate) struct WrittenDim {
    /// Its size and banks.
    pub dim: Dim,
    /// The places of its parts.
    pub places: DimPlaces,
}

/// The most bits of a kind.
const MOST_BITS: u64 = 64;

/// `bool`, `bit<width>` or `ubit<width>`
pub(crate) fn read_kind(reader: &mut Reader<'_>) -> Result<Kind, Stop>
    ensures memory { IfErr result (λ e. e ≡ stop.Here) }
    ensures answer { AnswersAs the_kind SameKind result reader.old reader.new }
    ensures commands { reader.new.commands ≡ reader.old.commands }
    ensures shorter { length reader.new.rest.now ≤ length reader.old.rest.now }
{
    let [token, after @ ..] = reader.rest else {
        return Err(Stop::Here);
    };
    match token.kind {
        TokenKind::Bool => {
            reader.rest = after;
            Ok(Kind::Bool)
        }
        TokenKind::Bit => {
            reader.rest = after;
            Ok(Kind::Signed(read_width(reader)?))
        }
        TokenKind::Ubit => {
            reader.rest = after;
            Ok(Kind::Unsigned(read_width(reader)?))
        }
        _ => Err(Stop::Here),
    }
}

/// The width of a kind between its signs, from 1 to 64.
fn read_width(reader: &mut Reader<'_>) -> Result<u8, Stop>
    ensures memory { IfErr result (λ e. e ≡ stop.Here) }
    ensures answer { AnswersWidth ubit_kind kinds.Unsigned result reader.old reader.new }
    ensures signed { AnswersWidth bit_kind kinds.Signed result reader.old reader.new }
    ensures commands { reader.new.commands ≡ reader.old.commands }
    ensures shorter { length reader.new.rest.now ≤ length reader.old.rest.now }
{
    reader.skip(Mark::Less)?;
    let [
        Token {
            kind: TokenKind::Number(width),
            ..
        },
        after @ ..,
    ] = reader.rest
    else {
        return Err(Stop::Here);
    };
    let width = *width;
    if width < 1 || width > MOST_BITS {
        return Err(Stop::Here);
    }
    reader.rest = after;
    reader.skip(Mark::Greater)?;
    Ok(width as u8)
}

/// `kind{ports}[size bank banks]..`
pub(crate) fn read_type(reader: &mut Reader<'_>) -> Result<WrittenType, Stop>
    ensures answer { AnswersAs the_type SameType result reader.old reader.new }
    ensures commands { reader.new.commands ≡ reader.old.commands }
    ensures shorter { length reader.new.rest.now ≤ length reader.old.rest.now }
{
    let place = reader.place()?;
    let kind = read_kind(reader)?;
    let ports = read_ports(reader)?;
    let (dims, places) = read_dims(reader)?;
    Ok(written_type(place, kind, ports, dims, places))
}

/// The type of these parts, that begins at this place.
fn written_type(
    place: Place,
    kind: Kind,
    ports: Option<WrittenPorts>,
    dims: Items<Dim>,
    places: Items<DimPlaces>,
) -> WrittenType
    ensures { TypeOfParts kind place ports dims places result }
{
    let (number, braces_place, is_memory) = match ports {
        Some(ports) => (ports.number, Some(ports.braces), true),
        None => (Numeral { value: 1, place }, None, !dims.is_empty()),
    };
    WrittenType {
        shape: Shape {
            kind,
            ports: number.value,
            dims,
        },
        places: ShapePlaces {
            kind_place: place,
            braces_place,
            ports_place: number.place,
            dims: places,
        },
        is_memory,
    }
}

/// A number of ports in braces, if a brace comes next.
fn read_ports(reader: &mut Reader<'_>) -> Result<Option<WrittenPorts>, Stop>
    ensures memory { IfErr result (λ e. e ≡ stop.Here) }
    ensures answer { AnswersAs the_ports SamePorts result reader.old reader.new }
    ensures commands { reader.new.commands ≡ reader.old.commands }
    ensures shorter { length reader.new.rest.now ≤ length reader.old.rest.now }
{
    if !reader.is_next(Mark::OpenBrace) {
        return Ok(None);
    }
    let braces = reader.skip(Mark::OpenBrace)?;
    let number = reader.number()?;
    reader.skip(Mark::CloseBrace)?;
    Ok(Some(WrittenPorts { braces, number }))
}

/// How many dimensions room is taken for first: most memories have one.
fn first_dims(reader: &Reader<'_>) -> usize {
    if reader.is_next(Mark::OpenBracket) {
        1
    } else {
        0
    }
}

/// The dimensions that come next, and the places of their parts.
fn read_dims(reader: &mut Reader<'_>) -> Result<(Items<Dim>, Items<DimPlaces>), Stop>
    ensures answer { AnswersAs all_dims SameDims result reader.old reader.new }
    ensures commands { reader.new.commands ≡ reader.old.commands }
    ensures shorter { length reader.new.rest.now ≤ length reader.old.rest.now }
{
    let room = first_dims(reader);
    let mut dims = Items::with_room(reader.alloc, room)?;
    let mut places = Items::with_room(reader.alloc, room)?;
    while reader.is_next(Mark::OpenBracket) {
        let written = read_dim(reader)?;
        dims.push(written.dim)?;
        places.push(written.places)?;
    }
    Ok((dims, places))
}

/// `[size]` or `[size bank banks]`
fn read_dim(reader: &mut Reader<'_>) -> Result<WrittenDim, Stop>
    ensures memory { IfErr result (λ e. e ≡ stop.Here) }
    ensures answer { AnswersAs the_dim SameDim result reader.old reader.new }
    ensures commands { reader.new.commands ≡ reader.old.commands }
    ensures shorter { length reader.new.rest.now ≤ length reader.old.rest.now }
    ensures taken { IfOk result (λ _. TookTokens reader.old reader.new) }
{
    let open_place = reader.skip(Mark::OpenBracket)?;
    let size = reader.number()?;
    let banks = read_banks(reader, size.place)?;
    reader.skip(Mark::CloseBracket)?;
    Ok(WrittenDim {
        dim: Dim {
            size: size.value,
            banks: banks.number.value,
        },
        places: DimPlaces {
            open_place,
            size_place: size.place,
            word_place: banks.word,
            banks_place: banks.number.place,
        },
    })
}

/// The number after `bank`, if the word comes next; else 1, at the place of the size.
fn read_banks(reader: &mut Reader<'_>, size: Place) -> Result<WrittenBanks, Stop>
    ensures memory { IfErr result (λ e. e ≡ stop.Here) }
    ensures answer { AnswersAs the_banks (SameBanks size) result reader.old reader.new }
    ensures commands { reader.new.commands ≡ reader.old.commands }
    ensures shorter { length reader.new.rest.now ≤ length reader.old.rest.now }
{
    if !reader.is_next(Mark::Bank) {
        return Ok(WrittenBanks {
            word: None,
            number: Numeral {
                value: 1,
                place: size,
            },
        });
    }
    let word = reader.skip(Mark::Bank)?;
    let number = reader.number()?;
    Ok(WrittenBanks {
        word: Some(word),
        number,
    })
}
