//! Whole programs: declarations, functions and what names stand for.

use crate::tables::{Name, Shape};
use crate::trees::{Command, Ref};
use dh_base::{Items, Place};
use dh_value::Kind;

/// Where the parts of a type stand.
#[derive(Drop)]
pub struct ShapePlaces {
    /// Where its kind begins.
    pub kind_place: Place,
    /// Where the `{` of its ports stands, where they are written.
    pub braces_place: Option<Place>,
    /// Where the number of ports stands; the place of the type where it is not written.
    pub ports_place: Place,
    /// Those of the dimensions, in order.
    pub dims: Items<DimPlaces>,
}

/// Where the parts of a dimension stand.
#[derive(Clone, Copy, PartialEq, Eq)]
pub struct DimPlaces {
    /// Where its `[` stands.
    pub open_place: Place,
    /// Where the size stands.
    pub size_place: Place,
    /// Where its word `bank` stands, where it is written.
    pub word_place: Option<Place>,
    /// Where the number of banks stands; the place of the size where it is not written.
    pub banks_place: Place,
}

/// `decl name: shape;`, a memory from outside.
#[derive(Drop)]
pub struct Decl {
    /// The memory.
    pub name: Ref,
    /// Its shape; rules refuse one without dimensions.
    pub shape: Shape,
    /// The places of the shape's numbers.
    pub shape_places: ShapePlaces,
}

/// A parameter of a function.
#[derive(Drop)]
pub struct Parameter {
    /// The parameter.
    pub name: Ref,
    /// The shape of a memory, for a type with ports or dimensions.
    pub shape: Option<Shape>,
    /// The places of the type's numbers.
    pub shape_places: ShapePlaces,
    /// The kind of the scalar, or of the memory's elements.
    pub kind: Kind,
}

/// `def name(parameters) = body`
#[derive(Drop)]
pub struct Function {
    /// Where its word `def` stands.
    pub place: Place,
    /// The function.
    pub name: Ref,
    /// The parameters, in order.
    pub parameters: Vec<Parameter>,
    /// A block.
    pub body: Command,
}

/// The sorts of what a name can stand for.
#[derive(Clone, Copy, PartialEq, Eq)]
pub enum Sort {
    /// A variable or a scalar parameter.
    Variable,
    /// The iterator of a `for`.
    Iterator,
    /// A memory or a memory parameter.
    Memory,
    /// A view.
    View,
    /// A function.
    Function,
}

/// What a name stands for.
#[derive(Drop)]
pub struct Entity {
    /// The name.
    pub name: Name,
    /// Where it is declared.
    pub place: Place,
    /// What it is.
    pub sort: Sort,
}

/// A program.
#[derive(Drop)]
pub struct Tree {
    /// The memories from outside, in text order.
    pub decls: Vec<Decl>,
    /// The functions, in text order.
    pub functions: Vec<Function>,
    /// The block that the program runs; its place is that of its first token.
    pub body: Command,
    /// What names stand for; empty until names are resolved.
    pub entities: Vec<Entity>,
}

impl Tree {
    /// Drops the tree. What a drop of a tree does is long, and stands in the proof of each function that
    /// drops one by itself; a call of this one stands there in its place.
    pub fn let_go(self) {
        let Tree {
            decls: _decls,
            functions: _functions,
            body,
            entities: _entities,
        } = self;
        let Command {
            id: _id,
            place: _place,
            form,
        } = body;
        form.let_go();
    }
}
