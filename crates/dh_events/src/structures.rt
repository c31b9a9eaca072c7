//! Numbers for the structures of expressions: two expressions have one number where they are equal,
//! their places aside.

ghost use Rattle.std.specs.Prelude.{◌≡◌, [], IfOk};
ghost use Rattle.dh_meets.specs.Sharing.{number_of_op};
ghost use Rattle.dh_events.specs.Digests as digests;
ghost use Rattle.dh_events.specs.Structures as definitions;
ghost use Rattle.dh_events.specs.Structures.{StructuresAreDistinct, Numbers};

use crate::digests::joined;
use dh_base::NoMemory;
use dh_value::{Kind, Op};
use indexmap::IndexSet;
use std::alloc::Global;
use std::hash::{Hash, Hasher};
use std::marker::Model;

/// A kind, or none.
#[derive(Clone, Copy, PartialEq, Eq)]
pub enum MaybeKind {
    /// None was found.
    Unknown,
    /// `bool`.
    Truth,
    /// `ubit` of a width.
    Unsigned(u8),
    /// `bit` of a width.
    Signed(u8),
}

/// What an expression is, by the numbers of the structures inside it.
#[derive(Clone, Copy, PartialEq, Eq)]
pub enum Form {
    /// A number.
    Number {
        /// Whether it has a `-`.
        negative: bool,
        /// The number without the sign.
        value: u64,
    },
    /// `true` or `false`.
    Truth {
        /// Which of them.
        value: bool,
    },
    /// A variable.
    Variable {
        /// What it stands for.
        entity: u32,
    },
    /// An element of a memory.
    Read {
        /// What the memory's name stands for.
        entity: u32,
        /// Which element.
        element: usize,
    },
    /// An operation.
    Operation {
        /// The number of the operator.
        op: u32,
        /// The left operand.
        left: usize,
        /// The right operand.
        right: usize,
    },
    /// A cast.
    Cast {
        /// The kind that it casts to.
        to: MaybeKind,
        /// What is cast.
        inner: usize,
    },
    /// No indices.
    NoIndex,
    /// Indices, and one more.
    Index {
        /// The indices before it; none where it is the first.
        before: Option<usize>,
        /// The last of them.
        last: usize,
    },
    /// A row of a bank.
    Row {
        /// The bank.
        bank: u64,
        /// The row.
        row: usize,
    },
}

/// A structure.
#[derive(Clone, Copy, PartialEq, Eq)]
pub struct Structure {
    /// The kind of its values; unknown for what is no expression.
    pub sort: MaybeKind,
    /// What it is.
    pub form: Form,
}

// The number by which a form is sought.
fn form_digest(form: Form) -> usize
    ensures { result ≡ digests.of_form form }
{
    match form {
        Form::Number { value, .. } => joined(value as usize, 1),
        Form::Truth { .. } => 2,
        Form::Variable { entity } => joined(entity as usize, 3),
        Form::Read { entity, element } => joined(joined(entity as usize, element), 4),
        Form::Operation { op, left, right } => joined(joined(joined(left, right), op as usize), 5),
        Form::Cast { inner, .. } => joined(inner, 6),
        Form::NoIndex => 7,
        Form::Index { before: None, last } => joined(last, 8),
        Form::Index {
            before: Some(before),
            last,
        } => joined(joined(before, last), 9),
        Form::Row { bank, row } => joined(joined(bank as usize, row), 10),
    }
}

// A write of one word, where the parts of a form would take up to five.
impl Hash for Structure {
    ghost use Rattle.std.specs.Hash as fed;
    ghost use Rattle.std.proofs.Common.{ap};
    ghost use Rattle.dh_events.specs.Digests.{of_structure};
    ghost use Rattle.dh_events.specs.AlikeDigests.{alike_structures};

    ghost hash_input = { λ s. fed.usize (of_structure s) };

    ghost respects_eq = { λ x y h. ap fed.usize (alike_structures x y h) };

    fn hash<H: Hasher>(&self, state: &mut H) {
        state.write_usize(form_digest(self.form));
    }
}

/// Structures, each with the number of its place.
#[derive(Drop)]
pub struct Structures {
    known: IndexSet<Structure>,
}

impl Model for Structures {
    ghost use Rattle.std.specs.Prelude.{List};
    ghost use Rattle.dh_events.specs.declared.structures.Structure.{Structure};
    ghost use Rattle.dh_events.specs.Structures.{StructuresAreDistinct};

    ghost Value = { List Structure };

    ghost view = { λ s. s.known.keys };

    ghost invariant = { λ s. StructuresAreDistinct s.known.keys };
}

impl Structures {
    /// None.
    pub fn new(alloc: Global) -> Structures
        ensures { result ≡ [] }
    {
        Structures {
            known: IndexSet::new(alloc),
        }
    }

    /// The number of a structure.
    pub fn number(&mut self, structure: Structure) -> Result<usize, NoMemory>
        ensures numbers { IfOk result (λ n. Numbers self.old self.new structure n) }
        ensures distinct { StructuresAreDistinct self.new }
    {
        let found = self.known.insert_full(structure)?;
        Ok(found.0)
    }
}

/// The sort of a kind.
pub fn sort_of(kind: Kind) -> MaybeKind
    ensures { result ≡ definitions.kind_sort kind }
{
    match kind {
        Kind::Bool => MaybeKind::Truth,
        Kind::Unsigned(width) => MaybeKind::Unsigned(width),
        Kind::Signed(width) => MaybeKind::Signed(width),
    }
}

/// The sort of a kind that may lack.
pub fn sort_found(kind: Option<Kind>) -> MaybeKind
    ensures { result ≡ definitions.sort_found kind }
{
    match kind {
        Some(kind) => sort_of(kind),
        None => MaybeKind::Unknown,
    }
}

/// The number of an operator.
pub fn op_number(op: Op) -> u32
    ensures { result ≡ number_of_op op }
{
    match op {
        Op::Add => 0,
        Op::Sub => 1,
        Op::Mul => 2,
        Op::And => 3,
        Op::Or => 4,
        Op::Xor => 5,
        Op::Shl => 6,
        Op::Shr => 7,
        Op::Lt => 8,
        Op::Gt => 9,
        Op::Le => 10,
        Op::Ge => 11,
        Op::Eq => 12,
        Op::Ne => 13,
        Op::Both => 14,
        Op::Either => 15,
    }
}
