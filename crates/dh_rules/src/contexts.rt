//! What is round a command, as far as the rules go.

ghost use Rattle.std.specs.Prelude.{◌≡◌};
ghost use Rattle.dh_tree.specs.Placements as placements;
ghost use Rattle.dh_tree.specs.Scopes.{entity_number};
ghost use Rattle.dh_rules.specs.Walked.{context_seen};

/// What is round a command.
#[derive(Clone, Copy)]
pub(crate) struct Context {
    /// A loop or a branch is round it.
    pub(crate) within: bool,
    /// It stands in the body of a loop of several copies.
    pub(crate) copied: bool,
    /// Nothing that is declared outside the innermost such body has this number or more; 0 where there
    /// is none.
    pub(crate) first: u32,
    /// The iterator of the loop whose copies the innermost block round it joins that joins copies.
    pub(crate) joins: Option<u32>,
}

/// Round the body of a program.
pub(crate) fn nothing_round() -> Context
    ensures { context_seen result ≡ placements.nothing_round }
{
    Context {
        within: false,
        copied: false,
        first: 0,
        joins: None,
    }
}

/// In an arm of an `if`, and in the body of a `while`.
pub(crate) fn branched(context: Context) -> Context
    ensures { context_seen result ≡ placements.branched (context_seen context) }
{
    Context {
        within: true,
        copied: context.copied,
        first: context.first,
        joins: context.joins,
    }
}

/// The first number inside a loop: of one of several copies that of its iterator.
fn first_inside(first: u32, factor: u64, iterator: Option<u32>) -> u32
    ensures { result ≡ placements.first_inside first factor iterator }
{
    match iterator {
        Some(number) => { if 1 < factor { number } else { first } }
        None => first,
    }
}

/// In the body of a loop of so many copies.
pub(crate) fn in_body(context: Context, factor: u64, iterator: Option<u32>) -> Context
    ensures { context_seen result ≡ placements.in_body (context_seen context) factor iterator }
{
    Context {
        within: true,
        copied: context.copied | (1 < factor),
        first: first_inside(context.first, factor, iterator),
        joins: context.joins,
    }
}

/// The number of an iterator; each has one where names are resolved.
fn number_of(iterator: Option<u32>) -> u32
    ensures { result ≡ entity_number iterator }
{
    match iterator {
        Some(number) => number,
        None => 0,
    }
}

/// In the block that joins the copies of a loop, which is no part of the loop's body.
pub(crate) fn in_combine(context: Context, iterator: Option<u32>) -> Context
    ensures { context_seen result ≡ placements.in_combine (context_seen context) iterator }
{
    Context {
        within: true,
        copied: context.copied,
        first: context.first,
        joins: Some(number_of(iterator)),
    }
}
