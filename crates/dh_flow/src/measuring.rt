//! How much of the graph nodes take: a walk from the last node to the first, which leaves a mark for each node and
//! for each thread, for the second walk to take up in text order.

ghost use Rattle.std.specs.Prelude.{◌≡◌, IfOk, OnOk, length};
ghost use Rattle.dh_plan.specs.PlainPlans.{no_nodes};
ghost use Rattle.dh_flow.specs.declared.measuring.Entry.TheVariants.{Nothing};
ghost use Rattle.dh_flow.specs.Footprints.{cut, footprint_of, list_mark, test_mark, entry_or, joined_footprint, tested_footprint, grouped_footprint, forked_footprint, arms_mark};
ghost use Rattle.dh_flow.specs.Measured.{Leaves, MeasuresAll, MeasuresOne, MeasuresThreads};

use dh_base::NoMemory;
use dh_plan::Node;

/// How nodes begin.
#[derive(Clone, Copy, PartialEq, Eq)]
pub enum Entry {
    /// They do no block.
    Nothing,
    /// With a state.
    State,
    /// With threads: so many, whose groups stand behind those nested in them.
    Threads { nested: u64, count: u64 },
}

/// What nodes take of the graph.
#[derive(Clone, Copy)]
pub struct Footprint {
    /// How many states.
    pub states: u64,
    /// How many groups.
    pub groups: u64,
    /// How they begin.
    pub entry: Entry,
}

/// What the second walk is told of a node.
#[derive(Clone, Copy)]
pub struct NodeMark {
    /// The node.
    pub own: Footprint,
    /// Its body, or its first arm.
    pub inner: Footprint,
    /// How its second arm begins.
    pub other: Entry,
    /// How the nodes behind it begin.
    pub behind: Entry,
}

/// What no node takes.
pub fn blank() -> Footprint
    ensures { result ≡ footprint_of no_nodes }
{
    Footprint {
        states: 0,
        groups: 0,
        entry: Entry::Nothing,
    }
}

/// The mark of nodes without parts of their own.
pub fn plain_mark(own: Footprint) -> NodeMark
    ensures { result ≡ list_mark own }
{
    NodeMark {
        own,
        inner: blank(),
        other: Entry::Nothing,
        behind: Entry::Nothing,
    }
}

/// The first of two that is something.
fn first_of(first: Entry, second: Entry) -> Entry
    ensures { result ≡ entry_or first second }
{
    match first {
        Entry::Nothing => second,
        Entry::State => first,
        Entry::Threads { .. } => first,
    }
}

/// What nodes take that stand one behind the other.
fn joined(first: Footprint, second: Footprint) -> Footprint
    ensures { result ≡ joined_footprint first second }
{
    Footprint {
        states: first.states.saturating_add(second.states),
        groups: first.groups.saturating_add(second.groups),
        entry: first_of(first.entry, second.entry),
    }
}

/// What a test and what comes behind it take.
fn tested(inside: Footprint) -> Footprint
    ensures { result ≡ tested_footprint inside }
{
    Footprint {
        states: inside.states.saturating_add(1),
        groups: inside.groups,
        entry: Entry::State,
    }
}

/// What so many threads take: their groups are there where one of them does a block.
fn forked(lists: Footprint, count: u64) -> Footprint
    ensures { result ≡ forked_footprint lists count }
{
    match lists.entry {
        Entry::Nothing => lists,
        Entry::State => with_groups(lists, count),
        Entry::Threads { .. } => with_groups(lists, count),
    }
}

/// What threads take whose groups are there.
fn with_groups(lists: Footprint, count: u64) -> Footprint
    ensures { result ≡ grouped_footprint lists count }
{
    Footprint {
        states: lists.states,
        groups: lists.groups.saturating_add(count),
        entry: Entry::Threads {
            nested: lists.groups,
            count,
        },
    }
}

/// How many threads these are.
fn list_number(lists: &[Vec<Node>]) -> u64
    ensures { result ≡ cut (length lists.now) }
{
    lists.len() as u64
}

/// Leaves the mark of a node in front of nodes that take so much. Gives what all of them take.
fn leave(
    mark: NodeMark,
    behind: Footprint,
    marks: &mut Vec<NodeMark>,
) -> Result<Footprint, NoMemory>
    ensures mark { OnOk result (Leaves mark behind.entry marks.old marks.new) }
    ensures whole { IfOk result (λ e. e ≡ joined_footprint mark.own behind) }
{
    marks.push(NodeMark {
        own: mark.own,
        inner: mark.inner,
        other: mark.other,
        behind: behind.entry,
    })?;
    Ok(joined(mark.own, behind))
}

/// Measures nodes in order.
#[cycle(measure)]
pub fn measure(nodes: &[Node], marks: &mut Vec<NodeMark>) -> Result<Footprint, NoMemory>
    ensures { IfOk result (MeasuresAll nodes.now marks.old marks.new) }
{
    let mut whole = blank();
    for i in (0..nodes.len()).rev() {
        let mark = measure_inside(&nodes[i], marks)?;
        whole = leave(mark, whole, marks)?;
    }
    Ok(whole)
}

/// Measures a node: gives its mark, and leaves those of the nodes inside it.
#[cycle(measure)]
#[tactic(auto, using(crate::proofs::NodeForms::nodes_are))]
fn measure_inside(node: &Node, marks: &mut Vec<NodeMark>) -> Result<NodeMark, NoMemory>
    ensures { IfOk result (MeasuresOne node.now marks.old marks.new) }
{
    match node {
        Node::Step { .. } => Ok(plain_mark(tested(blank()))),
        Node::Turns { count, body, .. } => {
            if *count == 0 {
                return Ok(plain_mark(blank()));
            }
            let body = measure(body.as_slice(), marks)?;
            Ok(plain_mark(body))
        }
        Node::Loop { body, .. } => {
            let body = measure(body.as_slice(), marks)?;
            Ok(loop_mark(body))
        }
        Node::Choice { then, other, .. } => {
            let other = measure(other.as_slice(), marks)?;
            let then = measure(then.as_slice(), marks)?;
            Ok(choice_mark(then, other))
        }
        Node::Threads { lists } => {
            let lists = lists.as_slice();
            let all = measure_lists(lists, marks)?;
            Ok(plain_mark(forked(all, list_number(lists))))
        }
    }
}

/// The mark of a loop with a test.
fn loop_mark(body: Footprint) -> NodeMark
    ensures { result ≡ test_mark (tested_footprint body) body Nothing }
{
    NodeMark {
        own: tested(body),
        inner: body,
        other: Entry::Nothing,
        behind: Entry::Nothing,
    }
}

/// The mark of a test before two arms.
fn choice_mark(then: Footprint, other: Footprint) -> NodeMark
    ensures { result ≡ arms_mark «then» other }
{
    NodeMark {
        own: tested(joined(then, other)),
        inner: then,
        other: other.entry,
        behind: Entry::Nothing,
    }
}

/// Measures threads, and leaves a mark of each.
#[cycle(measure)]
fn measure_lists(lists: &[Vec<Node>], marks: &mut Vec<NodeMark>) -> Result<Footprint, NoMemory>
    ensures { IfOk result (MeasuresThreads lists.now marks.old marks.new) }
{
    let mut whole = blank();
    for i in (0..lists.len()).rev() {
        let list = lists[i].as_slice();
        let mut footprint = blank();
        for j in (0..list.len()).rev() {
            let mark = measure_inside(&list[j], marks)?;
            footprint = leave(mark, footprint, marks)?;
        }
        whole = leave(plain_mark(footprint), whole, marks)?;
    }
    Ok(whole)
}
