//! The states of nodes in text order, each with the way behind it, and the groups of their threads. Takes up the
//! marks of the first walk, which tell in front of each node how much it takes and how what comes behind it begins.

ghost use Rattle.std.specs.Prelude.{◌≡◌, IfOk, OnOk};
ghost use Rattle.dh_flow.specs.ToldWays.{decision_told};
ghost use Rattle.dh_flow.specs.GraphWalks.{states_at, groups_at, first_told, AddsGroups, Forks, IsChoiceWay, IsLoopWay, IsTurnWay, PushesState, TakesUp, WalksAll, WalksIn, WalksOne};

use crate::deciding::{counts, tests, way_into};
use crate::measuring::{Entry, NodeMark, blank, plain_mark};
use dh_base::NoMemory;
use dh_plan::{Decision, Graph, Group, Node, State};
use std::alloc::Global;

/// The next mark, of which there is one for each node and each thread.
fn take_up(marks: &mut Vec<NodeMark>) -> NodeMark
    ensures { TakesUp marks.old.items marks.new.items result }
{
    match marks.pop() {
        Some(mark) => mark,
        None => plain_mark(blank()),
    }
}

/// How many states there are.
fn state_count(graph: &Graph) -> u64
    ensures { result ≡ states_at graph.now }
{
    graph.states.len() as u64
}

/// How many groups there are.
fn group_count(graph: &Graph) -> u64
    ensures { result ≡ groups_at graph.now }
{
    graph.groups.len() as u64
}

/// Puts a state behind those that are there.
fn push_state(graph: &mut Graph, block: u64, group: u64, next: Decision) -> Result<(), NoMemory>
    ensures { OnOk result (PushesState block group (decision_told next) graph.old graph.new) }
{
    graph.states.push(State { block, group, next })?;
    Ok(())
}

/// The way behind a turn.
#[tactic(auto, using(crate::proofs::ToldForms::decisions_are))]
fn way_of_turn(
    alloc: Global,
    counter: u64,
    last: u64,
    entry: Entry,
    way: Decision,
    graph: &Graph,
) -> Result<Decision, NoMemory>
    ensures { IfOk result (λ d. IsTurnWay d counter last entry way graph.now) }
{
    let again = way_into(
        alloc,
        entry,
        state_count(graph),
        group_count(graph),
        &Decision::Rest,
    )?;
    counts(alloc, counter, last, again, way)
}

/// The way behind the test of a loop, whose state comes next.
#[tactic(auto, using(crate::proofs::ToldForms::decisions_are))]
fn way_of_loop(
    alloc: Global,
    flag: u64,
    mark: NodeMark,
    way: Decision,
    graph: &Graph,
) -> Result<Decision, NoMemory>
    ensures { IfOk result (λ d. IsLoopWay d flag mark way graph.now) }
{
    let state = state_count(graph);
    let again = Decision::Go { state };
    let yes = way_into(
        alloc,
        mark.inner.entry,
        state.saturating_add(1),
        group_count(graph),
        &again,
    )?;
    tests(alloc, flag, yes, way)
}

/// The way behind the test before two arms, whose state comes next.
#[tactic(auto, using(crate::proofs::ToldForms::decisions_are))]
fn way_of_choice(
    alloc: Global,
    flag: u64,
    mark: NodeMark,
    way: &Decision,
    graph: &Graph,
) -> Result<Decision, NoMemory>
    ensures { IfOk result (λ d. IsChoiceWay d flag mark way.now graph.now) }
{
    let state = state_count(graph).saturating_add(1);
    let group = group_count(graph);
    let yes = way_into(alloc, mark.inner.entry, state, group, way)?;
    let no = way_into(
        alloc,
        mark.other,
        state.saturating_add(mark.inner.states),
        group.saturating_add(mark.inner.groups),
        way,
    )?;
    tests(alloc, flag, yes, no)
}

/// The number of the first group of threads that begin so, behind those nested in them.
fn first_group(entry: Entry, graph: &Graph) -> u64
    ensures { result ≡ first_told entry graph.now }
{
    match entry {
        Entry::Nothing => group_count(graph),
        Entry::State => group_count(graph),
        Entry::Threads { nested, .. } => group_count(graph).saturating_add(nested),
    }
}

/// Puts the groups of threads that begin so behind those that are there; none where no thread does a block.
fn add_groups(entry: Entry, mut own: Vec<Group>, graph: &mut Graph) -> Result<(), NoMemory>
    ensures { OnOk result (AddsGroups entry own.items graph.old graph.new) }
{
    match entry {
        Entry::Nothing => {}
        Entry::State => graph.groups.append(&mut own)?,
        Entry::Threads { .. } => graph.groups.append(&mut own)?,
    }
    Ok(())
}

/// Walks nodes in order, whose own group this is; behind them comes this way.
#[cycle(walk)]
pub fn walk(
    alloc: Global,
    nodes: &[Node],
    own: u64,
    way: &Decision,
    marks: &mut Vec<NodeMark>,
    graph: &mut Graph,
) -> Result<(), NoMemory>
    ensures { OnOk result (WalksAll nodes.now own way.now marks.old marks.new graph.old graph.new) }
{
    for node in nodes {
        walk_next(alloc, node, own, way, marks, graph)?;
    }
    Ok(())
}

/// Walks the next node of nodes behind which comes this way.
#[cycle(walk)]
fn walk_next(
    alloc: Global,
    node: &Node,
    own: u64,
    way: &Decision,
    marks: &mut Vec<NodeMark>,
    graph: &mut Graph,
) -> Result<(), NoMemory>
    ensures { OnOk result (WalksOne node.now own way.now marks.old marks.new graph.old graph.new) }
{
    let mark = take_up(marks);
    let state = state_count(graph).saturating_add(mark.own.states);
    let first = group_count(graph).saturating_add(mark.own.groups);
    let next = way_into(alloc, mark.behind, state, first, way)?;
    walk_node(alloc, node, mark, own, next, marks, graph)
}

/// Walks a node behind which comes this way.
#[cycle(walk)]
#[tactic(auto, using(crate::proofs::NodeForms::nodes_are))]
fn walk_node(
    alloc: Global,
    node: &Node,
    mark: NodeMark,
    own: u64,
    way: Decision,
    marks: &mut Vec<NodeMark>,
    graph: &mut Graph,
) -> Result<(), NoMemory>
    ensures { OnOk result (WalksIn node.now own mark way marks.old marks.new graph.old graph.new) }
{
    match node {
        Node::Step { block } => push_state(graph, *block, own, way),
        Node::Turns {
            counter,
            count,
            body,
        } => {
            if *count == 0 {
                return Ok(());
            }
            let next = way_of_turn(alloc, *counter, *count - 1, mark.own.entry, way, graph)?;
            walk(alloc, body.as_slice(), own, &next, marks, graph)
        }
        Node::Loop { test, flag, body } => {
            let again = Decision::Go {
                state: state_count(graph),
            };
            let next = way_of_loop(alloc, *flag, mark, way, graph)?;
            push_state(graph, *test, own, next)?;
            walk(alloc, body.as_slice(), own, &again, marks, graph)
        }
        Node::Choice {
            test,
            flag,
            then,
            other,
        } => {
            let next = way_of_choice(alloc, *flag, mark, &way, graph)?;
            push_state(graph, *test, own, next)?;
            walk(alloc, then.as_slice(), own, &way, marks, graph)?;
            walk(alloc, other.as_slice(), own, &way, marks, graph)
        }
        Node::Threads { lists } => {
            let first = first_group(mark.own.entry, graph);
            let lists = lists.as_slice();
            let groups = walk_lists(alloc, lists, own, first, way, marks, graph)?;
            add_groups(mark.own.entry, groups, graph)
        }
    }
}

/// Walks threads, whose own groups have the numbers from this one on. Gives these groups; at the first stands the
/// way behind all of them.
#[cycle(walk)]
fn walk_lists(
    alloc: Global,
    lists: &[Vec<Node>],
    parent: u64,
    own: u64,
    way: Decision,
    marks: &mut Vec<NodeMark>,
    graph: &mut Graph,
) -> Result<Vec<Group>, NoMemory>
    ensures { IfOk result (Forks lists.now parent own way marks.old marks.new graph.old graph.new) }
{
    let mut groups = Vec::new(alloc);
    let mut after = Some(way);
    let mut group = own;
    for list in lists {
        let mark = take_up(marks);
        let begins = way_into(
            alloc,
            mark.own.entry,
            state_count(graph),
            group_count(graph),
            &Decision::Rest,
        )?;
        groups.push(Group {
            parent: Some(parent),
            first: begins,
            after: after.take(),
        })?;
        for node in list {
            walk_next(alloc, node, group, &Decision::Rest, marks, graph)?;
        }
        group = group.saturating_add(1);
    }
    Ok(groups)
}
