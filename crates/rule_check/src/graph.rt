// Graphs of nodes named by number, and ranks above those of their targets.
ghost use Rattle.std.specs.Prelude.{◌≡◌, ◌<◌, ◌^◌, ◌++◌, [], true, false, length, map, OnOk, IfOk};
ghost use Rattle.std.specs.Option.{option_map};
ghost use Rattle.rule_check.specs.Graphs.{IsGraph, AreRanked, OpenLead, HasCycle, IsVisit, AreRanksOf, RankedBelow, rank_of};

use std::alloc::{AllocError, Global};
use std::marker::Model;

// The targets of a node.
#[derive(Drop)]
pub(crate) struct Targets {
    nodes: Vec<usize>,
}

impl Model for Targets {
    ghost use Rattle.std.specs.Prelude.{List, ℕ};

    ghost Value = { List ℕ };

    ghost view = { λ t. t.nodes.items };
}

impl Targets {
    pub(crate) fn new(alloc: Global) -> Targets
        ensures { result ≡ [] }
    {
        Targets {
            nodes: Vec::new(alloc),
        }
    }

    pub(crate) fn extend(&mut self, more: &[usize]) -> Result<(), AllocError>
        ensures { OnOk result (self.new ≡ self.old ++ more.now) }
    {
        for node in more {
            self.nodes.push(*node)?;
        }
        Ok(())
    }

    pub(crate) fn as_slice(&self) -> &[usize]
        ensures { result.now ≡ self.now }
    {
        self.nodes.as_slice()
    }
}

// What is known of a node's rank: nothing, that it is being looked for, or the rank.
#[derive(Clone, Copy)]
pub(crate) enum Mark {
    New,
    Open,
    Ranked(u32),
}

// The rank of a node: one more than the greatest of its targets' ranks. Where there is none, a node returns to itself.
fn visit(graph: &[Targets], node: usize, marks: &mut [Mark]) -> Option<u32>
    requires in_range { node < length graph.now }
    requires sized { length marks.old ≡ length graph.now }
    requires graph { IsGraph graph.now }
    requires few { length graph.now < 2 ^ 32 }
    requires ranked { AreRanked graph.now marks.old }
    requires open { OpenLead graph.now marks.old node }
    ensures { IsVisit result graph.now node marks.old marks.new }
{
    match marks[node] {
        Mark::Ranked(rank) => return Some(rank),
        Mark::Open => return None,
        Mark::New => {}
    }
    marks[node] = Mark::Open;
    let mut top: u32 = 0;
    for target in graph[node].as_slice() {
        match visit(graph, *target, marks) {
            Some(rank) => top = top.max(rank),
            None => return None,
        }
    }
    marks[node] = Mark::Ranked(top + 1);
    Some(top + 1)
}

// Gives each node a rank, or fails where a node returns to itself.
fn visit_all(graph: &[Targets], marks: &mut [Mark]) -> bool
    requires sized { length marks.old ≡ length graph.now }
    requires graph { IsGraph graph.now }
    requires few { length graph.now < 2 ^ 32 }
    requires fresh { RankedBelow graph.now marks.old 0 }
    ensures ranked { result ≡ true → RankedBelow graph.now marks.new (length graph.now) }
    ensures cycle { result ≡ false → HasCycle graph.now }
{
    for node in 0..graph.len() {
        if visit(graph, node, marks).is_none() {
            return false;
        }
    }
    true
}

fn ranks_in(alloc: Global, marks: &[Mark]) -> Result<Vec<u32>, AllocError>
    ensures { IfOk result (λ v. v.items ≡ map rank_of marks.now) }
{
    let mut ranks = Vec::with_capacity(alloc, marks.len())?;
    for mark in marks {
        let rank = match mark {
            Mark::Ranked(rank) => *rank,
            Mark::New => 0,
            Mark::Open => 0,
        };
        ranks.push(rank)?;
    }
    Ok(ranks)
}

// The ranks of all nodes, or nothing where a node returns to itself.
pub(crate) fn ranks_of(alloc: Global, graph: &[Targets]) -> Result<Option<Vec<u32>>, AllocError>
    requires graph { IsGraph graph.now }
    requires few { length graph.now < 2 ^ 32 }
    ensures { IfOk result (λ o. AreRanksOf (option_map (λ v. v.items) o) graph.now) }
{
    let mut marks = vec![in alloc; Mark::New; graph.len()]?;
    if !visit_all(graph, &mut marks) {
        return Ok(None);
    }
    Ok(Some(ranks_in(alloc, &marks)?))
}
