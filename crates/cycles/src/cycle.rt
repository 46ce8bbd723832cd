//! Cycles of a graph.

ghost use Rattle.std.specs.Prelude.{◌≡◌, ◌<◌, ◌≤◌, true, false, ℕ, IfOk, length, OnOk};
ghost use Rattle.std.specs.Bool.{OnTrue};
ghost use Rattle.cycles.specs.Graphs.{IsIn, AreInside, row_at};
ghost use Rattle.cycles.specs.Ranks.{rank_at, AreRanks, FallsFrom, ReportsCycle, IsFirstCycle, Visits};

use crate::graph::Edges;
use std::alloc::{AllocError, Global};

/// The rank of a vertex; 0 where it has none.
fn rank_of(ranks: &[usize], vertex: usize) -> usize
    ensures { result ≡ rank_at ranks.now vertex }
{
    match ranks.get(vertex) {
        Some(rank) => *rank,
        None => 0,
    }
}

/// Whether no edge of a vertex goes to a higher rank.
fn never_rises(row: &[usize], ranks: &[usize], rank: usize) -> bool
    ensures { OnTrue result ((to : ℕ) → IsIn row.now to → rank_at ranks.now to ≤ rank) }
{
    'edges: for to in row {
        if rank_of(ranks, *to) > rank {
            return false;
        }
    }
    true
}

/// Whether each edge of a vertex goes to a lower rank.
fn falls(row: &[usize], ranks: &[usize], rank: usize) -> bool
    ensures { OnTrue result ((to : ℕ) → IsIn row.now to → rank_at ranks.now to < rank) }
{
    'edges: for to in row {
        if rank_of(ranks, *to) >= rank {
            return false;
        }
    }
    true
}

/// Whether no edge goes to a higher rank.
fn are_ranks(edges: &Edges, ranks: &[usize]) -> bool
    ensures { OnTrue result (AreRanks edges.now ranks.now) }
{
    let mut vertex = 0;
    'vertices: while vertex < edges.count() {
        if !never_rises(edges.row(vertex), ranks, rank_of(ranks, vertex)) {
            return false;
        }
        vertex += 1;
    }
    true
}

/// Sees where edges go, and adds those to the queue that weren't seen. The answer is whether an edge goes to the vertex.
fn visit(
    row: &[usize],
    vertex: usize,
    seen: &mut Vec<bool>,
    queue: &mut Vec<usize>,
) -> Result<bool, AllocError>
    requires { (to : ℕ) → IsIn row.now to → to < length seen.old.items }
    ensures back { IfOk result (λ back. back ≡ true → IsIn row.now vertex) }
    ensures visits { IfOk result (λ back. back ≡ false → Visits row.now vertex seen.old.items seen.new.items queue.old.items queue.new.items) }
{
    'edges: for to in row {
        if *to == vertex {
            return Ok(true);
        }
        if !seen[*to] {
            queue.push(*to)?;
            seen[*to] = true;
        }
    }
    Ok(false)
}

/// Whether a vertex leads back to itself.
fn leads_back(alloc: Global, edges: &Edges, vertex: usize) -> Result<bool, AllocError>
    requires { AreInside edges.now }
    ensures { IfOk result (λ back. ReportsCycle edges.now vertex back) }
{
    let mut seen = vec![in alloc; false; edges.count()]?;
    let mut queue = Vec::new(alloc);
    queue.push(vertex)?;
    let mut next = 0;
    'queue: while next < queue.as_slice().len() {
        if visit(edges.row(queue[next]), vertex, &mut seen, &mut queue)? {
            return Ok(true);
        }
        next += 1;
    }
    Ok(false)
}

/// The first vertex that leads back to itself. Where no edge goes to a higher rank, each vertex whose edges all go to lower
/// ranks is passed over at once; whatever the ranks are, the answer is the same.
pub fn first_cycle(
    alloc: Global,
    edges: &Edges,
    ranks: &[usize],
) -> Result<Option<usize>, AllocError>
    requires { AreInside edges.now }
    ensures { IfOk result (λ found. IsFirstCycle edges.now found) }
{
    let ranked = are_ranks(edges, ranks);
    let mut vertex = 0;
    'vertices: while vertex < edges.count() {
        if !passes(edges, ranks, ranked, vertex) {
            if leads_back(alloc, edges, vertex)? {
                return Ok(Some(vertex));
            }
        }
        vertex += 1;
    }
    Ok(None)
}

/// Whether the ranks say of a vertex that it doesn't lead back to itself.
fn passes(edges: &Edges, ranks: &[usize], ranked: bool, vertex: usize) -> bool
    requires { OnTrue ranked (AreRanks edges.now ranks.now) }
    ensures { OnTrue result (ReportsCycle edges.now vertex false) }
{
    ranked && falls(edges.row(vertex), ranks, rank_of(ranks, vertex))
}
