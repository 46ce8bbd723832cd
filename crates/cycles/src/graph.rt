//! Directed graphs: which equates lead to which.

ghost use Rattle.std.specs.Prelude.{◌≡◌, ◌≤◌, ◌-◌, ◌++◌, ◌∷◌, [], OnOk, length, take, drop};
ghost use Rattle.cycles.specs.Graphs.{row_at};

use std::alloc::{AllocError, Global};
use std::marker::Model;

/// Where the edges of a vertex lie among all.
#[derive(Clone, Copy)]
pub struct EdgeSpan {
    from: usize,
    to: usize,
}

/// Vertices by their numbers, from 0, each with those to which its edges go. Contracts see the list of these lists.
#[derive(Drop)]
pub struct Edges {
    spans: Vec<EdgeSpan>,
    ends: Vec<usize>,
}

impl Model for Edges {
    ghost use Rattle.std.specs.Prelude.{List, ℕ};
    ghost use Rattle.cycles.specs.Kept.{AllFit, rows_in};

    ghost Value = { List (List ℕ) };

    ghost view = { λ edges. rows_in edges.ends.items edges.spans.items };

    ghost invariant = { λ edges. AllFit edges.ends.items edges.spans.items };
}

/// The numbers from one place up to another.
fn ends_between(ends: &[usize], from: usize, to: usize) -> &[usize]
    requires ordered { from ≤ to }
    requires within { to ≤ length ends.now }
    ensures { result.now ≡ take (to - from) (drop from ends.now) }
{
    &ends[from..to]
}

impl Edges {
    /// No vertices.
    pub fn new(alloc: Global) -> Edges
        ensures { result ≡ [] }
    {
        Edges {
            spans: Vec::new(alloc),
            ends: Vec::new(alloc),
        }
    }

    /// How many vertices there are.
    pub fn count(&self) -> usize
        ensures { result ≡ length self.now }
    {
        self.spans.as_slice().len()
    }

    /// How many edges there are at most.
    pub fn size(&self) -> usize {
        self.ends.as_slice().len()
    }

    /// Where the edges of a vertex go; nowhere, where there is no such vertex.
    pub fn row(&self, vertex: usize) -> &[usize]
        ensures { result.now ≡ row_at self.now vertex }
    {
        match self.spans.as_slice().get(vertex) {
            Some(span) => ends_between(self.ends.as_slice(), span.from, span.to),
            None => &[],
        }
    }

    /// One more vertex, with edges to these.
    pub fn add(&mut self, row: &[usize]) -> Result<(), AllocError>
        ensures { OnOk result (self.new ≡ self.old ++ row.now ∷ []) }
    {
        let from = self.ends.as_slice().len();
        self.ends.extend_from_slice(row)?;
        let to = self.ends.as_slice().len();
        self.spans.push(EdgeSpan { from, to })?;
        Ok(())
    }
}
