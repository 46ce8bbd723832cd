//! An order of a graph's vertices in which each follows those to which it leads, except on cycles, and ranks of the cycles: R. E. Tarjan's
//! strongly connected components, without recursion. Nothing is promised: whoever uses them checks them.

use crate::graph::Edges;
use std::alloc::{AllocError, Global};

/// An order of vertices, and their ranks: vertices of one cycle have one rank.
#[derive(Drop)]
pub struct Order {
    pub order: Vec<usize>,
    pub ranks: Vec<usize>,
}

/// A vertex on the way from a root, and which of its edges is next.
#[derive(Clone, Copy)]
struct OrderStop {
    vertex: usize,
    edge: usize,
}

/// How far the search got.
#[derive(Drop)]
struct Search {
    /// In which order vertices were entered, from 1; 0 for those that weren't.
    entered: Vec<usize>,
    /// The least such number that is known to be reached.
    lowest: Vec<usize>,
    /// Vertices whose cycle isn't known yet.
    open: Vec<usize>,
    /// The way from the root.
    way: Vec<OrderStop>,
    order: Vec<usize>,
    /// From 1; 0 for those whose cycle isn't known.
    ranks: Vec<usize>,
    count: usize,
    cycle_order: usize,
}

fn get(numbers: &Vec<usize>, at: usize) -> usize {
    match numbers.as_slice().get(at) {
        Some(number) => *number,
        None => 0,
    }
}

fn set(numbers: &mut Vec<usize>, at: usize, number: usize) {
    if at < numbers.as_slice().len() {
        numbers[at] = number;
    }
}

impl Search {
    fn new(alloc: Global, vertices: usize) -> Result<Search, AllocError> {
        let entered = vec![in alloc; 0; vertices]?;
        let lowest = vec![in alloc; 0; vertices]?;
        let ranks = vec![in alloc; 0; vertices]?;
        Ok(Search {
            entered,
            lowest,
            open: Vec::new(alloc),
            way: Vec::new(alloc),
            order: Vec::new(alloc),
            ranks,
            count: 0,
            cycle_order: 0,
        })
    }

    fn enter(&mut self, vertex: usize) -> Result<(), AllocError> {
        self.count = self.count.saturating_add(1);
        set(&mut self.entered, vertex, self.count);
        set(&mut self.lowest, vertex, self.count);
        self.open.push(vertex)?;
        self.way.push(OrderStop { vertex, edge: 0 })?;
        Ok(())
    }

    fn lower(&mut self, vertex: usize, to: usize) {
        let least = get(&self.lowest, vertex).min(to);
        set(&mut self.lowest, vertex, least);
    }

    /// Gives their rank to the vertices of a cycle, or to a vertex on none.
    fn close(&mut self, vertex: usize) -> Result<(), AllocError> {
        self.cycle_order = self.cycle_order.saturating_add(1);
        for _ in 0..self.open.as_slice().len() {
            let Some(last) = self.open.pop() else {
                return Ok(());
            };
            set(&mut self.ranks, last, self.cycle_order);
            self.order.push(last)?;
            if last == vertex {
                return Ok(());
            }
        }
        Ok(())
    }

    /// Back from a vertex.
    fn leave(&mut self, vertex: usize) -> Result<(), AllocError> {
        let least = get(&self.lowest, vertex);
        if least == get(&self.entered, vertex) {
            self.close(vertex)?;
        }
        if let Some(stop) = self.way.as_slice().last() {
            let before = stop.vertex;
            self.lower(before, least);
        }
        Ok(())
    }

    /// One step on the way; whether there was one.
    fn step(&mut self, edges: &Edges) -> Result<bool, AllocError> {
        let Some(stop) = self.way.pop() else {
            return Ok(false);
        };
        match edges.row(stop.vertex).get(stop.edge) {
            Some(to) => {
                self.way.push(OrderStop {
                    vertex: stop.vertex,
                    edge: stop.edge.saturating_add(1),
                })?;
                if get(&self.entered, *to) == 0 {
                    self.enter(*to)?;
                } else if get(&self.ranks, *to) == 0 {
                    let entered = get(&self.entered, *to);
                    self.lower(stop.vertex, entered);
                }
            }
            None => self.leave(stop.vertex)?,
        }
        Ok(true)
    }

    /// All that a root leads to.
    fn walk(&mut self, edges: &Edges, root: usize, steps: usize) -> Result<(), AllocError> {
        if get(&self.entered, root) != 0 {
            return Ok(());
        }
        self.enter(root)?;
        for _ in 0..steps {
            if !self.step(edges)? {
                return Ok(());
            }
        }
        Ok(())
    }
}

/// The order and the ranks of a graph's vertices.
pub fn order_of(alloc: Global, edges: &Edges) -> Result<Order, AllocError> {
    let mut search = Search::new(alloc, edges.count())?;
    let steps = edges.count().saturating_mul(2).saturating_add(edges.size());
    for root in 0..edges.count() {
        search.walk(edges, root, steps)?;
    }
    let Search { order, ranks, .. } = search;
    Ok(Order { order, ranks })
}
