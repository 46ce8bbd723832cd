//! Directed graphs by their edges: an order in which each vertex follows those to which it leads, and the first vertex that leads back to
//! itself. Both take steps in proportion to the vertices and edges, and no recursion.
#![tactic(auto)]

mod cycle;
mod graph;
mod order;

pub use cycle::first_cycle;
pub use graph::Edges;
pub use order::{Order, order_of};
