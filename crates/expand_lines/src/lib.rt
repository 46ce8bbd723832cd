//! The lines of a source after expansion, as text (this project's own form).
#![tactic(auto)]

mod expanding;

pub use expanding::expand_text;
