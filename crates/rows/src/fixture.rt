//! What the lines that were read so far left.

use crate::running::RunOutcome;
use crate::shelf::Shelf;
use std::alloc::Global;

/// The files, what is to fail, the last run, and what was printed.
#[derive(Drop)]
pub struct Fixture {
    pub shelf: Shelf,
    /// The calls of the store that fail.
    pub store: Vec<u32>,
    /// The calls of the sink that fail.
    pub sink: Vec<u32>,
    /// How many of the last lines of a text are printed; all where it is 0.
    pub lines: usize,
    /// What the last run left.
    pub outcome: RunOutcome,
    /// All that was printed.
    reported: Vec<u8>,
}

impl Fixture {
    pub fn new(alloc: Global) -> Fixture {
        Fixture {
            shelf: Shelf::new(alloc),
            store: Vec::new(alloc),
            sink: Vec::new(alloc),
            lines: 0,
            outcome: RunOutcome::none(alloc),
            reported: Vec::new(alloc),
        }
    }

    /// Begins a row.
    pub fn begin(&mut self) {
        self.shelf.begin();
        self.store.clear();
        self.sink.clear();
        self.lines = 0;
    }

    /// Where more is printed.
    pub fn out(&mut self) -> &mut Vec<u8> {
        &mut self.reported
    }

    /// All that was printed.
    pub fn into_reported(self) -> Vec<u8> {
        self.reported
    }
}
