//! The operators of a formula that wait for an operand, and the parentheses that wait for their ends.

ghost use Rattle.std.specs.Prelude.{◌≡◌, ◌∷◌, [], OnOk, MatchOption};
ghost use Rattle.orca_text.specs.WaitView.{wait};

use orca_meaning::{Operator, Sign};
use std::alloc::{AllocError, Global};
use std::marker::Model;

/// What waits.
#[derive(Clone, Copy)]
pub(crate) enum Wait {
    /// An open parenthesis.
    Bracket,
    /// An operator before its operand.
    Before(Sign),
    /// An operator after its left operand.
    Between(Operator),
}

/// All that waits. Contracts see it with the last first.
#[derive(Drop)]
pub(crate) struct Waiting {
    items: Vec<Wait>,
}

impl Model for Waiting {
    ghost use Rattle.std.specs.Prelude.{List, map, reverse};
    ghost use Rattle.orca_meaning.specs.laws.Machine as machine;
    ghost use Rattle.orca_text.specs.WaitView.{wait};

    ghost Value = { List machine.Wait };

    ghost view = { λ w. reverse (map wait w.items.items) };
}

impl Waiting {
    /// Nothing waits. It takes no memory yet.
    pub(crate) fn new(alloc: Global) -> Waiting
        ensures { result ≡ [] }
    {
        Waiting {
            items: Vec::new(alloc),
        }
    }

    #[tactic(auto, using(crate::specs::WaitView::pushed))]
    pub(crate) fn push(&mut self, next: Wait) -> Result<(), AllocError>
        ensures ok { OnOk result (self.new ≡ wait next ∷ self.old) }
    {
        self.items.push(next)?;
        Ok(())
    }

    /// What was put there last.
    #[tactic(auto, using(crate::specs::WaitView::popped))]
    pub(crate) fn pop(&mut self) -> Option<Wait>
        ensures { MatchOption result ((self.old ≡ []) × (self.new ≡ [])) (λ last. self.old ≡ wait last ∷ self.new) }
    {
        self.items.pop()
    }

    /// What was put there last.
    pub(crate) fn last_waiting(&self) -> Option<Wait>
        ensures { MatchOption result (self.now ≡ []) (λ last. (rest : _) × (self.now ≡ wait last ∷ rest)) }
    {
        self.items.last().copied()
    }
}
