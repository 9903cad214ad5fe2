//! The columns of the open blocks.
ghost use Rattle.std.specs.Prelude.{◌≡◌, ℕ, List, [], ◌∷◌, OnOk, MatchOption};

use std::alloc::{AllocFailed, Global};
use std::collections::VecDeque;
use std::marker::Model;

/// Columns, the innermost first.
#[derive(Debug, Drop)]
pub struct Columns {
    held: VecDeque<usize>,
}

impl Model for Columns {
    ghost use Rattle.std.specs.Prelude.{List, ℕ};

    ghost Value = { List ℕ };

    ghost view = { λ c. c.held.items };
}

impl Columns {
    pub fn new(alloc: Global) -> Columns
        ensures { result ≡ [] }
    {
        Columns {
            held: VecDeque::new(alloc),
        }
    }

    pub fn push(&mut self, column: usize) -> Result<(), AllocFailed<usize>>
        ensures { OnOk result (self.new ≡ column ∷ self.old) }
    {
        self.held.push_front(column)
    }

    /// Takes the innermost column away.
    pub fn pop(&mut self) -> Option<usize>
        ensures { MatchOption result ((self.old ≡ []) × (self.new ≡ []))
            (λ column. self.old ≡ column ∷ self.new) }
    {
        self.held.pop_front()
    }

    pub fn innermost(&self) -> Option<usize>
        ensures { MatchOption result (self.now ≡ [])
            (λ column. (outer : List ℕ) × (self.now ≡ column ∷ outer)) }
    {
        self.held.front().copied()
    }
}
