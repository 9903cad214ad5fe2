//! Places in a text.
ghost use Rattle.std.specs.Prelude.{◌≡◌};

use std::marker::Model;

/// A place in a text: how many characters stand before it, its line from 1, and its column from 0 in characters.
#[derive(Clone, Copy, Debug, PartialEq, Eq)]
pub struct Marker {
    pub(crate) index: usize,
    pub(crate) line: usize,
    pub(crate) col: usize,
}

impl Model for Marker {
    ghost use Rattle.snap_scan_tokens.specs.Mark.{Mark};

    ghost Value = { Mark };

    ghost view = { λ m. record { index = m.index; line = m.line; col = m.col } };

    ghost inverse = { λ m. record { index = m.index; line = m.line; col = m.col } };
}

impl Marker {
    /// How many characters stand before the place.
    pub fn index(&self) -> usize
        ensures { result ≡ self.now.index }
    {
        self.index
    }

    /// The line, from 1.
    pub fn line(&self) -> usize
        ensures { result ≡ self.now.line }
    {
        self.line
    }

    /// The column, from 0.
    pub fn col(&self) -> usize
        ensures { result ≡ self.now.col }
    {
        self.col
    }
}
