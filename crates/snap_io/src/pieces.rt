//! Bytes that are given piece by piece.
ghost use Rattle.std.specs.Prelude.{◌≡◌, ◌++◌, length, min, take};

use snap_content::Blob;
use std::marker::Model;

/// Bytes that are seen as those that are left.
#[derive(Drop)]
pub struct Pieces {
    bytes: Blob,
    at: usize,
}

impl Model for Pieces {
    ghost use Rattle.std.specs.Prelude.{ℕ, List, ◌≤◌, drop, length};

    ghost Value = { List ℕ };

    ghost view = { λ pieces. drop pieces.at pieces.bytes };

    ghost invariant = { λ pieces. pieces.at ≤ length pieces.bytes };
}

impl Pieces {
    pub fn new(bytes: Blob) -> Pieces
        ensures { result ≡ bytes }
    {
        Pieces { bytes, at: 0 }
    }

    /// Puts what is left, or as much as is asked for or there is room for, at the front of the buffer.
    /// How many bytes.
    pub fn take(&mut self, most: usize, buffer: &mut [u8]) -> usize
        ensures count { result ≡ min most (min (length buffer.new) (length self.old)) }
        ensures bytes { self.old ≡ take result buffer.new ++ self.new }
    {
        let (_, rest) = self.bytes.as_slice().split_at(self.at);
        let count = most.min(buffer.len()).min(rest.len());
        let (piece, _) = rest.split_at(count);
        buffer[..count].copy_from_slice(piece);
        self.at += count;
        count
    }
}
