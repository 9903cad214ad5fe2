//! Bytes, seen by contracts as a list.
ghost use Rattle.std.specs.Prelude.{◌≡◌, IfOk};

use crate::memory::OutOfMemory;
use std::alloc::Global;
use std::cmp::Ordering;
use std::marker::Model;

/// A run of bytes. An empty one holds no memory.
#[derive(Debug, Drop)]
pub struct Blob {
    held: Option<Vec<u8>>,
}

impl Model for Blob {
    ghost use Rattle.std.specs.Prelude.{ℕ, List};

    ghost Value = { List ℕ };

    ghost use Rattle.snap_content.specs.Blob.{bytes_of};

    ghost view = { λ blob. bytes_of blob.held };
}

impl Blob {
    pub fn from_slice(alloc: Global, value: &[u8]) -> Result<Blob, OutOfMemory>
        ensures { IfOk result (λ blob. blob ≡ value.now) }
    {
        Ok(Blob {
            held: Some(Vec::from_slice(alloc, value)?),
        })
    }

    /// The same bytes, which are not copied.
    pub fn from_vec(value: Vec<u8>) -> Blob
        ensures { result ≡ value.items }
    {
        Blob { held: Some(value) }
    }

    pub fn as_slice(&self) -> &[u8]
        ensures { result.now ≡ self.now }
    {
        match &self.held {
            None => &[],
            Some(held) => held.as_slice(),
        }
    }

    pub fn try_clone(&self, alloc: Global) -> Result<Blob, OutOfMemory>
        ensures { IfOk result (λ blob. blob ≡ self.now) }
    {
        Blob::from_slice(alloc, self.as_slice())
    }
}

impl PartialEq for Blob {
    ghost use Rattle.std.specs.Prelude.{◌==◌};
    ghost use Rattle.std.specs.Cmp.Lexicographic.{pointwise};
    ghost use Rattle.std.specs.Cmp.Rules.{comparing};
    ghost use Rattle.std.proofs.Common.{rules};

    ghost eq = { pointwise ◌==◌ };

    ghost laws = { Prim.search (comparing, rules) };

    fn eq(&self, other: &Blob) -> bool {
        self.as_slice() == other.as_slice()
    }
}

impl Eq for Blob {
    ghost use Rattle.std.specs.Cmp.Rules.{comparing};
    ghost use Rattle.std.proofs.Common.{rules};

    ghost laws = { Prim.search (comparing, rules) };
}

impl PartialOrd for Blob {
    ghost use Rattle.std.specs.Prelude.{Some};
    ghost use Rattle.std.specs.Ordering.{nat_cmp};
    ghost use Rattle.std.specs.Cmp.Lexicographic.{slice_cmp};
    ghost use Rattle.std.specs.Cmp.Rules.{comparing};
    ghost use Rattle.std.proofs.Common.{rules};

    ghost partial_cmp = { λ x y. Some (slice_cmp nat_cmp x y) };

    ghost laws = { Prim.search (comparing, rules) };

    fn partial_cmp(&self, other: &Blob) -> Option<Ordering> {
        Some(self.cmp(other))
    }
}

/// Byte by byte, a run before one that begins with it.
impl Ord for Blob {
    ghost use Rattle.std.specs.Ordering.{nat_cmp};
    ghost use Rattle.std.specs.Cmp.Lexicographic.{slice_cmp};
    ghost use Rattle.std.specs.Cmp.Rules.{comparing};
    ghost use Rattle.std.proofs.Common.{rules};

    ghost cmp = { slice_cmp nat_cmp };

    ghost total = { Prim.search (comparing, rules) };

    ghost matches_partial_cmp = { Prim.search rules };

    ghost matches_eq = { Prim.search (comparing, rules) };

    fn cmp(&self, other: &Blob) -> Ordering {
        self.as_slice().cmp(other.as_slice())
    }
}
