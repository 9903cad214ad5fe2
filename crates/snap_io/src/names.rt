//! A list of names.
ghost use Rattle.std.specs.Prelude.{◌≡◌, [], ◌∷◌, ◌++◌, length, slice_get, option_copied, OnOk, OnErr};

use snap_content::{OutOfMemory, Text};
use std::alloc::Global;
use std::cmp::Ordering;
use std::marker::Model;

/// The names of files, seen as their list.
#[derive(Debug, Drop)]
pub struct Names {
    names: Vec<Text>,
}

impl Model for Names {
    ghost use Rattle.std.specs.Prelude.{ℕ, List};

    ghost Value = { List (List ℕ) };

    ghost view = { λ list. list.names.items };
}

impl Names {
    pub fn new(alloc: Global) -> Names
        ensures { result ≡ [] }
    {
        Names {
            names: Vec::new(alloc),
        }
    }

    /// Adds a name at the end. After out of memory the list is as it was.
    pub fn push(&mut self, item: Text) -> Result<(), OutOfMemory>
        ensures ok { OnOk result (self.new ≡ self.old ++ item ∷ []) }
        ensures err { OnErr result (self.new ≡ self.old) }
    {
        self.names.push(item)?;
        Ok(())
    }

    pub fn len(&self) -> usize
        ensures { result ≡ length self.now }
    {
        self.names.len()
    }

    pub fn get(&self, index: usize) -> Option<&Text>
        ensures { option_copied result ≡ slice_get self.now index }
    {
        self.names.get(index)
    }

    pub fn as_slice(&self) -> &[Text]
        ensures { result.now ≡ self.now }
    {
        self.names.as_slice()
    }

    pub fn from_vec(items: Vec<Text>) -> Names
        ensures { result ≡ items.items }
    {
        Names { names: items }
    }

    pub fn into_vec(self) -> Vec<Text>
        ensures { result.items ≡ self }
    {
        self.names
    }
}

impl PartialEq for Names {
    ghost use Rattle.std.specs.Prelude.{◌==◌};
    ghost use Rattle.std.specs.Cmp.Lexicographic.{pointwise};
    ghost use Rattle.std.specs.Cmp.Rules.{comparing};
    ghost use Rattle.std.proofs.Common.{rules};

    ghost eq = { pointwise (pointwise ◌==◌) };

    ghost laws = { Prim.search (comparing, rules) };

    fn eq(&self, other: &Names) -> bool {
        self.as_slice() == other.as_slice()
    }
}

impl Eq for Names {
    ghost use Rattle.std.specs.Cmp.Rules.{comparing};
    ghost use Rattle.std.proofs.Common.{rules};

    ghost laws = { Prim.search (comparing, rules) };
}

impl PartialOrd for Names {
    ghost use Rattle.std.specs.Prelude.{Some};
    ghost use Rattle.std.specs.Ordering.{nat_cmp};
    ghost use Rattle.std.specs.Cmp.{po};
    ghost use Rattle.std.specs.Cmp.Lexicographic.{slice_cmp, lists_total, lists_ties, nat_list_cmp_total, texts_ties};

    ghost partial_cmp = { λ x y. Some (slice_cmp (slice_cmp nat_cmp) x y) };

    ghost laws = { po (lists_total nat_list_cmp_total) (lists_ties (slice_cmp nat_cmp) texts_ties) };

    fn partial_cmp(&self, other: &Names) -> Option<Ordering> {
        Some(self.cmp(other))
    }
}

/// Name by name.
impl Ord for Names {
    ghost use Rattle.std.specs.Ordering.{nat_cmp};
    ghost use Rattle.std.specs.Cmp.Lexicographic.{slice_cmp, lists_ties, texts_ties};
    ghost use Rattle.std.specs.Cmp.Rules.{comparing};
    ghost use Rattle.std.proofs.Common.{rules};

    ghost cmp = { slice_cmp (slice_cmp nat_cmp) };

    ghost total = { Prim.search (comparing, rules) };

    ghost matches_partial_cmp = { Prim.search rules };

    ghost matches_eq = { lists_ties (slice_cmp nat_cmp) texts_ties };

    fn cmp(&self, other: &Names) -> Ordering {
        self.as_slice().cmp(other.as_slice())
    }
}
