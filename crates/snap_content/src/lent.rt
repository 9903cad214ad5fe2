//! A text that is borrowed, or held.
ghost use Rattle.std.specs.Prelude.{◌≡◌, IfOk};
ghost use Rattle.std.specs.Str.{chars};

use crate::OutOfMemory;
use crate::text::Text;
use std::alloc::Global;
use std::marker::Model;

#[derive(Debug, Drop)]
enum Held<'a> {
    Borrowed(&'a str),
    Owned(Text),
}

/// A text that is borrowed, or held. Which of both cannot be seen.
#[derive(Debug, Drop)]
pub struct Lent<'a> {
    held: Held<'a>,
}

impl<'a> Model for Lent<'a> {
    ghost use Rattle.std.specs.Prelude.{ℕ, List};

    ghost Value = { List ℕ };

    ghost use Rattle.snap_content.specs.Lent.{held_characters};

    ghost view = { λ lent. held_characters lent.held };
}

impl<'a> Lent<'a> {
    pub fn borrowed(value: &'a str) -> Lent<'a>
        ensures { result ≡ chars value.now }
    {
        Lent {
            held: Held::Borrowed(value),
        }
    }

    pub fn owned(value: Text) -> Lent<'a>
        ensures { result ≡ value }
    {
        Lent {
            held: Held::Owned(value),
        }
    }

    pub fn as_str(&self) -> &str
        ensures { chars result.now ≡ self.now }
    {
        match &self.held {
            Held::Borrowed(text) => text,
            Held::Owned(text) => text.as_str(),
        }
    }

    /// The characters as a text that is held: a copy where they are borrowed.
    pub fn into_text(self, alloc: Global) -> Result<Text, OutOfMemory>
        ensures { IfOk result (λ text. text ≡ self.entry) }
    {
        match self.held {
            Held::Borrowed(text) => Text::from_str(alloc, text),
            Held::Owned(text) => Ok(text),
        }
    }
}

impl PartialEq for Lent<'_> {
    ghost use Rattle.std.specs.Prelude.{◌==◌};
    ghost use Rattle.std.specs.Cmp.Lexicographic.{pointwise};
    ghost use Rattle.std.specs.Cmp.Rules.{comparing};
    ghost use Rattle.std.proofs.Common.{rules};

    ghost eq = { pointwise ◌==◌ };

    ghost laws = { Prim.search (comparing, rules) };

    fn eq(&self, other: &Lent<'_>) -> bool {
        self.as_str() == other.as_str()
    }
}

impl Eq for Lent<'_> {
    ghost use Rattle.std.specs.Cmp.Rules.{comparing};
    ghost use Rattle.std.proofs.Common.{rules};

    ghost laws = { Prim.search (comparing, rules) };
}
