//! The text of a scalar as it is read, and the white space inside it.
ghost use Rattle.std.specs.Prelude.{◌≡◌, ℕ, List, [], ◌∷◌, ◌++◌, IfOk, OnOk, not, slice_index, if◌then◌else◌};
ghost use Rattle.std.specs.Str.{chars};
ghost use Rattle.snap_scan_tokens.specs.Characters.{is_pair};
ghost use Rattle.snap_content.specs.Numbers.{is_nothing};
ghost use Rattle.snap_scan_tokens.specs.Folding.{no_gap, escaped_gap, is_folded, with_break, joined, gap_of};
ghost use Rattle.snap_scan_tokens.specs.Pieces.{before, EndsIn};

use snap_content::characters::before_rest;
use snap_content::{Lent, OutOfMemory, Text};
use std::alloc::Global;
use std::marker::Model;

/// Whether a line ended in white space.
#[derive(Clone, Copy, Debug, PartialEq, Eq)]
pub enum Fold {
    Inline,
    Broken,
    /// The first line end is escaped, so that it stands for nothing.
    Escaped,
}

impl Fold {
    pub fn is_folded(self) -> bool
        ensures { result ≡ is_folded self }
    {
        match self {
            Fold::Inline => false,
            Fold::Broken | Fold::Escaped => true,
        }
    }
}

/// White space inside a scalar. Blanks on one line stay in the source; once a line ended, the text is what the further line ends stand for.
#[derive(Debug, Drop)]
pub struct Gap {
    pub(crate) fold: Fold,
    text: Text,
}

impl Gap {
    pub fn none() -> Gap
        ensures { result ≡ no_gap }
    {
        Gap {
            fold: Fold::Inline,
            text: Text::empty(),
        }
    }

    /// What follows a line end that is escaped.
    pub fn escaped() -> Gap
        ensures { result ≡ escaped_gap }
    {
        Gap {
            fold: Fold::Escaped,
            text: Text::empty(),
        }
    }

    /// Adds a line end.
    pub fn add_break(&mut self, alloc: Global) -> Result<(), OutOfMemory>
        ensures { OnOk result (self.new ≡ with_break self.old) }
    {
        if self.fold.is_folded() {
            self.text.push(alloc, '\n')?;
        } else {
            self.fold = Fold::Broken;
            self.text = Text::empty();
        }
        Ok(())
    }
}

/// Whether a text has no character.
pub fn is_nothing(text: &Text) -> bool
    ensures { result ≡ is_nothing text.now }
{
    text.as_str().is_empty()
}

/// Whether something stands before the rest of a text.
fn is_apart(text: &str, rest: &str) -> bool
    requires { EndsIn (chars text.now) (chars rest.now) }
    ensures { result ≡ not (is_nothing (before (chars text.now) (chars rest.now))) }
{
    text.len() != rest.len()
}

/// The text of a scalar so far. What stands in the source as it is read isn't copied before it must be.
#[derive(Debug, Drop)]
pub struct Gathered<'a> {
    copied: Text,
    /// What was left of the source where the part began that isn't copied.
    from: &'a str,
    /// What was left of the source after that part.
    rest: &'a str,
}

impl<'a> Model for Gathered<'a> {
    ghost use Rattle.std.specs.Prelude.{◌++◌};
    ghost use Rattle.std.specs.Str.{chars};
    ghost use Rattle.snap_scan_tokens.specs.Pieces.{Piece, before, EndsIn};

    ghost Value = { Piece };

    ghost view = { λ g. record { text = g.copied ++ before (chars g.from.now) (chars g.rest.now); behind = chars g.rest.now } };

    ghost invariant = { λ g. EndsIn (chars g.from.now) (chars g.rest.now) };
}

impl<'a> Gathered<'a> {
    /// No text yet, before what is left of the source.
    pub fn new(rest: &'a str) -> Gathered<'a>
        ensures { result ≡ record { text = []; behind = chars rest.now } }
    {
        Gathered {
            copied: Text::empty(),
            from: rest,
            rest,
        }
    }

    /// Whether something stands between the text and what is left of the source.
    pub fn is_apart(&self, rest: &str) -> bool
        requires { EndsIn self.now.behind (chars rest.now) }
        ensures { result ≡ not (is_nothing (before self.now.behind (chars rest.now))) }
    {
        is_apart(self.rest, rest)
    }

    /// Adds what stands before the rest of the source.
    pub fn extend(&mut self, rest: &'a str)
        requires { EndsIn self.old.behind (chars rest.now) }
        ensures { self.new ≡ record {
          text = self.old.text
              ++ before self.old.behind (chars rest.now);
          behind = chars rest.now;
        } }
    {
        self.rest = rest;
    }

    /// Adds a text that doesn't stand in the source, and goes on before the rest of it.
    fn add(&mut self, alloc: Global, text: &Text, rest: &'a str) -> Result<(), OutOfMemory>
        ensures { OnOk result (self.new ≡ record {
          text = self.old.text
              ++ text.now;
          behind = chars rest.now;
        }) }
    {
        self.copied
            .push_str(alloc, before_rest(self.from, self.rest))?;
        self.copied.push_text(alloc, text)?;
        self.from = rest;
        self.rest = rest;
        Ok(())
    }

    /// Adds a character that doesn't stand in the source so, and goes on before the rest of it.
    pub fn push(&mut self, alloc: Global, c: char, rest: &'a str) -> Result<(), OutOfMemory>
        ensures { OnOk result (self.new ≡ record {
          text = self.old.text
              ++ c ∷ [];
          behind = chars rest.now;
        }) }
    {
        self.copied
            .push_str(alloc, before_rest(self.from, self.rest))?;
        self.copied.push(alloc, c)?;
        self.from = rest;
        self.rest = rest;
        Ok(())
    }

    /// Goes on before the rest of the source, without what stands before that.
    pub fn pass(&mut self, alloc: Global, rest: &'a str) -> Result<(), OutOfMemory>
        ensures { OnOk result (self.new
            ≡ record { text = self.old.text; behind = chars rest.now }) }
    {
        self.copied
            .push_str(alloc, before_rest(self.from, self.rest))?;
        self.from = rest;
        self.rest = rest;
        Ok(())
    }

    /// Adds what white space stands for, and goes on before the rest of the source.
    pub fn join(&mut self, alloc: Global, gap: &Gap, rest: &'a str) -> Result<(), OutOfMemory>
        requires { EndsIn self.old.behind (chars rest.now) }
        ensures { OnOk result (self.new ≡ record {
          text = self.old.text
              ++ joined (gap_of gap.now (before self.old.behind
              (chars rest.now)));
          behind = chars rest.now;
        }) }
    {
        match gap.fold {
            Fold::Inline => {
                self.extend(rest);
                Ok(())
            }
            Fold::Broken => {
                if is_nothing(&gap.text) {
                    return self.push(alloc, ' ', rest);
                }
                self.add(alloc, &gap.text, rest)
            }
            Fold::Escaped => self.add(alloc, &gap.text, rest),
        }
    }

    /// The text. It is lent where all of it stands in the source in one part.
    pub fn finish(self, alloc: Global) -> Result<Lent<'a>, OutOfMemory>
        ensures { IfOk result (λ text. text ≡ self.entry.text) }
    {
        let part = before_rest(self.from, self.rest);
        let mut copied = self.copied;
        if is_nothing(&copied) {
            return Ok(Lent::borrowed(part));
        }
        copied.push_str(alloc, part)?;
        Ok(Lent::owned(copied))
    }
}
