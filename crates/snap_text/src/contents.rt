//! The text of a snapshot, with its kind. The one error of these calls is out of memory.
ghost use Rattle.std.specs.Prelude.{◌≡◌, ◌↔◌, IsTrue, IfOk};
ghost use Rattle.std.specs.Str.{chars};
ghost use Rattle.snap_text_literals.specs.OfLiteral.{of_literal};
ghost use Rattle.snap_text_literals.specs.Spelled.{spelled};
ghost use Rattle.snap_text.specs.declared.contents.TextSnapshotKind.TheVariants.{Inline, File};

use snap_content::{OutOfMemory, Text};
use snap_text_literals::frame::inline_legacy_text;
use snap_text_literals::inline::{inline_normal_text, inline_width};
use snap_text_literals::legacy::legacy_text;
use snap_text_literals::lines::{from_byte, split_line, trim_returns};
use snap_text_literals::literal;
use snap_text_literals::normal::{normal_text, trimmed_text};
use snap_text_literals::spelling::spell;
use std::alloc::Global;
use std::fmt;

/// Where the text of a snapshot stands.
#[derive(Clone, Copy, Debug, PartialEq, Eq)]
pub enum TextSnapshotKind {
    /// In a literal of the source.
    Inline,
    /// In a file of its own.
    File,
}

/// The text of a snapshot.
#[derive(Debug, Drop, PartialEq, Eq)]
pub struct TextSnapshotContents {
    raw: Text,
    kind: TextSnapshotKind,
}

impl TextSnapshotContents {
    ghost use Rattle.snap_text.specs.Contents.{raw_of, kind_of, normal_of, legacy_of, width_of, AreAlike, MatchLatest, TextsAgree, InlineLaw};

    /// The contents of a snapshot of this kind.
    pub fn new(contents: Text, kind: TextSnapshotKind) -> TextSnapshotContents
        ensures text { raw_of result ≡ contents }
        ensures kind { kind_of result ≡ kind }
    {
        TextSnapshotContents {
            raw: contents,
            kind,
        }
    }

    /// The inline contents of a literal that reads as this text: trimmed where that has at most one line or it holds
    /// control characters, else its lines without a first one that is empty.
    pub fn from_inline_literal(
        alloc: Global,
        contents: &str,
    ) -> Result<TextSnapshotContents, OutOfMemory>
        ensures text { IfOk result (λ made. raw_of made ≡ of_literal (chars contents.now)) }
        ensures kind { IfOk result (λ made. kind_of made ≡ Inline) }
    {
        let raw = literal::from_inline_literal(alloc, contents)?;
        Ok(TextSnapshotContents {
            raw,
            kind: TextSnapshotKind::Inline,
        })
    }

    /// Where the text stands.
    pub fn kind(&self) -> TextSnapshotKind
        ensures { result ≡ kind_of self.now }
    {
        self.kind
    }

    /// The text as it was given.
    pub fn as_raw(&self) -> &str
        ensures { chars result.now ≡ raw_of self.now }
    {
        self.raw.as_str()
    }

    /// The text without white space at its end and without the returns in front of a line's end; an inline text
    /// first loses the indentation that its lines share.
    pub fn normal(&self, alloc: Global) -> Result<Text, OutOfMemory>
        ensures { IfOk result (λ text. text ≡ normal_of self.now) }
    {
        match self.kind {
            TextSnapshotKind::Inline => inline_normal_text(alloc, self.as_raw()),
            TextSnapshotKind::File => normal_text(alloc, self.as_raw()),
        }
    }

    /// The normal form without returns and line ends at its front, and then without one `---` and its line's end;
    /// an inline text then loses the frame of the oldest format.
    fn legacy(&self, alloc: Global) -> Result<Text, OutOfMemory>
        ensures { IfOk result (λ text. text ≡ legacy_of self.now) }
    {
        match self.kind {
            TextSnapshotKind::Inline => inline_legacy_text(alloc, self.as_raw()),
            TextSnapshotKind::File => legacy_text(alloc, self.as_raw()),
        }
    }

    /// A copy with the text as it was given.
    pub fn try_clone(&self, alloc: Global) -> Result<TextSnapshotContents, OutOfMemory>
        ensures text { IfOk result (λ copy. raw_of copy ≡ raw_of self.now) }
        ensures kind { IfOk result (λ copy. kind_of copy ≡ kind_of self.now) }
    {
        let raw = self.raw.try_clone(alloc)?;
        Ok(TextSnapshotContents {
            raw,
            kind: self.kind,
        })
    }

    /// Whether both are one text as they were given.
    pub fn matches_fully(&self, other: &TextSnapshotContents) -> bool
        ensures { IsTrue result ↔ (raw_of self.now ≡ raw_of other.now) }
    {
        self.raw == other.raw
    }

    /// Whether both are texts of files that differ at most in the white space at their ends, as most are that match. No form
    /// is made to tell it.
    fn is_alike(&self, other: &TextSnapshotContents) -> bool
        ensures { IsTrue result → AreAlike self.now other.now }
    {
        self.is_of_file()
            && other.is_of_file()
            && trimmed_text(self.as_raw()) == trimmed_text(other.as_raw())
    }

    fn is_of_file(&self) -> bool
        ensures { IsTrue result ↔ (kind_of self.now ≡ File) }
    {
        match self.kind {
            TextSnapshotKind::Inline => false,
            TextSnapshotKind::File => true,
        }
    }

    /// Whether both have one older form, each by its kind.
    pub fn matches_legacy(
        &self,
        alloc: Global,
        other: &TextSnapshotContents,
    ) -> Result<bool, OutOfMemory>
        ensures { IfOk result (λ same. IsTrue same ↔ (legacy_of self.now ≡ legacy_of other.now)) }
    {
        if self.is_alike(other) {
            return Ok(true);
        }
        let mine = self.legacy(alloc)?;
        let theirs = other.legacy(alloc)?;
        Ok(mine == theirs)
    }

    /// Whether both have one normal form, each by its kind.
    pub fn matches_latest(
        &self,
        alloc: Global,
        other: &TextSnapshotContents,
    ) -> Result<bool, OutOfMemory>
        ensures { IfOk result (λ same. IsTrue same ↔ MatchLatest self.now other.now) }
    {
        if self.is_alike(other) {
            return Ok(true);
        }
        let left = self.normal(alloc)?;
        let right = other.normal(alloc)?;
        Ok(left == right)
    }

    /// Whether both have one normal form or one older form, each by its kind. Of two texts of files the older forms alone tell
    /// it. Of inline texts they don't: ` a`, and ` a` with a line's end, have one normal form, and the older forms ` a` and `a`.
    /// The error is that memory is out.
    pub fn agrees(&self, alloc: Global, other: &TextSnapshotContents) -> Result<bool, OutOfMemory>
        ensures { IfOk result (λ same. IsTrue same ↔ TextsAgree self.now other.now) }
    {
        if self.matches_legacy(alloc, other)? {
            return Ok(true);
        }
        self.matches_latest(alloc, other)
    }

    /// The normal form as a literal, at this indentation. For an inline text whose normal form is its own normal form, and
    /// an indentation of blanks and tabs, the literal reads as a text of which `from_inline_literal` makes contents that match.
    pub fn to_inline(&self, alloc: Global, indentation: &str) -> Result<Text, OutOfMemory>
        ensures spelled { IfOk result (λ literal. literal
            ≡ spelled (chars indentation.now) (normal_of self.now)) }
        ensures law { IfOk result (λ literal. InlineLaw literal (chars indentation.now) self.now) }
    {
        let normal = self.normal(alloc)?;
        spell(alloc, normal.as_str(), indentation)
    }

    /// From which byte on each line of the trimmed text is written.
    fn width(&self) -> usize
        ensures { result ≡ width_of self.now }
    {
        match self.kind {
            TextSnapshotKind::Inline => inline_width(self.as_raw()),
            TextSnapshotKind::File => 0,
        }
    }
}

/// The normal form, written line by line.
impl fmt::Display for TextSnapshotContents {
    ghost use Rattle.std.specs.Prelude.{Some, encode_utf8_all};
    ghost use Rattle.snap_text.specs.Contents.{normal_of};

    ghost output = { λ contents. Some (encode_utf8_all (normal_of contents)) };

    fn fmt<W: fmt::Write>(&self, f: &mut fmt::Formatter<W>) -> fmt::Result {
        let byte = self.width();
        let mut rest = trimmed_text(self.as_raw());
        while let Some((line, more)) = split_line(rest) {
            f.write_str(trim_returns(from_byte(line, byte)))?;
            f.write_str("\n")?;
            rest = more;
        }
        f.write_str(from_byte(rest, byte))
    }
}
