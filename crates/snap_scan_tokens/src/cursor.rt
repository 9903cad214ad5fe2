//! A text from its first character to its end, as its readers see it: the characters that are left.
ghost use Rattle.std.specs.Prelude.{◌≡◌, ◌≢◌, ◌+◌, ◌≤◌, ◌∷◌, false, length, slice_index};
ghost use Rattle.std.specs.Str.{chars};
ghost use Rattle.snap_scan_tokens.specs.Place.{Travels, before_nul, start_of, mark_of, skipped, skipped_while, forced};
ghost use Rattle.snap_scan_tokens.specs.Characters.{is_of, past_break, past_comment, is_document_start, is_document_end, is_document_indicator};

use crate::characters::{Kind, before_nul, character_at, is_blank_or_end};
use crate::marker::Marker;
use snap_content::characters::split_first;
use std::marker::Model;

/// A place in a text, and what is left of the text there. It borrows the text and takes no memory.
#[derive(Debug, Drop)]
pub struct Cursor<'a> {
    rest: &'a str,
    index: usize,
    line: usize,
    col: usize,
}

impl<'a> Model for Cursor<'a> {
    ghost use Rattle.std.specs.Prelude.{◌+◌, ◌<◌, ◌≤◌, ◌^◌, length, min};
    ghost use Rattle.std.specs.Str.{chars};
    ghost use Rattle.snap_scan_tokens.specs.Place.{Place};

    ghost Value = { Place };

    ghost view = { λ c. record { left = chars c.rest.now; index = c.index; line = c.line; col = c.col } };

    ghost invariant = { λ c. (c.index + length (chars c.rest.now) < 2 ^ 63) × (c.line + min c.col 1 ≤ c.index + 1) × (c.col ≤ c.index) };
}

impl<'a> Cursor<'a> {
    /// The beginning of a text. The text ends at its first NUL.
    pub fn new(source: &'a str) -> Cursor<'a>
        ensures { result ≡ start_of (before_nul (chars source.now)) }
    {
        let rest = before_nul(source);
        let length = rest.len();
        prove!(length < 0x8000_0000_0000_0000);
        Cursor {
            rest,
            index: 0,
            line: 1,
            col: 0,
        }
    }

    /// What is left of the text.
    pub fn rest(&self) -> &'a str
        ensures { chars result.now ≡ self.now.left }
    {
        self.rest
    }

    /// The place in the text.
    pub fn mark(&self) -> Marker
        ensures { result ≡ mark_of self.now }
    {
        Marker {
            index: self.index,
            line: self.line,
            col: self.col,
        }
    }

    /// The character that stands so many places ahead, and NUL past the end.
    pub fn peek(&self, ahead: usize) -> char
        ensures { result ≡ slice_index self.now.left ahead }
    {
        character_at(self.rest, ahead)
    }

    /// The character here, and NUL at the end.
    pub fn ch(&self) -> char
        ensures { result ≡ slice_index self.now.left 0 }
    {
        self.peek(0)
    }

    /// Whether `---` stands here alone at the beginning of a line.
    pub fn is_document_start(&self) -> bool
        ensures { result ≡ is_document_start self.now }
    {
        self.col == 0
            && self.peek(0) == '-'
            && self.peek(1) == '-'
            && self.peek(2) == '-'
            && is_blank_or_end(self.peek(3))
    }

    /// Whether `...` stands here alone at the beginning of a line.
    pub fn is_document_end(&self) -> bool
        ensures { result ≡ is_document_end self.now }
    {
        self.col == 0
            && self.peek(0) == '.'
            && self.peek(1) == '.'
            && self.peek(2) == '.'
            && is_blank_or_end(self.peek(3))
    }

    /// Whether `---` or `...` stands here alone at the beginning of a line.
    pub fn is_document_indicator(&self) -> bool
        ensures { result ≡ is_document_indicator self.now }
    {
        self.is_document_start() || self.is_document_end()
    }

    /// Passes one character; at the end it does nothing.
    pub fn skip(&mut self)
        ensures value { self.new ≡ skipped self.old }
        ensures travels { Travels self.old self.new }
        ensures falls { slice_index self.old.left 0 ≢ 0
            → length self.new.left + 1 ≤ length self.old.left }
    {
        if let Some((first, rest)) = split_first(self.rest) {
            self.rest = rest;
            self.index += 1;
            if first == '\n' {
                self.line += 1;
                self.col = 0;
            } else {
                self.col += 1;
            }
        }
    }

    /// Passes the character that stands here before the rest, and ends no line.
    fn pass(&mut self, first: char, rest: &'a str)
        requires here { self.old.left ≡ first ∷ chars rest.now }
        requires in_line { first ≢ 10 }
        ensures value { self.new ≡ skipped self.old }
        ensures travels { Travels self.old self.new }
        ensures falls { length self.new.left + 1 ≤ length self.old.left }
    {
        self.rest = rest;
        self.index += 1;
        self.col += 1;
    }

    /// Passes the characters of a kind that stand here.
    pub fn skip_while(&mut self, kind: Kind)
        ensures value { self.new ≡ skipped_while (is_of kind) self.old }
        ensures travels { Travels self.old self.new }
        ensures end { is_of kind (slice_index self.new.left 0) ≡ false }
    {
        'characters: while let Some((first, rest)) = split_first(self.rest) {
            if !kind.has(first) {
                return;
            }
            self.pass(first, rest);
        }
    }

    /// Passes the line end that begins here; CR and LF are one.
    pub fn skip_break(&mut self)
        ensures value { self.new ≡ past_break self.old }
        ensures travels { Travels self.old self.new }
        ensures falls { slice_index self.old.left 0 ≢ 0
            → length self.new.left + 1 ≤ length self.old.left }
    {
        if self.ch() == '\r' && self.peek(1) == '\n' {
            self.skip();
        }
        self.skip();
    }

    /// Passes blanks, and a comment after them.
    pub fn skip_comment(&mut self)
        ensures value { self.new ≡ past_comment self.old }
        ensures travels { Travels self.old self.new }
    {
        self.skip_while(Kind::Blank);
        if self.ch() != '#' {
            return;
        }
        self.skip_while(Kind::InLine);
    }

    /// Goes to the next line where the column is not 0; the characters stay.
    pub fn force_line(&mut self)
        ensures value { self.new ≡ forced self.old }
        ensures same { self.new.left ≡ self.old.left }
    {
        if self.col != 0 {
            self.line += 1;
            self.col = 0;
        }
    }
}
