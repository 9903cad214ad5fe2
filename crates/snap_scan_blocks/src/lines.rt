//! The lines of a block scalar.
ghost use Rattle.std.specs.Prelude.{◌≡◌, true, false, codes, [], IfOk, OnOk, IfErr, slice_index};
ghost use Rattle.snap_scan_tokens.specs.Causes.{IsRefusedBy, IsFault};
ghost use Rattle.snap_scan_tokens.specs.declared.info.ScanInfo.TheVariants.{S28};
ghost use Rattle.snap_scan_tokens.specs.Characters.{is_blank, is_of};
ghost use Rattle.snap_scan_tokens.specs.Pieces.{before};
ghost use Rattle.snap_scan_tokens.specs.Place.{Travels, mark_of, skipped_while};
ghost use Rattle.snap_scan_blocks.specs.Block.{between};
ghost use Rattle.snap_scan_blocks.specs.Lines.{no_lines, joined, with_line, chomped};
ghost use Rattle.snap_scan_blocks.specs.Steps.{is_open, ReadsLines};

use crate::header::Chomping;
use crate::indentation::scan_empty_lines;
use snap_content::characters::before_rest;
use snap_content::{OutOfMemory, Text};
use snap_scan_tokens::characters::{Kind, is_blank};
use snap_scan_tokens::cursor::Cursor;
use snap_scan_tokens::folding::is_nothing;
use snap_scan_tokens::info::ScanError;
use std::alloc::Global;

/// The lines of a block scalar as they are read.
#[derive(Debug, Drop)]
pub struct Lines {
    /// What the lines stand for so far, but for the line ends after the last of them.
    text: Text,
    /// Whether the last line has ended.
    is_ended: bool,
    /// Whether the last line began with a blank.
    is_deeper: bool,
    /// The ends of the empty lines after it.
    pub(crate) breaks: Text,
}

impl Lines {
    pub(crate) fn new() -> Lines
        ensures { result ≡ no_lines }
    {
        Lines {
            text: Text::empty(),
            is_ended: false,
            is_deeper: false,
            breaks: Text::empty(),
        }
    }

    /// Adds what the line ends before a line stand for.
    fn join(&mut self, alloc: Global, literal: bool, is_deeper: bool) -> Result<(), OutOfMemory>
        ensures { OnOk result (self.new
            ≡ record {
              text = joined literal is_deeper self.old;
              is_ended = false;
              is_deeper = is_deeper;
              breaks = [];
            }) }
    {
        if self.is_ended {
            if literal || self.is_deeper || is_deeper {
                self.text.push(alloc, '\n')?;
            } else if is_nothing(&self.breaks) {
                self.text.push(alloc, ' ')?;
            }
        }
        self.text.push_text(alloc, &self.breaks)?;
        self.breaks = Text::empty();
        self.is_ended = false;
        self.is_deeper = is_deeper;
        Ok(())
    }

    /// Adds the line that begins here, without its end.
    fn scan_line(
        &mut self,
        alloc: Global,
        cursor: &mut Cursor,
        literal: bool,
    ) -> Result<(), OutOfMemory>
        ensures value { OnOk result (self.new
            ≡ with_line literal (is_blank (slice_index cursor.old.left 0))
            (before cursor.old.left cursor.new.left) self.old) }
        ensures place { OnOk result (cursor.new ≡ skipped_while (is_of Kind.InLine) cursor.old) }
        ensures end { OnOk result (is_of Kind.InLine (slice_index cursor.new.left 0) ≡ false) }
        ensures travels { Travels cursor.old cursor.new }
    {
        self.join(alloc, literal, is_blank(cursor.ch()))?;
        let start = cursor.rest();
        cursor.skip_while(Kind::InLine);
        self.text
            .push_str(alloc, before_rest(start, cursor.rest()))?;
        Ok(())
    }

    /// Reads the lines that stand in the indentation, and the empty lines between and after them.
    pub(crate) fn scan(
        &mut self,
        alloc: Global,
        cursor: &mut Cursor,
        indentation: u128,
        literal: bool,
    ) -> Result<(), ScanError>
        requires { is_open indentation cursor.old ≡ true }
        ensures value { ReadsLines
            (between indentation literal self.old cursor.old.left cursor.old) result self.new
            cursor.new }
        ensures travels { Travels cursor.old cursor.new }
        ensures cause { IfErr result (λ e. IsRefusedBy (codes "|>") (mark_of cursor.new) e) }
        ensures info { IfErr result (IsFault S28) }
    {
        'lines: while cursor.ch() != '\0' && cursor.mark().col() as u128 == indentation {
            self.scan_line(alloc, cursor, literal)?;
            if cursor.ch() == '\0' {
                return Ok(());
            }
            cursor.skip_break();
            self.is_ended = true;
            scan_empty_lines(alloc, cursor, indentation, &mut self.breaks)?;
        }
        Ok(())
    }

    /// The text, with the line ends after the last line that the header keeps.
    pub(crate) fn finish(self, alloc: Global, chomping: Chomping) -> Result<Text, OutOfMemory>
        ensures { IfOk result (λ text. text ≡ chomped chomping self) }
    {
        let mut text = self.text;
        if self.is_ended && chomping != Chomping::Strip {
            text.push(alloc, '\n')?;
        }
        if chomping == Chomping::Keep {
            text.push_text(alloc, &self.breaks)?;
        }
        Ok(text)
    }
}
