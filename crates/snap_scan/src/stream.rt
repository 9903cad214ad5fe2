//! The stream, its documents and its directives.
ghost use Rattle.std.specs.Prelude.{◌≡◌, ◌≢◌, ◌<◌, ◌≤◌, OnOk, false, slice_index};
ghost use Rattle.snap_scan.specs.State.{state_of, extent, spent, work, Gives};
ghost use Rattle.snap_scan.specs.Fetching.{Does, stream_started, stream_end, document, directive};

use crate::fetcher::{Fetcher, ScanResult};
use snap_scan_properties::directive::{Directive, scan_directive};
use snap_scan_tokens::{TEncoding, Tag, TagTexts, TokenType};

impl<'a> Fetcher<'a> {
    pub(crate) fn fetch_stream_start(&mut self) -> ScanResult
        requires { self.old.started ≡ false }
        ensures value { Gives result (state_of self.new) (stream_started (state_of self.old)) }
        ensures cost { OnOk result (spent (state_of self.new) ≤ spent (state_of self.old)) }
        ensures work { OnOk result (work (state_of self.new) < work (state_of self.old)) }
        ensures extent { extent (state_of self.new) ≡ extent (state_of self.old) }
    {
        let mark = self.cursor.mark();
        self.push_token(mark, TokenType::StreamStart(TEncoding::Utf8))?;
        self.started = true;
        Ok(())
    }

    pub(crate) fn fetch_stream_end(&mut self) -> ScanResult
        requires { self.old.ended ≡ false }
        ensures value { Does (stream_end (state_of self.old)) result (state_of self.new) }
        ensures cost { OnOk result (spent (state_of self.new) ≤ spent (state_of self.old)) }
        ensures work { OnOk result (work (state_of self.new) < work (state_of self.old)) }
        ensures extent { extent (state_of self.new) ≡ extent (state_of self.old) }
    {
        self.cursor.force_line();
        self.unroll_indent(None)?;
        self.remove_simple_key()?;
        self.allow_simple_key(false);
        let mark = self.cursor.mark();
        self.push_token(mark, TokenType::StreamEnd)?;
        self.ended = true;
        Ok(())
    }

    /// `---` or `...`.
    pub(crate) fn fetch_document_indicator(&mut self, kind: TokenType<'a>) -> ScanResult
        requires { slice_index (state_of self.old).place.left 0 ≢ 0 }
        ensures value { Does (document kind.entry (state_of self.old)) result (state_of self.new) }
        ensures cost { OnOk result (spent (state_of self.new) ≤ spent (state_of self.old)) }
        ensures work { OnOk result (work (state_of self.new) < work (state_of self.old)) }
        ensures extent { extent (state_of self.new) ≡ extent (state_of self.old) }
    {
        self.unroll_indent(None)?;
        self.remove_simple_key()?;
        self.allow_simple_key(false);
        let mark = self.cursor.mark();
        self.skip();
        self.skip();
        self.skip();
        self.push_token(mark, kind)
    }

    pub(crate) fn fetch_directive(&mut self) -> ScanResult
        requires { slice_index (state_of self.old).place.left 0 ≡ 37 }
        ensures value { Does (directive (state_of self.old)) result (state_of self.new) }
        ensures cost { OnOk result (spent (state_of self.new) ≤ spent (state_of self.old)) }
        ensures work { OnOk result (work (state_of self.new) < work (state_of self.old)) }
        ensures extent { extent (state_of self.new) ≡ extent (state_of self.old) }
    {
        self.unroll_indent(None)?;
        self.remove_simple_key()?;
        self.allow_simple_key(false);
        let mark = self.cursor.mark();
        match scan_directive(self.alloc, &mut self.cursor)? {
            Directive::Version(major, minor) => self.push_token(
                mark,
                TokenType::VersionDirective(major, minor),
            ),
            Directive::Tag(handle, suffix) => {
                let tag = Tag::new(self.alloc, TagTexts { handle, suffix })?;
                self.push_token(mark, TokenType::TagDirective(tag))
            }
        }
    }
}
