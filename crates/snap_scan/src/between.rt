//! What lies between tokens: blanks, breaks and comments.
ghost use Rattle.std.specs.Prelude.{◌≡◌, ◌≤◌, true, slice_index};
ghost use Rattle.snap_scan_tokens.specs.Characters.{is_break_or_end};
ghost use Rattle.snap_scan.specs.State.{state_of, extent, spent, work, to_next, past_comment};

use crate::fetcher::Fetcher;
use snap_scan_tokens::characters::{is_break, is_break_or_end};

impl<'a> Fetcher<'a> {
    /// Goes to the next character that begins a token, or to the end.
    pub(crate) fn skip_to_next_token(&mut self)
        ensures value { state_of self.new
            ≡ to_next (state_of self.old).place.left (state_of self.old) }
        ensures still { self.new.ended ≡ self.old.ended }
        ensures cost { spent (state_of self.new) ≤ spent (state_of self.old) }
        ensures work { work (state_of self.new) ≤ work (state_of self.old) }
        ensures extent { extent (state_of self.new) ≡ extent (state_of self.old) }
    {
        'characters: loop {
            let c = self.cursor.peek(0);
            if c == ' ' || (c == '\t' && (self.in_flow() || !self.simple_key_allowed)) {
                self.skip();
            } else if is_break(c) {
                self.skip();
                if !self.in_flow() {
                    self.simple_key_allowed = true;
                }
            } else if c == '#' {
                self.skip();
                self.skip_comment();
            } else {
                return;
            }
        }
    }

    fn skip_comment(&mut self)
        ensures value { past_comment (state_of self.new).place.left (state_of self.new)
            ≡ past_comment (state_of self.old).place.left (state_of self.old) }
        ensures stops { is_break_or_end (slice_index (state_of self.new).place.left 0) ≡ true }
        ensures still { self.new.ended ≡ self.old.ended }
        ensures cost { spent (state_of self.new) ≤ spent (state_of self.old) }
        ensures work { work (state_of self.new) ≤ work (state_of self.old) }
        ensures extent { extent (state_of self.new) ≡ extent (state_of self.old) }
    {
        'characters: while !is_break_or_end(self.cursor.peek(0)) {
            self.skip();
        }
    }
}
