//! Runs of characters of one kind.
ghost use Rattle.std.specs.Prelude.{◌≡◌, take_while};
ghost use Rattle.std.specs.Str.{chars};
ghost use Rattle.snap_scan_tokens.specs.Characters.{is_of};
ghost use Rattle.snap_content.specs.Numbers.{is_nothing};
ghost use Rattle.snap_scan_tokens.specs.Place.{Travels, skipped_while};

use snap_content::characters::before_rest;
use snap_scan_tokens::characters::Kind;
use snap_scan_tokens::cursor::Cursor;

/// Whether a text has no character.
pub(crate) fn is_nothing(text: &str) -> bool
    ensures { result ≡ is_nothing (chars text.now) }
{
    text.is_empty()
}

/// Passes the characters of a kind that stand here, and answers them.
pub(crate) fn take_run<'a>(cursor: &mut Cursor<'a>, kind: Kind) -> &'a str
    ensures text { chars result.now ≡ take_while (is_of kind) cursor.old.left }
    ensures place { cursor.new ≡ skipped_while (is_of kind) cursor.old }
    ensures travels { Travels cursor.old cursor.new }
{
    let start = cursor.rest();
    cursor.skip_while(kind);
    before_rest(start, cursor.rest())
}
