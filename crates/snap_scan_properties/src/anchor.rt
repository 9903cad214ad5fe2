//! Anchors and aliases.
ghost use Rattle.std.specs.Prelude.{◌≡◌, ◌+◌, ◌≤◌, ◌||◌, not, true, codes, OnOk, IfErr, length, slice_index};
ghost use Rattle.std.specs.Str.{chars};
ghost use Rattle.snap_scan_tokens.specs.Causes.{IsExplained, is_among};
ghost use Rattle.snap_content.specs.Numbers.{is_nothing};
ghost use Rattle.snap_scan_tokens.specs.Place.{Travels};
ghost use Rattle.snap_scan_properties.specs.Anchor.{ends_name, anchor_from};
ghost use Rattle.snap_scan_properties.specs.Reading.{Reads};

use crate::runs::{is_nothing, take_run};
use snap_content::Text;
use snap_scan_tokens::characters::{Kind, is_blank_or_end};
use snap_scan_tokens::cursor::Cursor;
use snap_scan_tokens::info::{ScanError, ScanInfo};
use std::alloc::Global;

/// Whether a character may stand after a name.
fn ends_name(next: char) -> bool
    ensures { result ≡ ends_name next }
{
    is_blank_or_end(next) || matches!(next, '?' | ':' | ',' | ']' | '}' | '%' | '@' | '`')
}

/// Whether this is no name, or none that ends before the character.
fn is_unnamed(name: &str, next: char) -> bool
    ensures { result ≡ (is_nothing (chars name.now) || not (ends_name next)) }
{
    is_nothing(name) || !ends_name(next)
}

/// Reads the name after `*` or `&`.
pub fn scan_anchor(alloc: Global, cursor: &mut Cursor) -> Result<Text, ScanError>
    requires { is_among (codes "*&") (slice_index cursor.old.left 0) ≡ true }
    ensures value { Reads (anchor_from cursor.old) result cursor.new }
    ensures travels { Travels cursor.old cursor.new }
    ensures falls { OnOk result (length cursor.new.left + 1 ≤ length cursor.old.left) }
    ensures cause { IfErr result (λ e. IsExplained cursor.old e) }
{
    let mark = cursor.mark();
    cursor.skip();
    let name = take_run(cursor, Kind::Alpha);
    if is_unnamed(name, cursor.ch()) {
        return Err(ScanError::Syntax(mark, ScanInfo::S22));
    }
    let name = Text::from_str(alloc, name)?;
    Ok(name)
}
