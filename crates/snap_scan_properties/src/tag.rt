//! Tags, and the handles and prefixes of tag directives.
ghost use Rattle.std.specs.Prelude.{◌≡◌, ◌≢◌, ◌+◌, ◌≤◌, codes, OnOk, IfOk, IfErr, length, slice_index};
ghost use Rattle.std.specs.Str.{chars};
ghost use Rattle.snap_scan_tokens.specs.Causes.{IsExplained, IsRefusedBy};
ghost use Rattle.snap_scan_tokens.specs.Place.{Place, Travels};
ghost use Rattle.snap_scan_properties.specs.Octets.{headed, uri_from, some_uri_from};
ghost use Rattle.snap_scan_properties.specs.Reading.{Reads};
ghost use Rattle.snap_scan_properties.specs.Tag.{handle_of, local_tag, verbatim, with_handle, local, shorthand, any_tag, tag_from};

use crate::octets::scan_uri_escapes;
use crate::runs::{is_nothing, take_run};
use snap_content::{OutOfMemory, Text};
use snap_scan_tokens::characters::{Kind, is_blank_or_end};
use snap_scan_tokens::cursor::Cursor;
use snap_scan_tokens::info::{ScanError, ScanInfo};
use snap_scan_tokens::marker::Marker;
use snap_scan_tokens::tag::TagTexts;
use std::alloc::Global;

/// The handle with this name: the name between two `!`.
pub(crate) fn handle_of(alloc: Global, name: &str) -> Result<Text, OutOfMemory>
    ensures { IfOk result (λ handle. handle ≡ handle_of (chars name.now)) }
{
    let mut handle = Text::empty();
    handle.push_ascii(alloc, "!")?;
    handle.push_str(alloc, name)?;
    handle.push_ascii(alloc, "!")?;
    Ok(handle)
}

/// Reads what may stand in a tag, after the text that is given.
pub(crate) fn scan_tag_uri(
    alloc: Global,
    cursor: &mut Cursor,
    mark: Marker,
    head: &str,
) -> Result<Text, ScanError>
    ensures value { Reads (headed (chars head.now) (uri_from cursor.old)) result cursor.new }
    ensures travels { Travels cursor.old cursor.new }
    ensures cause { IfErr result (λ e. IsRefusedBy (codes "!%") mark e) }
{
    let mut text = Text::empty();
    text.push_str(alloc, head)?;
    'characters: loop {
        if cursor.ch() == '%' {
            match scan_uri_escapes(cursor) {
                Err(info) => return Err(ScanError::Syntax(mark, info)),
                Ok(character) => text.push(alloc, character)?,
            }
        } else if Kind::Uri.has(cursor.ch()) {
            text.push(alloc, cursor.ch())?;
            cursor.skip();
        } else {
            return Ok(text);
        }
    }
}

/// Reads what may stand in a tag, of which at least one character must be there.
pub(crate) fn scan_some_uri(
    alloc: Global,
    cursor: &mut Cursor,
    mark: Marker,
) -> Result<Text, ScanError>
    ensures value { Reads (some_uri_from cursor.old) result cursor.new }
    ensures travels { Travels cursor.old cursor.new }
    ensures cause { IfErr result (λ e. IsRefusedBy (codes "!%") mark e) }
{
    let text = scan_tag_uri(alloc, cursor, mark, "")?;
    if is_nothing(text.as_str()) {
        return Err(ScanError::Syntax(mark, ScanInfo::S17));
    }
    Ok(text)
}

/// Reads `!<suffix>`.
fn scan_verbatim(alloc: Global, cursor: &mut Cursor, mark: Marker) -> Result<TagTexts, ScanError>
    requires { slice_index cursor.old.left 0 ≢ 0 }
    ensures value { Reads (verbatim cursor.old) result cursor.new }
    ensures travels { Travels cursor.old cursor.new }
    ensures falls { OnOk result (length cursor.new.left + 1 ≤ length cursor.old.left) }
    ensures cause { IfErr result (λ e. IsRefusedBy (codes "!") mark e) }
{
    cursor.skip();
    cursor.skip();
    let suffix = scan_some_uri(alloc, cursor, mark)?;
    if cursor.ch() != '>' {
        return Err(ScanError::Syntax(mark, ScanInfo::S13));
    }
    cursor.skip();
    Ok(TagTexts {
        handle: Text::empty(),
        suffix,
    })
}

/// Reads the `!` after the name of a handle, and the suffix.
fn scan_with_handle(
    alloc: Global,
    cursor: &mut Cursor,
    mark: Marker,
    name: &str,
) -> Result<TagTexts, ScanError>
    ensures value { Reads
        (with_handle (record { value = chars name.now; place = cursor.old })) result cursor.new }
    ensures travels { Travels cursor.old cursor.new }
    ensures cause { IfErr result (λ e. IsRefusedBy (codes "!") mark e) }
{
    cursor.skip();
    let handle = handle_of(alloc, name)?;
    let suffix = scan_some_uri(alloc, cursor, mark)?;
    Ok(TagTexts { handle, suffix })
}

/// The tag of a suffix whose handle is `!`. That of none has the suffix `!`.
fn local_tag(suffix: Text, sign: Text) -> TagTexts
    requires { sign ≡ codes "!" }
    ensures { result ≡ local_tag suffix }
{
    if is_nothing(suffix.as_str()) {
        return TagTexts {
            handle: suffix,
            suffix: sign,
        };
    }
    TagTexts {
        handle: sign,
        suffix,
    }
}

/// Reads what stands after `!` and the first characters of a suffix.
fn scan_local(
    alloc: Global,
    cursor: &mut Cursor,
    mark: Marker,
    head: &str,
) -> Result<TagTexts, ScanError>
    ensures value { (p : Place) → headed (chars head.now) (uri_from cursor.old) ≡ uri_from p
        → Reads (local p) result cursor.new }
    ensures travels { Travels cursor.old cursor.new }
    ensures cause { IfErr result (λ e. IsRefusedBy (codes "!") mark e) }
{
    let sign = Text::from_ascii(alloc, "!")?;
    let suffix = scan_tag_uri(alloc, cursor, mark, head)?;
    Ok(local_tag(suffix, sign))
}

/// Reads `suffix` or `handle!suffix`, after a `!`.
fn scan_shorthand(alloc: Global, cursor: &mut Cursor, mark: Marker) -> Result<TagTexts, ScanError>
    ensures value { Reads (shorthand cursor.old) result cursor.new }
    ensures travels { Travels cursor.old cursor.new }
    ensures cause { IfErr result (λ e. IsRefusedBy (codes "!") mark e) }
{
    let name = take_run(cursor, Kind::Alpha);
    if cursor.ch() == '!' {
        return scan_with_handle(alloc, cursor, mark, name);
    }
    scan_local(alloc, cursor, mark, name)
}

/// Reads a tag, whatever stands after it.
fn scan_any_tag(alloc: Global, cursor: &mut Cursor, mark: Marker) -> Result<TagTexts, ScanError>
    requires { slice_index cursor.old.left 0 ≢ 0 }
    ensures value { Reads (any_tag cursor.old) result cursor.new }
    ensures travels { Travels cursor.old cursor.new }
    ensures falls { OnOk result (length cursor.new.left + 1 ≤ length cursor.old.left) }
    ensures cause { IfErr result (λ e. IsRefusedBy (codes "!") mark e) }
{
    if cursor.peek(1) == '<' {
        return scan_verbatim(alloc, cursor, mark);
    }
    cursor.skip();
    scan_shorthand(alloc, cursor, mark)
}

/// Reads a tag.
pub fn scan_tag(alloc: Global, cursor: &mut Cursor) -> Result<TagTexts, ScanError>
    requires { slice_index cursor.old.left 0 ≡ 33 }
    ensures value { Reads (tag_from cursor.old) result cursor.new }
    ensures travels { Travels cursor.old cursor.new }
    ensures falls { OnOk result (length cursor.new.left + 1 ≤ length cursor.old.left) }
    ensures cause { IfErr result (λ e. IsExplained cursor.old e) }
{
    let mark = cursor.mark();
    let tag = scan_any_tag(alloc, cursor, mark)?;
    if !is_blank_or_end(cursor.ch()) {
        return Err(ScanError::Syntax(mark, ScanInfo::S14));
    }
    Ok(tag)
}
