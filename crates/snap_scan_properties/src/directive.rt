//! Directives: lines that begin with `%`.
ghost use Rattle.std.specs.Prelude.{ℕ, ◌≡◌, ◌+◌, ◌≤◌, List, take_while, codes, OnOk, IfOk, IfErr, length, slice_index};
ghost use Rattle.std.specs.Str.{chars};
ghost use Rattle.snap_scan_tokens.specs.Causes.{IsExplained, IsRefusedBy};
ghost use Rattle.snap_scan_tokens.specs.Characters.{is_alpha, is_digit};
ghost use Rattle.snap_scan_tokens.specs.Place.{Place, Travels, mark_of};
ghost use Rattle.snap_scan_properties.specs.Directive.{number_of, number_from, version_from, handle_from, shorthand_from, said_by, entitled, closed, directive_from};
ghost use Rattle.snap_scan_properties.specs.Reading.{Reads, Refuses, found, run_of};

use crate::runs::{is_nothing, take_run};
use crate::tag::{handle_of, scan_some_uri};
use snap_content::Text;
use snap_content::characters::is_same;
use snap_scan_tokens::characters::{Kind, is_blank_or_end, is_break_or_end};
use snap_scan_tokens::cursor::Cursor;
use snap_scan_tokens::info::{ScanError, ScanInfo};
use snap_scan_tokens::marker::Marker;
use std::alloc::Global;

/// The digits that a number of a version may have.
const MAX_DIGITS: usize = 9;

/// What a directive says.
#[derive(Debug, Drop)]
pub enum Directive {
    /// `%YAML`, with the two numbers of the version.
    Version(u32, u32),
    /// `%TAG`, with the handle and the prefix. Both are empty at an unknown directive.
    Tag(Text, Text),
}

/// Reads the name of a directive.
fn scan_directive_name<'a>(cursor: &mut Cursor<'a>) -> Result<&'a str, ScanError>
    ensures ok { IfOk result (λ name. entitled (run_of is_alpha cursor.old)
        ≡ found (chars name.now) cursor.new) }
    ensures err { IfErr result (λ e. Refuses (entitled (run_of is_alpha cursor.old)) e) }
    ensures travels { Travels cursor.old cursor.new }
    ensures cause { IfErr result (λ e. IsRefusedBy (codes "%") (mark_of cursor.old) e) }
{
    let mark = cursor.mark();
    let name = take_run(cursor, Kind::Alpha);
    if is_nothing(name) {
        return Err(ScanError::Syntax(mark, ScanInfo::S8));
    }
    if !is_blank_or_end(cursor.ch()) {
        return Err(ScanError::Syntax(mark, ScanInfo::S9));
    }
    Ok(name)
}

/// The number that the digits write.
fn number_of(digits: &str, mark: Marker) -> Result<u32, ScanError>
    requires { (cs : List ℕ) × (chars digits.now ≡ take_while is_digit cs) }
    ensures value { (p : Place) → Reads (number_of
        (record { value = chars digits.now; place = p })) result p }
    ensures cause { IfErr result (λ e. IsRefusedBy (codes "%") mark e) }
{
    if is_nothing(digits) {
        return Err(ScanError::Syntax(mark, ScanInfo::S11));
    }
    if digits.len() > MAX_DIGITS {
        return Err(ScanError::Syntax(mark, ScanInfo::S10));
    }
    match digits.parse::<u32>() {
        Ok(number) => Ok(number),
        Err(_) => Err(ScanError::Syntax(mark, ScanInfo::S10)),
    }
}

/// Reads a number of a version.
fn scan_version_directive_number(cursor: &mut Cursor, mark: Marker) -> Result<u32, ScanError>
    ensures value { Reads (number_from cursor.old) result cursor.new }
    ensures travels { Travels cursor.old cursor.new }
    ensures cause { IfErr result (λ e. IsRefusedBy (codes "%") mark e) }
{
    let digits = take_run(cursor, Kind::Digit);
    number_of(digits, mark)
}

/// Reads what stands after `%YAML`.
fn scan_version_directive_value(cursor: &mut Cursor, mark: Marker) -> Result<Directive, ScanError>
    ensures value { Reads (version_from cursor.old) result cursor.new }
    ensures travels { Travels cursor.old cursor.new }
    ensures cause { IfErr result (λ e. IsRefusedBy (codes "%") mark e) }
{
    cursor.skip_while(Kind::Blank);
    let major = scan_version_directive_number(cursor, mark)?;
    if cursor.ch() != '.' {
        return Err(ScanError::Syntax(mark, ScanInfo::S7));
    }
    cursor.skip();
    let minor = scan_version_directive_number(cursor, mark)?;
    Ok(Directive::Version(major, minor))
}

/// Reads the handle of `%TAG`.
fn scan_handle(alloc: Global, cursor: &mut Cursor, mark: Marker) -> Result<Text, ScanError>
    ensures value { Reads (handle_from cursor.old) result cursor.new }
    ensures travels { Travels cursor.old cursor.new }
    ensures cause { IfErr result (λ e. IsRefusedBy (codes "%") mark e) }
{
    if cursor.ch() != '!' {
        return Err(ScanError::Syntax(mark, ScanInfo::S15));
    }
    cursor.skip();
    let name = take_run(cursor, Kind::Alpha);
    if cursor.ch() == '!' {
        cursor.skip();
        let handle = handle_of(alloc, name)?;
        return Ok(handle);
    }
    if !is_nothing(name) {
        return Err(ScanError::Syntax(mark, ScanInfo::S16));
    }
    let handle = Text::from_ascii(alloc, "!")?;
    Ok(handle)
}

/// Reads what stands after `%TAG`.
fn scan_tag_directive_value(
    alloc: Global,
    cursor: &mut Cursor,
    mark: Marker,
) -> Result<Directive, ScanError>
    ensures value { Reads (shorthand_from cursor.old) result cursor.new }
    ensures travels { Travels cursor.old cursor.new }
    ensures cause { IfErr result (λ e. IsRefusedBy (codes "%") mark e) }
{
    cursor.skip_while(Kind::Blank);
    let handle = scan_handle(alloc, cursor, mark)?;
    cursor.skip_while(Kind::Blank);
    let prefix = scan_some_uri(alloc, cursor, mark)?;
    if !is_blank_or_end(cursor.ch()) {
        return Err(ScanError::Syntax(mark, ScanInfo::S12));
    }
    Ok(Directive::Tag(handle, prefix))
}

/// Reads what stands after the name of a directive, up to the blanks and the comment at the end of its line.
fn scan_directive_value(
    alloc: Global,
    cursor: &mut Cursor,
    mark: Marker,
    name: &str,
) -> Result<Directive, ScanError>
    ensures value { Reads
        (said_by (record { value = chars name.now; place = cursor.old })) result cursor.new }
    ensures travels { Travels cursor.old cursor.new }
    ensures cause { IfErr result (λ e. IsRefusedBy (codes "%") mark e) }
{
    if is_same(name, "YAML") {
        return scan_version_directive_value(cursor, mark);
    }
    if is_same(name, "TAG") {
        return scan_tag_directive_value(alloc, cursor, mark);
    }
    cursor.skip_while(Kind::InLine);
    Ok(Directive::Tag(Text::empty(), Text::empty()))
}

/// Ends the line of a directive, which a comment may end.
fn close(cursor: &mut Cursor, mark: Marker, directive: Directive) -> Result<Directive, ScanError>
    ensures value { Reads
        (closed (record { value = directive; place = cursor.old })) result cursor.new }
    ensures travels { Travels cursor.old cursor.new }
    ensures cause { IfErr result (λ e. IsRefusedBy (codes "%") mark e) }
{
    cursor.skip_comment();
    if !is_break_or_end(cursor.ch()) {
        return Err(ScanError::Syntax(mark, ScanInfo::S6));
    }
    cursor.skip_break();
    Ok(directive)
}

/// Reads a directive with its line, the line end too. An unknown one says nothing.
pub fn scan_directive(alloc: Global, cursor: &mut Cursor) -> Result<Directive, ScanError>
    requires { slice_index cursor.old.left 0 ≡ 37 }
    ensures value { Reads (directive_from cursor.old) result cursor.new }
    ensures travels { Travels cursor.old cursor.new }
    ensures falls { OnOk result (length cursor.new.left + 1 ≤ length cursor.old.left) }
    ensures cause { IfErr result (λ e. IsExplained cursor.old e) }
{
    let mark = cursor.mark();
    cursor.skip();
    let name = scan_directive_name(cursor)?;
    let directive = scan_directive_value(alloc, cursor, mark, name)?;
    close(cursor, mark, directive)
}
