//! The header of a block scalar: the line of `|` or `>`.
ghost use Rattle.std.specs.Prelude.{◌≡◌, ◌≢◌, ◌+◌, ◌≤◌, codes, IfOk, OnOk, IfErr, true, false, length, slice_index};
ghost use Rattle.snap_scan_tokens.specs.Causes.{IsRefusedBy};
ghost use Rattle.snap_scan_tokens.specs.Characters.{is_break_or_end, past_break, past_comment};
ghost use Rattle.snap_scan_tokens.specs.Place.{Travels};
ghost use Rattle.snap_scan_blocks.specs.Header.{chomping_of, or_clip, digit_of, past_sign, past_digit, digit_first, signs, header_from, header_fault, ReadsHeader};
ghost use Rattle.snap_scan_tokens.specs.declared.info.ScanError.TheVariants.{Syntax};
ghost use Rattle.snap_scan_tokens.specs.declared.info.ScanInfo.TheVariants.{S26, S27};

use snap_scan_tokens::characters::{is_break_or_end, is_digit};
use snap_scan_tokens::cursor::Cursor;
use snap_scan_tokens::info::{ScanError, ScanInfo};
use snap_scan_tokens::marker::Marker;

/// What becomes of the line ends after the last line.
#[derive(Clone, Copy, Debug, PartialEq, Eq)]
pub enum Chomping {
    Strip,
    Clip,
    Keep,
}

/// What stands after `|` or `>`.
#[derive(Clone, Copy, Debug, PartialEq, Eq)]
pub struct Header {
    pub chomping: Chomping,
    /// The indentation, counted from the innermost block, where it is given.
    pub indentation: Option<usize>,
}

/// Reads `+` or `-`.
fn scan_chomping(cursor: &mut Cursor) -> Option<Chomping>
    ensures value { result ≡ chomping_of (slice_index cursor.old.left 0) }
    ensures place { cursor.new ≡ past_sign cursor.old }
    ensures travels { Travels cursor.old cursor.new }
{
    match cursor.ch() {
        '+' => {
            cursor.skip();
            Some(Chomping::Keep)
        }
        '-' => {
            cursor.skip();
            Some(Chomping::Strip)
        }
        _ => None,
    }
}

/// Reads the digit of an indentation, where one stands. 0 is refused.
fn scan_digit(cursor: &mut Cursor, mark: Marker) -> Result<Option<usize>, ScanError>
    ensures value { IfOk result (λ digit. digit ≡ digit_of (slice_index cursor.old.left 0)) }
    ensures place { OnOk result (cursor.new ≡ past_digit cursor.old) }
    ensures some { OnOk result (slice_index cursor.old.left 0 ≢ 48) }
    ensures zero { IfErr result (λ e. (e ≡ Syntax mark S26) × (slice_index cursor.old.left 0 ≡ 48)) }
    ensures travels { Travels cursor.old cursor.new }
    ensures cause { IfErr result (λ e. IsRefusedBy (codes "|>") mark e) }
{
    let c = cursor.ch();
    if !is_digit(c) {
        return Ok(None);
    }
    if c == '0' {
        return Err(ScanError::Syntax(mark, ScanInfo::S26));
    }
    cursor.skip();
    Ok(Some((c as u32 - '0' as u32) as usize))
}

/// Reads `+` or `-` after a digit.
fn scan_late_chomping(cursor: &mut Cursor) -> Chomping
    ensures value { result ≡ or_clip (chomping_of (slice_index cursor.old.left 0)) }
    ensures place { cursor.new ≡ past_sign cursor.old }
    ensures travels { Travels cursor.old cursor.new }
{
    match scan_chomping(cursor) {
        Some(chomping) => chomping,
        None => Chomping::Clip,
    }
}

/// Reads the signs after `|` or `>` that begin with no `+` and no `-`.
fn scan_digit_first(cursor: &mut Cursor, mark: Marker) -> Result<Header, ScanError>
    ensures value { ReadsHeader (digit_first cursor.old) result cursor.new }
    ensures zero { IfErr result (λ e. e ≡ Syntax mark S26) }
    ensures travels { Travels cursor.old cursor.new }
    ensures cause { IfErr result (λ e. IsRefusedBy (codes "|>") mark e) }
{
    match scan_digit(cursor, mark)? {
        None => Ok(Header {
            chomping: Chomping::Clip,
            indentation: None,
        }),
        Some(digit) => {
            let chomping = scan_late_chomping(cursor);
            Ok(Header {
                chomping,
                indentation: Some(digit),
            })
        }
    }
}

/// Reads the signs after `|` or `>`, which may stand in either order.
fn scan_signs(cursor: &mut Cursor, mark: Marker) -> Result<Header, ScanError>
    ensures value { ReadsHeader (signs cursor.old) result cursor.new }
    ensures zero { IfErr result (λ e. e ≡ Syntax mark S26) }
    ensures travels { Travels cursor.old cursor.new }
    ensures cause { IfErr result (λ e. IsRefusedBy (codes "|>") mark e) }
{
    match scan_chomping(cursor) {
        None => scan_digit_first(cursor, mark),
        Some(chomping) => {
            let indentation = scan_digit(cursor, mark)?;
            Ok(Header {
                chomping,
                indentation,
            })
        }
    }
}

/// Reads what stands after the signs, with the line end. Something else than a comment is refused.
fn scan_rest_of_header(cursor: &mut Cursor, mark: Marker) -> Result<(), ScanError>
    ensures place { OnOk result (cursor.new ≡ past_break (past_comment cursor.old)) }
    ensures end { OnOk result (is_break_or_end (slice_index (past_comment cursor.old).left 0)
        ≡ true) }
    ensures rest { IfErr result (λ e. (e ≡ Syntax mark S27)
        × (is_break_or_end (slice_index (past_comment cursor.old).left 0) ≡ false)) }
    ensures travels { Travels cursor.old cursor.new }
    ensures cause { IfErr result (λ e. IsRefusedBy (codes "|>") mark e) }
{
    cursor.skip_comment();
    if !is_break_or_end(cursor.ch()) {
        return Err(ScanError::Syntax(mark, ScanInfo::S27));
    }
    cursor.skip_break();
    Ok(())
}

/// Reads the line of `|` or `>`, with its end.
pub(crate) fn scan_header(cursor: &mut Cursor, mark: Marker) -> Result<Header, ScanError>
    requires { slice_index cursor.old.left 0 ≢ 0 }
    ensures value { ReadsHeader (header_from cursor.old) result cursor.new }
    ensures info { IfErr result (λ e. e ≡ Syntax mark (header_fault cursor.old)) }
    ensures travels { Travels cursor.old cursor.new }
    ensures falls { OnOk result (length cursor.new.left + 1 ≤ length cursor.old.left) }
    ensures cause { IfErr result (λ e. IsRefusedBy (codes "|>") mark e) }
{
    cursor.skip();
    let header = scan_signs(cursor, mark)?;
    scan_rest_of_header(cursor, mark)?;
    Ok(header)
}
