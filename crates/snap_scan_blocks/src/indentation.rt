//! Empty lines before the lines of a block scalar, and the indentation of these.
ghost use Rattle.std.specs.Prelude.{ℕ, ◌≡◌, ◌≤◌, ◌==◌, ◌&&◌, nat_lt, max, true, false, codes, List, IfOk, OnOk, IfErr, slice_index};
ghost use Rattle.snap_scan_tokens.specs.Causes.{IsRefusedBy, IsFault};
ghost use Rattle.snap_scan_tokens.specs.declared.info.ScanInfo.TheVariants.{S28};
ghost use Rattle.snap_scan_tokens.specs.Place.{Travels, mark_of};
ghost use Rattle.snap_scan_blocks.specs.Block.{widest, first_sign, right_of, indentation_of, is_bad_tab};
ghost use Rattle.snap_scan_blocks.specs.Steps.{Passes, is_open, IsRefusedLine, IsTabFirst, IsRefusedOpening};

use crate::header::Header;
use snap_content::Text;
use snap_scan_tokens::characters::{Kind, is_break};
use snap_scan_tokens::cursor::Cursor;
use snap_scan_tokens::info::{ScanError, ScanInfo};
use std::alloc::Global;

/// Whether a column stands in the indentation.
fn is_indented(indentation: u128, col: usize) -> bool
    ensures { result ≡ nat_lt col indentation }
{
    (col as u128) < indentation
}

/// Passes the spaces of an indentation.
fn skip_indentation(cursor: &mut Cursor, indentation: u128)
    ensures value { (breaks : List ℕ) → Passes indentation breaks cursor.old breaks cursor.new }
    ensures end { (slice_index cursor.new.left 0 == 32 && nat_lt cursor.new.col indentation)
        ≡ false }
    ensures travels { Travels cursor.old cursor.new }
{
    'spaces: while cursor.ch() == ' ' && is_indented(indentation, cursor.mark().col()) {
        cursor.skip();
    }
}

/// Reads empty lines, and the indentation of the next line.
pub(crate) fn scan_empty_lines(
    alloc: Global,
    cursor: &mut Cursor,
    indentation: u128,
    breaks: &mut Text,
) -> Result<(), ScanError>
    ensures value { OnOk result (Passes indentation breaks.old cursor.old breaks.new cursor.new) }
    ensures stands { OnOk result (is_open indentation cursor.new ≡ true) }
    ensures refused { IfErr result (λ e. IsRefusedLine indentation breaks.old cursor.old e) }
    ensures travels { Travels cursor.old cursor.new }
    ensures cause { IfErr result (λ e. IsRefusedBy (codes "|>") (mark_of cursor.new) e) }
    ensures info { IfErr result (IsFault S28) }
{
    'lines: loop {
        skip_indentation(cursor, indentation);
        if cursor.ch() == '\t' && is_indented(indentation, cursor.mark().col()) {
            return Err(ScanError::Syntax(cursor.mark(), ScanInfo::S28));
        }
        if !is_break(cursor.ch()) {
            return Ok(());
        }
        breaks.push(alloc, '\n')?;
        cursor.skip_break();
    }
}

/// The greater one of two columns.
fn wider(reached: usize, col: usize) -> usize
    ensures { result ≡ max reached col }
{
    reached.max(col)
}

/// Reads lines of spaces alone, and the spaces of the next line, and tells the greatest column that was reached.
fn scan_leading_lines(
    alloc: Global,
    cursor: &mut Cursor,
    breaks: &mut Text,
) -> Result<usize, ScanError>
    ensures column { IfOk result (λ reached. reached ≡ widest cursor.old.left cursor.old.col) }
    ensures value { IfOk result (λ reached. (n : ℕ) → reached ≤ n
        → Passes n breaks.old cursor.old breaks.new cursor.new) }
    ensures stands { OnOk result ((n : ℕ) → is_open n cursor.new ≡ true) }
    ensures sign { OnOk result ((first_sign cursor.old.left == 9) ≡ false) }
    ensures refused { IfErr result (λ e. IsTabFirst cursor.old.left e) }
    ensures travels { Travels cursor.old cursor.new }
    ensures cause { IfErr result (λ e. IsRefusedBy (codes "|>") (mark_of cursor.new) e) }
    ensures info { IfErr result (IsFault S28) }
{
    let mut reached = 0;
    'lines: loop {
        cursor.skip_while(Kind::Space);
        reached = wider(reached, cursor.mark().col());
        if cursor.ch() == '\t' {
            return Err(ScanError::Syntax(cursor.mark(), ScanInfo::S28));
        }
        if !is_break(cursor.ch()) {
            return Ok(reached);
        }
        breaks.push(alloc, '\n')?;
        cursor.skip_break();
    }
}

/// The indentation that the header gives, counted from the innermost block. It may be greater than any column.
fn given_indentation(indent: Option<usize>, digit: usize) -> u128
    ensures { result ≡ right_of indent digit }
{
    match indent {
        None => digit as u128,
        Some(column) => column as u128 + digit as u128,
    }
}

/// The indentation where the header gives none: the greatest column of the leading lines, which is right of the innermost block.
fn found_indentation(indent: Option<usize>, reached: usize) -> u128
    ensures { result ≡ max reached (right_of indent 1) }
{
    match indent {
        None => (reached as u128).max(1),
        Some(column) => (reached as u128).max(column as u128 + 1),
    }
}

/// Reads what stands before the first line that isn't empty, and tells the indentation of the lines.
pub(crate) fn scan_opening(
    alloc: Global,
    cursor: &mut Cursor,
    header: Header,
    indent: Option<usize>,
    breaks: &mut Text,
) -> Result<u128, ScanError>
    ensures indentation { IfOk result (λ n. n
        ≡ indentation_of header.indentation indent cursor.old) }
    ensures value { IfOk result (λ n. Passes n breaks.old cursor.old breaks.new cursor.new) }
    ensures stands { IfOk result (λ n. is_open n cursor.new ≡ true) }
    ensures tab { OnOk result (is_bad_tab header.indentation cursor.old ≡ false) }
    ensures refused { IfErr result (λ e.
        IsRefusedOpening header.indentation indent breaks.old cursor.old e) }
    ensures travels { Travels cursor.old cursor.new }
    ensures cause { IfErr result (λ e. IsRefusedBy (codes "|>") (mark_of cursor.new) e) }
    ensures info { IfErr result (IsFault S28) }
{
    match header.indentation {
        Some(digit) => {
            let indentation = given_indentation(indent, digit);
            scan_empty_lines(alloc, cursor, indentation, breaks)?;
            Ok(indentation)
        }
        None => {
            let reached = scan_leading_lines(alloc, cursor, breaks)?;
            Ok(found_indentation(indent, reached))
        }
    }
}
