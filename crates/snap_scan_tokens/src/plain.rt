//! Plain scalars: words without quotes, over one line or several.
ghost use Rattle.std.specs.Prelude.{ℕ, ◌≡◌, ◌≢◌, ◌+◌, ◌≤◌, Bool, Option, OnOk, IfErr, length, slice_index};
ghost use Rattle.snap_scan_tokens.specs.Causes.{IsExplained};
ghost use Rattle.snap_scan_tokens.specs.Folding.{no_gap, gap_of};
ghost use Rattle.snap_scan_tokens.specs.Pieces.{before, EndsIn};
ghost use Rattle.snap_scan_tokens.specs.Place.{Travels};
ghost use Rattle.snap_scan_tokens.specs.Plain.{is_outside, ends_plain, is_bad_tab, plain, plain_from, ReadsPlain};

use crate::characters::{Kind, is_blank, is_blank_or_end, is_break, is_flow_sign};
use crate::cursor::Cursor;
use crate::folding::{Gap, Gathered};
use crate::info::{ScanError, ScanInfo};
use snap_content::Lent;
use std::alloc::Global;

/// A plain scalar, and whether a line ended after it.
#[derive(Debug, Drop)]
pub struct PlainScalar<'a> {
    pub text: Lent<'a>,
    pub is_broken: bool,
}

/// Whether a column isn't right of the innermost block.
fn is_outside(indent: Option<usize>, col: usize) -> bool
    ensures { result ≡ is_outside indent col }
{
    match indent {
        None => false,
        Some(column) => col <= column,
    }
}

/// Whether a tab stands here where an indentation is expected.
fn is_bad_tab(cursor: &Cursor, indent: Option<usize>, gap: &Gap) -> bool
    ensures { result ≡ is_bad_tab indent gap.now (slice_index cursor.now.left 0) cursor.now.col }
{
    gap.fold.is_folded() && cursor.ch() == '\t' && is_outside(indent, cursor.mark().col())
}

/// Whether a plain scalar ends before what stands here, which is no white space.
fn ends_plain(
    cursor: &Cursor,
    indent: Option<usize>,
    in_flow: bool,
    text: &Gathered,
    gap: &Gap,
) -> bool
    requires { EndsIn text.now.behind cursor.now.left }
    ensures { result ≡ ends_plain indent in_flow
        (gap_of gap.now (before text.now.behind cursor.now.left)) cursor.now }
{
    let c = cursor.ch();
    if c == '\0' {
        return true;
    }
    if c == ':' && (is_blank_or_end(cursor.peek(1)) || (in_flow && is_flow_sign(cursor.peek(1)))) {
        return true;
    }
    if in_flow && is_flow_sign(c) {
        return true;
    }
    let is_folded = gap.fold.is_folded();
    if c == '#' && (is_folded || text.is_apart(cursor.rest())) {
        return true;
    }
    is_folded
        && (cursor.is_document_indicator() || (!in_flow && is_outside(indent, cursor.mark().col())))
}

/// Takes the first character of a plain scalar. A blank there is a part of the text if a character follows on its line.
fn begin<'a>(cursor: &mut Cursor<'a>) -> Gathered<'a>
    requires { slice_index cursor.old.left 0 ≢ 0 }
    ensures value { (indent : Option ℕ) (flow : Bool)
        → plain indent flow (gap_of no_gap
        (before result.behind cursor.new.left)) result.text cursor.new.left cursor.new
        ≡ plain_from indent flow cursor.old }
    ensures behind { EndsIn result.behind cursor.new.left }
    ensures travels { Travels cursor.old cursor.new }
    ensures falls { length cursor.new.left + 1 ≤ length cursor.old.left }
{
    let mut text = Gathered::new(cursor.rest());
    if is_blank(cursor.ch()) {
        cursor.skip();
        return text;
    }
    cursor.skip();
    text.extend(cursor.rest());
    text
}

/// Reads a plain scalar, which the first character here belongs to, whatever it is.
pub fn scan_plain_scalar<'a>(
    alloc: Global,
    cursor: &mut Cursor<'a>,
    indent: Option<usize>,
    in_flow: bool,
) -> Result<PlainScalar<'a>, ScanError>
    requires { slice_index cursor.old.left 0 ≢ 0 }
    ensures value { ReadsPlain (plain_from indent in_flow cursor.old) result cursor.new }
    ensures travels { Travels cursor.old cursor.new }
    ensures falls { OnOk result (length cursor.new.left + 1 ≤ length cursor.old.left) }
    ensures cause { IfErr result (λ e. IsExplained cursor.old e) }
{
    let mark = cursor.mark();
    let mut text = begin(cursor);
    let mut gap = Gap::none();
    'characters: loop {
        let c = cursor.ch();
        if is_blank(c) {
            if is_bad_tab(cursor, indent, &gap) {
                return Err(ScanError::Syntax(mark, ScanInfo::S34));
            }
            cursor.skip();
        } else if is_break(c) {
            gap.add_break(alloc)?;
            cursor.skip_break();
        } else if ends_plain(cursor, indent, in_flow, &text, &gap) {
            let is_broken = gap.fold.is_folded();
            let text = text.finish(alloc)?;
            return Ok(PlainScalar { text, is_broken });
        } else {
            text.join(alloc, &gap, cursor.rest())?;
            gap = Gap::none();
            cursor.skip();
            cursor.skip_while(Kind::Word);
            text.extend(cursor.rest());
        }
    }
}
