//! Scalars in quotes.
ghost use Rattle.std.specs.Prelude.{◌≡◌, ◌≢◌, ◌+◌, ◌≤◌, [], ◌∷◌, ◌++◌, false, codes, OnOk, IfOk, IfErr, length, slice_index};
ghost use Rattle.snap_scan_tokens.specs.Causes.{IsExplained, IsRefusedBy, IsFault};
ghost use Rattle.snap_scan_tokens.specs.Characters.{is_of, is_document_indicator};
ghost use Rattle.snap_scan_tokens.specs.Folding.{no_gap, gap_of, joined};
ghost use Rattle.snap_scan_tokens.specs.Pieces.{before, EndsIn};
ghost use Rattle.snap_scan_tokens.specs.Place.{Travels, skipped, skipped_while};
ghost use Rattle.snap_scan_tokens.specs.Quoted.{sign_of, style_of, ends_quoted, escape_fault, quoted_from, quoted_at, single_at, double_at, IsInside, ReadsQuoted, Continues};
ghost use Rattle.snap_scan_tokens.specs.declared.quoted.Quotes.TheVariants as quote;

use crate::characters::{Kind, is_blank, is_break};
use crate::cursor::Cursor;
use crate::escapes::scan_escape;
use crate::folding::{Gap, Gathered};
use crate::info::{ScanError, ScanInfo};
use crate::marker::Marker;
use crate::token::TScalarStyle;
use snap_content::{Lent, OutOfMemory};
use std::alloc::Global;

/// The quotes that a scalar stands in.
#[derive(Clone, Copy, Debug, PartialEq, Eq)]
pub enum Quotes {
    Single,
    Double,
}

impl Quotes {
    /// The style of a scalar in such quotes.
    pub fn style(self) -> TScalarStyle
        ensures { result ≡ style_of self }
    {
        match self {
            Quotes::Single => TScalarStyle::SingleQuoted,
            Quotes::Double => TScalarStyle::DoubleQuoted,
        }
    }

    /// Whether the scalar ends here. In single quotes two of them are a character.
    fn end_here(self, cursor: &Cursor) -> bool
        ensures { result ≡ ends_quoted self cursor.now.left }
    {
        match self {
            Quotes::Single => cursor.ch() == '\'' && cursor.peek(1) != '\'',
            Quotes::Double => cursor.ch() == '"',
        }
    }
}

/// Takes a character that stands for itself, and those of a kind after it.
pub(crate) fn take_word<'a>(
    alloc: Global,
    cursor: &mut Cursor<'a>,
    text: &mut Gathered<'a>,
    gap: &mut Gap,
    kind: Kind,
) -> Result<(), OutOfMemory>
    requires { EndsIn text.old.behind cursor.old.left }
    ensures text { OnOk result (text.new
        ≡ record {
          text = (text.old.text
              ++ joined (gap_of gap.old (before text.old.behind cursor.old.left)))
              ++ before cursor.old.left cursor.new.left;
          behind = cursor.new.left;
        }) }
    ensures gap { OnOk result (gap.new ≡ no_gap) }
    ensures place { OnOk result (cursor.new ≡ skipped_while (is_of kind) (skipped cursor.old)) }
    ensures travels { Travels cursor.old cursor.new }
    ensures falls { OnOk result (slice_index cursor.old.left 0 ≢ 0
        → length cursor.new.left + 1 ≤ length cursor.old.left) }
{
    text.join(alloc, gap, cursor.rest())?;
    *gap = Gap::none();
    cursor.skip();
    cursor.skip_while(kind);
    text.extend(cursor.rest());
    Ok(())
}

/// Takes two single quotes, which stand for one.
fn take_doubled<'a>(
    alloc: Global,
    cursor: &mut Cursor<'a>,
    text: &mut Gathered<'a>,
    gap: &mut Gap,
) -> Result<(), OutOfMemory>
    requires { EndsIn text.old.behind cursor.old.left }
    ensures text { OnOk result (text.new
        ≡ record {
          text = (text.old.text
              ++ joined (gap_of gap.old (before text.old.behind cursor.old.left)))
              ++ 39 ∷ [];
          behind = cursor.new.left;
        }) }
    ensures gap { OnOk result (gap.new ≡ no_gap) }
    ensures place { OnOk result (cursor.new ≡ skipped (skipped cursor.old)) }
    ensures travels { Travels cursor.old cursor.new }
    ensures falls { OnOk result (slice_index cursor.old.left 0 ≢ 0
        → length cursor.new.left + 1 ≤ length cursor.old.left) }
{
    text.join(alloc, gap, cursor.rest())?;
    *gap = Gap::none();
    cursor.skip();
    cursor.skip();
    text.push(alloc, '\'', cursor.rest())?;
    Ok(())
}

/// Takes a backslash, and what it stands for with the characters after it.
fn take_escape<'a>(
    alloc: Global,
    cursor: &mut Cursor<'a>,
    text: &mut Gathered<'a>,
    gap: &mut Gap,
    mark: Marker,
) -> Result<(), ScanError>
    requires behind { EndsIn text.old.behind cursor.old.left }
    requires sign { slice_index cursor.old.left 0 ≡ 92 }
    requires place { is_document_indicator cursor.old ≡ false }
    ensures value { Continues (double_at text.old gap.old cursor.old)
        (double_at text.new gap.new cursor.new) result }
    ensures behind { OnOk result (EndsIn text.new.behind cursor.new.left) }
    ensures travels { Travels cursor.old cursor.new }
    ensures falls { OnOk result (length cursor.new.left + 1 ≤ length cursor.old.left) }
    ensures cause { IfErr result (λ e. IsRefusedBy (codes "\"") mark e) }
    ensures info { IfErr result (IsFault (escape_fault (skipped cursor.old))) }
{
    text.join(alloc, gap, cursor.rest())?;
    cursor.skip();
    match scan_escape(cursor) {
        Err(info) => Err(ScanError::Syntax(mark, info)),
        Ok(Some(character)) => {
            *gap = Gap::none();
            text.push(alloc, character, cursor.rest())?;
            Ok(())
        }
        Ok(None) => {
            *gap = Gap::escaped();
            text.pass(alloc, cursor.rest())?;
            Ok(())
        }
    }
}

/// Takes the closing quote.
fn close<'a>(
    alloc: Global,
    cursor: &mut Cursor<'a>,
    mut text: Gathered<'a>,
    gap: &Gap,
) -> Result<Lent<'a>, OutOfMemory>
    requires { EndsIn text.behind cursor.old.left }
    ensures text { IfOk result (λ all. all
        ≡ text.entry.text ++ joined (gap_of gap.now (before text.entry.behind cursor.old.left))) }
    ensures place { OnOk result (cursor.new ≡ skipped cursor.old) }
    ensures travels { Travels cursor.old cursor.new }
{
    text.join(alloc, gap, cursor.rest())?;
    cursor.skip();
    text.finish(alloc)
}

/// Takes what stands in single quotes where they don't end: two of them, or characters that stand for themselves.
fn take_in_single<'a>(
    alloc: Global,
    cursor: &mut Cursor<'a>,
    text: &mut Gathered<'a>,
    gap: &mut Gap,
) -> Result<(), OutOfMemory>
    requires behind { EndsIn text.old.behind cursor.old.left }
    requires inside { IsInside quote.Single cursor.old }
    ensures value { OnOk result (single_at text.new gap.new cursor.new
        ≡ single_at text.old gap.old cursor.old) }
    ensures behind { OnOk result (EndsIn text.new.behind cursor.new.left) }
    ensures travels { Travels cursor.old cursor.new }
    ensures falls { OnOk result (length cursor.new.left + 1 ≤ length cursor.old.left) }
{
    if cursor.ch() == '\'' {
        take_doubled(alloc, cursor, text, gap)?;
        return Ok(());
    }
    take_word(alloc, cursor, text, gap, Kind::SingleQuoted)?;
    Ok(())
}

/// Takes what stands in double quotes where they don't end: what a backslash begins, or characters that stand for themselves.
fn take_in_double<'a>(
    alloc: Global,
    cursor: &mut Cursor<'a>,
    text: &mut Gathered<'a>,
    gap: &mut Gap,
    mark: Marker,
) -> Result<(), ScanError>
    requires behind { EndsIn text.old.behind cursor.old.left }
    requires inside { IsInside quote.Double cursor.old }
    ensures value { Continues (double_at text.old gap.old cursor.old)
        (double_at text.new gap.new cursor.new) result }
    ensures behind { OnOk result (EndsIn text.new.behind cursor.new.left) }
    ensures travels { Travels cursor.old cursor.new }
    ensures falls { OnOk result (length cursor.new.left + 1 ≤ length cursor.old.left) }
    ensures cause { IfErr result (λ e. IsRefusedBy (codes "\"") mark e) }
{
    if cursor.ch() == '\\' {
        return take_escape(alloc, cursor, text, gap, mark);
    }
    take_word(alloc, cursor, text, gap, Kind::DoubleQuoted)?;
    Ok(())
}

/// Takes what stands in quotes where they don't end and no white space stands.
fn take_inside<'a>(
    alloc: Global,
    cursor: &mut Cursor<'a>,
    text: &mut Gathered<'a>,
    gap: &mut Gap,
    quotes: Quotes,
    mark: Marker,
) -> Result<(), ScanError>
    requires behind { EndsIn text.old.behind cursor.old.left }
    requires inside { IsInside quotes cursor.old }
    ensures value { Continues (quoted_at quotes text.old gap.old cursor.old)
        (quoted_at quotes text.new gap.new cursor.new) result }
    ensures behind { OnOk result (EndsIn text.new.behind cursor.new.left) }
    ensures travels { Travels cursor.old cursor.new }
    ensures falls { OnOk result (length cursor.new.left + 1 ≤ length cursor.old.left) }
    ensures cause { IfErr result (λ e. IsRefusedBy (sign_of quotes ∷ []) mark e) }
{
    match quotes {
        Quotes::Single => {
            take_in_single(alloc, cursor, text, gap)?;
            Ok(())
        }
        Quotes::Double => take_in_double(alloc, cursor, text, gap, mark),
    }
}

/// Reads a scalar in quotes.
pub fn scan_quoted<'a>(
    alloc: Global,
    cursor: &mut Cursor<'a>,
    quotes: Quotes,
) -> Result<Lent<'a>, ScanError>
    requires { slice_index cursor.old.left 0 ≡ sign_of quotes }
    ensures value { ReadsQuoted (quoted_from quotes cursor.old) result cursor.new }
    ensures travels { Travels cursor.old cursor.new }
    ensures falls { OnOk result (length cursor.new.left + 1 ≤ length cursor.old.left) }
    ensures cause { IfErr result (λ e. IsExplained cursor.old e) }
{
    let mark = cursor.mark();
    cursor.skip();
    let mut text = Gathered::new(cursor.rest());
    let mut gap = Gap::none();
    'characters: loop {
        let c = cursor.ch();
        if is_blank(c) {
            cursor.skip();
        } else if is_break(c) {
            gap.add_break(alloc)?;
            cursor.skip_break();
        } else if cursor.is_document_indicator() {
            return Err(ScanError::Syntax(mark, ScanInfo::S29));
        } else if c == '\0' {
            return Err(ScanError::Syntax(mark, ScanInfo::S30));
        } else if quotes.end_here(cursor) {
            let text = close(alloc, cursor, text, &gap)?;
            return Ok(text);
        } else {
            take_inside(alloc, cursor, &mut text, &mut gap, quotes, mark)?;
        }
    }
}
