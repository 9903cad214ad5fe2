//! How a snapshot file falls into its header and its body.
ghost use Rattle.std.specs.Prelude.{◌≡◌, ℕ, List, [], ◌∷◌, ◌++◌, false, IfOk, MatchOption, OnOk};
ghost use Rattle.std.specs.List.{concat};
ghost use Rattle.std.specs.Str.{chars};
ghost use Rattle.snap_str.specs.Lines.{ended_lines};
ghost use Rattle.snap_store.specs.FileSplit.{line_of, lines_text, up_to_fence, past_fence, is_headed, FallsInto, file_text};
ghost use Rattle.snap_store.specs.Split.{IsSplit};
ghost use Rattle.snap_content.specs.Plain.{Plain};
ghost use Rattle.snap_print.specs.Blocks.{Blocks};
ghost use Rattle.snap_print.specs.Lines.{lines_of, text_of, document_of};
ghost use Rattle.snap_print.specs.Printed.{AreRows};

use snap_content::characters::split_last;
use snap_content::{OutOfMemory, Text};
use snap_str::lines::next_ended_line;
use snap_text::normal::is_fence;
use std::alloc::Global;

/// A headed file: its header with the lines' ends, and its body.
#[derive(Debug, Drop)]
pub struct Headed {
    pub header: Text,
    pub body: Text,
}

/// What stands before the character, where the text ends with it.
fn before_character(text: &str, character: char) -> Option<&str>
    ensures { MatchOption result ((cs : List ℕ) → chars text.now ≡ cs ++ character ∷ [] → ⊥)
        (λ front. chars text.now ≡ chars front.now ++ character ∷ []) }
{
    match split_last(text) {
        Some((front, last)) if last == character => Some(front),
        _ => None,
    }
}

/// The line without its end.
pub(crate) fn line_text(piece: &str) -> &str
    ensures { chars result.now ≡ line_of (chars piece.now) }
{
    let Some(line) = before_character(piece, '\n') else {
        return piece;
    };
    match before_character(line, '\r') {
        None => line,
        Some(shorter) => shorter,
    }
}

/// Adds the lines up to the next fence, with their ends.
fn push_header(alloc: Global, header: &mut Text, text: &str) -> Result<(), OutOfMemory>
    ensures { OnOk result (header.new ≡ header.old
        ++ concat (up_to_fence (ended_lines (chars text.now)))) }
{
    let mut rest = text;
    while let Some((piece, more)) = next_ended_line(rest) {
        if is_fence(piece) {
            return Ok(());
        }
        header.push_str(alloc, piece)?;
        rest = more;
    }
    Ok(())
}

/// What stands after the next fence.
fn behind_fence(text: &str) -> &str
    ensures { ended_lines (chars result.now) ≡ past_fence (ended_lines (chars text.now)) }
{
    let mut rest = text;
    while let Some((piece, more)) = next_ended_line(rest) {
        rest = more;
        if is_fence(piece) {
            return rest;
        }
    }
    rest
}

/// The lines of the text, joined.
pub(crate) fn body_text(alloc: Global, text: &str) -> Result<Text, OutOfMemory>
    ensures { IfOk result (λ body. body ≡ lines_text (ended_lines (chars text.now))) }
{
    let mut body = Text::empty();
    let Some((first, others)) = next_ended_line(text) else {
        return Ok(body);
    };
    body.push_str(alloc, line_text(first))?;
    let mut rest = others;
    while let Some((piece, more)) = next_ended_line(rest) {
        body.push(alloc, '\n')?;
        body.push_str(alloc, line_text(piece))?;
        rest = more;
    }
    Ok(body)
}

/// The header and the body; none where the first line is no `---`. The one error is that memory is out.
pub fn split_file(alloc: Global, text: &str) -> Result<Option<Headed>, OutOfMemory>
    ensures { IfOk result (λ found. MatchOption found (is_headed (chars text.now) ≡ false)
        (λ headed. IsSplit headed (chars text.now))) }
{
    let Some((first, rest)) = next_ended_line(text) else {
        return Ok(None);
    };
    if !is_fence(first) {
        return Ok(None);
    }
    let mut header = Text::from_str(alloc, first)?;
    push_header(alloc, &mut header, rest)?;
    let body = body_text(alloc, behind_fence(rest))?;
    Ok(Some(Headed { header, body }))
}

/// A file of a printed header and a printed body falls into both again, whichever of them has literal blocks.
pub const fn printed_files_split()
    ensures { (v w : Blocks) (header body : Plain) → AreRows (lines_of v header)
        → AreRows (lines_of w body)
        → FallsInto (file_text v header w body) (document_of v header) (text_of w body) }
{}
