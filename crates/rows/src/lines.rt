//! A text as it stands on a line, and back.
ghost use Rattle.std.specs.Prelude.{◌≡◌, ◌++◌, ◌∷◌, ◌<◌, [], IfOk, IfSome, MatchOption, OnOk, length};
ghost use Rattle.std.specs.List.{flat_map};
ghost use Rattle.std.specs.Str.{chars};
ghost use Rattle.rows.specs.Line.{meant, read, shown};

use snap_content::characters::split_first;
use snap_content::{OutOfMemory, Text};
use std::alloc::Global;

/// Adds a character as it stands on a line.
fn add_character(alloc: Global, line: &mut Text, c: char) -> Result<(), OutOfMemory>
    ensures { OnOk result (line.new ≡ line.old ++ shown c) }
{
    match c {
        '\n' => line.push_ascii(alloc, "\\n"),
        '\r' => line.push_ascii(alloc, "\\r"),
        '\t' => line.push_ascii(alloc, "\\t"),
        '\0' => line.push_ascii(alloc, "\\0"),
        '\\' => line.push_ascii(alloc, "\\\\"),
        _ => line.push(alloc, c),
    }
}

/// Adds a text as it stands on a line.
pub fn add_escaped(alloc: Global, line: &mut Text, text: &str) -> Result<(), OutOfMemory>
    ensures { OnOk result (line.new ≡ line.old ++ flat_map shown (chars text.now)) }
{
    let mut rest = text;
    while let Some((c, next)) = split_first(rest) {
        add_character(alloc, line, c)?;
        rest = next;
    }
    Ok(())
}

/// The character that another one stands for after a backslash.
fn unescaped(c: char) -> char
    ensures { result ≡ meant c }
{
    match c {
        'n' => '\n',
        'r' => '\r',
        't' => '\t',
        '0' => '\0',
        _ => c,
    }
}

/// The first character that a line stands for, and the line after it.
fn first_read(line: &str) -> Option<(char, &str)>
    ensures value { MatchOption result (read (chars line.now) ≡ [])
        (λ p. read (chars line.now) ≡ p.0 ∷ read (chars p.1.now)) }
    ensures shorter { IfSome result (λ p. length (chars p.1.now) < length (chars line.now)) }
{
    let (c, rest) = split_first(line)?;
    if c != '\\' {
        return Some((c, rest));
    }
    let (letter, after) = split_first(rest)?;
    Some((unescaped(letter), after))
}

/// The text that stands on a line.
pub fn text_of(alloc: Global, line: &str) -> Result<Text, OutOfMemory>
    ensures { IfOk result (λ text. text ≡ read (chars line.now)) }
{
    let mut text = Text::empty();
    let mut rest = line;
    while let Some((c, next)) = first_read(rest) {
        text.push(alloc, c)?;
        rest = next;
    }
    Ok(text)
}
