//! The literal of a normal form. The one error is out of memory.
ghost use Rattle.std.specs.Prelude.{◌≡◌, ◌++◌, ◌<◌, ◌∷◌, IfOk, OnOk};
ghost use Rattle.std.specs.Char.{digit_char};
ghost use Rattle.std.specs.List.{flat_map};
ghost use Rattle.std.specs.Str.{chars};
ghost use Rattle.snap_text_literals.specs.Hashes.{hashes};
ghost use Rattle.snap_text_literals.specs.Spelled.{digits, escaped_char, framed_line, shown, escaped_form, raw_form, plain_form, spelled};

use crate::hashes::required_hashes;
use crate::holds::{holds_hidden, holds_line_end, holds_marked, is_control};
use crate::lines::split_line;
use snap_content::characters::split_first;
use snap_content::{OutOfMemory, Text};
use std::alloc::Global;

/// A digit in base 16.
fn digit(value: u32) -> char
    requires { value < 16 }
    ensures { result ≡ digit_char value }
{
    char::from_digit(value, 16).unwrap()
}

/// Adds the digits of a number below 256.
fn push_digits(alloc: Global, made: &mut Text, code: u32) -> Result<(), OutOfMemory>
    requires { code < 256 }
    ensures { OnOk result (made.new ≡ made.old ++ digits code) }
{
    if code < 16 {
        return made.push(alloc, digit(code));
    }
    made.push(alloc, digit(code / 16))?;
    made.push(alloc, digit(code % 16))
}

/// Adds a character as it stands between the quotes of an escaped literal.
fn push_escaped(alloc: Global, made: &mut Text, c: char) -> Result<(), OutOfMemory>
    ensures { OnOk result (made.new ≡ made.old ++ escaped_char c) }
{
    if c == '\0' {
        return made.push_ascii(alloc, "\\0");
    }
    if c == '\t' {
        return made.push_ascii(alloc, "\\t");
    }
    if c == '\n' {
        return made.push_ascii(alloc, "\\n");
    }
    if c == '\r' {
        return made.push_ascii(alloc, "\\r");
    }
    if c == '"' {
        return made.push_ascii(alloc, "\\\"");
    }
    if c == '\\' {
        return made.push_ascii(alloc, "\\\\");
    }
    let code = c as u32;
    if is_control(c) && code < 256 {
        made.push_ascii(alloc, "\\u{")?;
        push_digits(alloc, made, code)?;
        return made.push_ascii(alloc, "}");
    }
    made.push(alloc, c)
}

fn spell_escaped(alloc: Global, text: &str) -> Result<Text, OutOfMemory>
    ensures { IfOk result (λ made. made ≡ escaped_form (chars text.now)) }
{
    let mut made = Text::from_ascii(alloc, "\"")?;
    let mut rest = text;
    while let Some((c, more)) = split_first(rest) {
        push_escaped(alloc, &mut made, c)?;
        rest = more;
    }
    made.push_ascii(alloc, "\"")?;
    Ok(made)
}

/// Adds a line of a frame.
fn push_line(
    alloc: Global,
    made: &mut Text,
    line: &str,
    indentation: &str,
) -> Result<(), OutOfMemory>
    ensures { OnOk result (made.new ≡ made.old
        ++ framed_line (chars indentation.now) (chars line.now)) }
{
    made.push_ascii(alloc, "\n")?;
    match split_first(line) {
        None => Ok(()),
        Some(_) => {
            made.push_str(alloc, indentation)?;
            made.push_str(alloc, line)
        }
    }
}

/// Adds what stands between the quotes.
fn push_shown(
    alloc: Global,
    made: &mut Text,
    text: &str,
    indentation: &str,
) -> Result<(), OutOfMemory>
    ensures { OnOk result (made.new ≡ made.old ++ shown (chars indentation.now) (chars text.now)) }
{
    if !holds_line_end(text) {
        return made.push_str(alloc, text);
    }
    let mut rest = text;
    while let Some((line, more)) = split_line(rest) {
        push_line(alloc, made, line, indentation)?;
        rest = more;
    }
    push_line(alloc, made, rest, indentation)?;
    made.push_ascii(alloc, "\n")?;
    made.push_str(alloc, indentation)
}

/// Adds so many `#`.
fn push_hashes(alloc: Global, made: &mut Text, count: usize) -> Result<(), OutOfMemory>
    ensures { OnOk result (made.new ≡ made.old ++ hashes count) }
{
    let mut left = count;
    while left > 0 {
        made.push_ascii(alloc, "#")?;
        left -= 1;
    }
    Ok(())
}

fn spell_raw(alloc: Global, text: &str, indentation: &str) -> Result<Text, OutOfMemory>
    ensures { IfOk result (λ made. made ≡ raw_form (chars indentation.now) (chars text.now)) }
{
    let count = required_hashes(text);
    let mut made = Text::from_ascii(alloc, "r")?;
    push_hashes(alloc, &mut made, count)?;
    made.push_ascii(alloc, "\"")?;
    push_shown(alloc, &mut made, text, indentation)?;
    made.push_ascii(alloc, "\"")?;
    push_hashes(alloc, &mut made, count)?;
    Ok(made)
}

fn spell_plain(alloc: Global, text: &str, indentation: &str) -> Result<Text, OutOfMemory>
    ensures { IfOk result (λ made. made ≡ plain_form (chars indentation.now) (chars text.now)) }
{
    let mut made = Text::from_ascii(alloc, "\"")?;
    push_shown(alloc, &mut made, text, indentation)?;
    made.push_ascii(alloc, "\"")?;
    Ok(made)
}

/// The literal of a normal form: escaped where it holds a control character other than a line end, a tab and an escape,
/// raw where it holds a quote or a backslash, else plain.
pub fn spell(alloc: Global, text: &str, indentation: &str) -> Result<Text, OutOfMemory>
    ensures { IfOk result (λ made. made ≡ spelled (chars indentation.now) (chars text.now)) }
{
    if holds_hidden(text) {
        return spell_escaped(alloc, text);
    }
    if holds_marked(text) {
        return spell_raw(alloc, text, indentation);
    }
    spell_plain(alloc, text, indentation)
}
