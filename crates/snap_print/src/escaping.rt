//! How characters stand between double quotes: most as they are, in runs.
ghost use Rattle.std.specs.Prelude.{◌≡◌, ◌++◌, OnOk, OnErr, false, ◌<◌};
ghost use Rattle.std.specs.Fmt.{digit_glyph};
ghost use Rattle.std.specs.List.{list_any};
ghost use Rattle.std.specs.Str.{chars};
ghost use Rattle.snap_print.specs.Bare.{is_escaped, IsBareBefore};
ghost use Rattle.snap_print.specs.Begun.{IsBegun};
ghost use Rattle.snap_print.specs.Spell.{escaped, escaped_code};

use snap_content::characters::{before_rest, split_first};
use snap_content::{OutOfMemory, Text};
use std::alloc::Global;

/// A hexadecimal digit.
fn hexadecimal_digit(value: u32) -> char
    requires { value < 16 }
    ensures { result ≡ digit_glyph false value }
{
    char::from_digit(value, 16).unwrap()
}

/// Adds the code of a character below 128.
fn push_code(out: &mut Text, alloc: Global, c: char) -> Result<(), OutOfMemory>
    requires { c < 128 }
    ensures ok { OnOk result (out.new ≡ out.old ++ escaped_code c) }
    ensures err { OnErr result (IsBegun out.old out.new (escaped_code c)) }
{
    let code = c as u32;
    out.push_ascii(alloc, "\\u00")?;
    out.push(alloc, hexadecimal_digit(code / 16))?;
    out.push(alloc, hexadecimal_digit(code % 16))
}

/// Adds a character as it stands between double quotes. When out of memory, a beginning of that was added.
pub fn push_escaped(out: &mut Text, alloc: Global, c: char) -> Result<(), OutOfMemory>
    ensures ok { OnOk result (out.new ≡ out.old ++ escaped c) }
    ensures err { OnErr result (IsBegun out.old out.new (escaped c)) }
{
    match c {
        '"' => out.push_ascii(alloc, "\\\""),
        '\\' => out.push_ascii(alloc, "\\\\"),
        '\u{8}' => out.push_ascii(alloc, "\\b"),
        '\t' => out.push_ascii(alloc, "\\t"),
        '\n' => out.push_ascii(alloc, "\\n"),
        '\u{c}' => out.push_ascii(alloc, "\\f"),
        '\r' => out.push_ascii(alloc, "\\r"),
        '\0'..='\u{1f}' | '\u{7f}' => push_code(out, alloc, c),
        _ => out.push(alloc, c),
    }
}

/// Whether a character stands otherwise between double quotes than by itself.
fn is_escaped(c: char) -> bool
    ensures { result ≡ is_escaped c }
{
    matches!(c, '"' | '\\' | '\0'..='\u{1f}' | '\u{7f}')
}

/// The text from its first character on that stands otherwise between double quotes.
fn after_bare(text: &str) -> &str
    ensures { IsBareBefore (chars text.now) (chars result.now) }
{
    let mut rest = text;
    while let Some((c, next)) = split_first(rest) {
        if is_escaped(c) {
            return rest;
        }
        rest = next;
    }
    rest
}

/// The characters at the front that stand as they are between double quotes, and what follows them.
pub fn bare_run(text: &str) -> (&str, &str)
    ensures whole { chars text.now ≡ chars result.0.now ++ chars result.1.now }
    ensures bare { list_any is_escaped (chars result.0.now) ≡ false }
{
    let rest = after_bare(text);
    (before_rest(text, rest), rest)
}
