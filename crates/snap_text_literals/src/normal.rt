//! The normal form of a text.
ghost use Rattle.std.specs.Prelude.{◌≡◌, IfOk};
ghost use Rattle.std.specs.Str.{chars};
ghost use Rattle.snap_text_literals.specs.Normal.{is_fence, normal, trimmed, unreturned};

use crate::holds::is_free_of_returns;
use crate::lines::{split_line, trim_returns};
use snap_content::characters::is_same;
use snap_content::{OutOfMemory, Text};
use std::alloc::Global;

/// The text without the white space at its end.
pub fn trimmed_text(text: &str) -> &str
    ensures { chars result.now ≡ trimmed (chars text.now) }
{
    text.trim_end()
}

/// Whether the line is `---` but for white space at its end.
pub fn is_fence(line: &str) -> bool
    ensures { result ≡ is_fence (chars line.now) }
{
    is_same(trimmed_text(line), "---")
}

/// The text without white space at its end and without the returns in front of a line's end. Few texts hold a return.
/// The one error is out of memory.
pub fn normal_text(alloc: Global, text: &str) -> Result<Text, OutOfMemory>
    ensures { IfOk result (λ made. made ≡ normal (chars text.now)) }
{
    let trimmed = trimmed_text(text);
    if is_free_of_returns(trimmed) {
        Text::from_str(alloc, trimmed)
    } else {
        unreturned_text(alloc, trimmed)
    }
}

/// The text without the returns in front of a line's end.
fn unreturned_text(alloc: Global, text: &str) -> Result<Text, OutOfMemory>
    ensures { IfOk result (λ made. made ≡ unreturned (chars text.now)) }
{
    let mut made = Text::empty();
    let mut rest = text;
    while let Some((line, more)) = split_line(rest) {
        made.push_str(alloc, trim_returns(line))?;
        made.push(alloc, '\n')?;
        rest = more;
    }
    made.push_str(alloc, rest)?;
    Ok(made)
}
