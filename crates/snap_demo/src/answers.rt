//! The lines that tell of a demonstration.
ghost use Rattle.std.specs.Prelude.{◌≡◌, IfOk};
ghost use Rattle.snap_demo.specs.Answers.{demo_lines};

use crate::texts::push_number;
use snap_content::{OutOfMemory, Text};
use std::alloc::Global;

/// Three lines: how many requests there were, how many of them passed the second time, and how many bytes their files have.
pub fn demo_lines(alloc: Global, count: u32, passed: u64, bytes: u128) -> Result<Text, OutOfMemory>
    ensures { IfOk result (λ lines. lines ≡ demo_lines count passed bytes) }
{
    let mut lines = Text::from_ascii(alloc, "requests ")?;
    push_number(&mut lines, alloc, u128::from(count))?;
    lines.push_ascii(alloc, "\npassed ")?;
    push_number(&mut lines, alloc, u128::from(passed))?;
    lines.push_ascii(alloc, "\nbytes ")?;
    push_number(&mut lines, alloc, bytes)?;
    lines.push_ascii(alloc, "\n")?;
    Ok(lines)
}
