//! Paths, a line each.
ghost use Rattle.std.specs.Prelude.{◌≡◌, ◌++◌, IfOk, OnOk};
ghost use Rattle.std.specs.Cmp.Lexicographic.{slice_cmp};
ghost use Rattle.std.specs.List.{flat_map, list_any};
ghost use Rattle.std.specs.List.Sorted.{IsStrictlySortedBy};
ghost use Rattle.std.specs.Ordering.{nat_cmp};
ghost use Rattle.std.specs.Str.{chars};
ghost use Rattle.snap_explain_unused.specs.Lines.{is_break, is_mark, line_of, marked};

use snap_content::characters::split_first;
use snap_content::{OutOfMemory, Text};
use std::alloc::Global;
use std::collections::BTreeSet;

/// Whether `xargs` takes the character for more than itself.
fn is_mark(c: char) -> bool
    ensures { result ≡ is_mark c }
{
    c == ' '
        || c == '\t'
        || c == '\u{b}'
        || c == '\u{c}'
        || c == '\r'
        || c == '"'
        || c == '\''
        || c == '\\'
}

fn holds_break(path: &str) -> bool
    ensures { result ≡ list_any is_break (chars path.now) }
{
    path.chars().any(|c| c == '\n')
}

/// Adds the path, with a backslash before each such character.
fn push_marked(out: &mut Text, alloc: Global, path: &str) -> Result<(), OutOfMemory>
    ensures { OnOk result (out.new ≡ out.old ++ flat_map marked (chars path.now)) }
{
    let mut rest = path;
    while let Some((c, next)) = split_first(rest) {
        if is_mark(c) {
            out.push(alloc, '\\')?;
        }
        out.push(alloc, c)?;
        rest = next;
    }
    Ok(())
}

/// Adds the line of the path.
fn push_line(out: &mut Text, alloc: Global, path: &Text) -> Result<(), OutOfMemory>
    ensures { OnOk result (out.new ≡ out.old ++ line_of path.now) }
{
    let path = path.as_str();
    if holds_break(path) {
        return Ok(());
    }
    push_marked(out, alloc, path)?;
    out.push(alloc, '\n')?;
    Ok(())
}

/// The lines of the paths, in the order of their bytes.
pub(crate) fn lines_of(alloc: Global, paths: &BTreeSet<Text>) -> Result<Text, OutOfMemory>
    ensures lines { IfOk result (λ text. text ≡ flat_map line_of paths.now.keys) }
    ensures ascending { IsStrictlySortedBy (slice_cmp nat_cmp) paths.now.keys }
{
    let mut out = Text::empty();
    for path in paths.iter() {
        push_line(&mut out, alloc, path)?;
    }
    Ok(out)
}
