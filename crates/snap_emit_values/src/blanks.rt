//! Line ends, and the blanks of a column.
ghost use Rattle.std.specs.Prelude.{◌≡◌, ◌++◌, ◌≤◌, OnOk, OnErr, IsTrue, length, take};
ghost use Rattle.std.specs.Char.{is_ascii};
ghost use Rattle.std.specs.List.{list_all};
ghost use Rattle.snap_print.specs.Begun.{IsBegun};
ghost use Rattle.snap_emit_values.specs.Columns.{blanks, break_at};

use snap_content::{OutOfMemory, Text};
use std::alloc::Global;

/// The end of a line, and as many blanks as most columns have.
const LINE: &str = "\n                                                                ";

/// The blanks of it.
const BLANKS: &str = "                                                                ";

/// The first characters of an ASCII text.
fn front(text: &str, count: usize) -> &str
    requires ascii { IsTrue (list_all is_ascii text.now) }
    requires within { count ≤ length text.now }
    ensures { result.now ≡ take count text.now }
{
    &text[..count]
}

/// Adds blanks, as many at a time as the constant has.
fn push_blanks(out: &mut Text, alloc: Global, count: usize) -> Result<(), OutOfMemory>
    ensures ok { OnOk result (out.new ≡ out.old ++ blanks count) }
    ensures err { OnErr result (IsBegun out.old out.new (blanks count)) }
{
    let mut done = 0;
    'wide: while count - done > 64 {
        out.push_ascii(alloc, BLANKS)?;
        done += 64;
    }
    out.push_ascii(alloc, front(BLANKS, count - done))
}

/// Ends the line, and begins the next at the column.
pub fn break_line(out: &mut Text, alloc: Global, column: usize) -> Result<(), OutOfMemory>
    ensures ok { OnOk result (out.new ≡ out.old ++ break_at column) }
    ensures err { OnErr result (IsBegun out.old out.new (break_at column)) }
{
    if column <= 64 {
        return push_line(out, alloc, column);
    }
    out.push(alloc, '\n')?;
    push_blanks(out, alloc, column)
}

/// The same for a column that the constant reaches.
fn push_line(out: &mut Text, alloc: Global, column: usize) -> Result<(), OutOfMemory>
    requires { column ≤ 64 }
    ensures ok { OnOk result (out.new ≡ out.old ++ break_at column) }
    ensures err { OnErr result (out.new ≡ out.old) }
{
    out.push_ascii(alloc, front(LINE, column + 1))
}
