//! What the program says of itself.
ghost use Rattle.std.specs.Prelude.{◌≡◌};
ghost use Rattle.snap_io.specs.Causes.{CountedIf};
ghost use Rattle.snap_front.specs.Program.{IsTold, says_write_fault};

use crate::status::FrontStatus;
use snap_io::Sink;
use snap_io_streams::streams::write_all;

/// The answer to `--version`.
pub const VERSION: &str = "snap-front 0.1.0\n";

/// The answer to `--help`.
pub const USAGE: &str = "\
Reads and changes the YAML header of a page, and keeps its body as it is.

Usage: snap-front get PATH < PAGE
       snap-front set PATH VALUE < PAGE
       snap-front remove PATH < PAGE
       snap-front format < PAGE
       snap-front --help | --version

PAGE begins with a line ---; the header ends before the next such line.
PATH is .key, [\"key\"] or [index] for each step, as .tags[0], or . for all.
VALUE is YAML, as 5, text, \"a: b\" or [1, 2].
  get     writes the value at PATH
  set     writes the page with VALUE there; a last step may be new
  remove  writes the page without it
  format  writes the page with its header printed anew
Comments and layout of the header are not kept. A header with a number that is
no whole number is refused.

Exit status:
  0  done
  1  wrong words, no page, or the header has no such place
  2  the page could not be read
  3  the answer could not be written
  4  the page is longer than 67,108,864 bytes
  5  out of memory
With 1, 2, 4 and 5 nothing was written.
";

/// Writes the text, and nothing else.
pub fn tell<K: Sink>(text: &str, sink: &mut K) -> FrontStatus
    ensures told { IsTold text.now result (K.written sink.old) (K.written sink.new) }
    ensures cause { CountedIf (says_write_fault result) (K.faults sink.old) (K.faults sink.new) }
{
    match write_all(sink, text.as_bytes()) {
        Ok(()) => FrontStatus::Done,
        Err(_) => FrontStatus::WriteFault,
    }
}
