//! What the program says of itself.
ghost use Rattle.std.specs.Prelude.{◌≡◌};
ghost use Rattle.snap_io.specs.Causes.{CountedIf};
ghost use Rattle.snap_review.specs.Ends.{says_write_fault};
ghost use Rattle.snap_review.specs.Program.{IsTold};

use crate::status::ReviewStatus;
use snap_io::Sink;
use snap_io_streams::streams::write_all;

/// The answer to `--version`.
pub const VERSION: &str = "snap-review 0.1.0\n";

/// The answer to `--help`.
pub const USAGE: &str = "\
Accepts or rejects what snapshot tests left waiting.

Usage: snap-review accept SOURCE
       snap-review reject SOURCE
       snap-review accept-file PATH
       snap-review reject-file PATH
       snap-review --help | --version

SOURCE is a source file whose literals wait in .NAME.pending-snap beside it.
  accept       puts each new text in place of the first literal behind an @,
               from its line on, and removes the pending file
  reject       removes the pending file
PATH is the path of a snapshot that waits as PATH.new.
  accept-file  saves it at PATH, and removes PATH.new and what goes with it
  reject-file  removes these
Lines are those of SOURCE as it is, so accept before you edit. An @ in a
comment counts.

Each answer is a line: accepted or rejected, and the line of SOURCE, or PATH.

Exit status:
  0   done
  2   wrong words
  3   nothing waits there
  4   what waits cannot be read
  5   a file could not be read, written or removed
  6   SOURCE is missing, or is no text
  7   the answers could not be written
  8   out of memory
  9   a new text is not its own normal form
  10  no literal stands from that line on
  11  a literal is not the one that the test saw
  12  two records ask for one literal
With 2, 3, 4, 6 and 9 to 12 no file has changed.
";

/// Writes the text, and nothing else.
pub fn tell<K: Sink>(text: &str, sink: &mut K) -> ReviewStatus
    ensures told { IsTold text.now result (K.written sink.old) (K.written sink.new) }
    ensures cause { CountedIf (says_write_fault result) (K.faults sink.old) (K.faults sink.new) }
{
    match write_all(sink, text.as_bytes()) {
        Ok(()) => ReviewStatus::Done,
        Err(_) => ReviewStatus::WriteFault,
    }
}
