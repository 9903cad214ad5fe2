//! What the program says of itself.
ghost use Rattle.std.specs.Prelude.{◌≡◌};
ghost use Rattle.snap_io.specs.Causes.{CountedIf};
ghost use Rattle.snap_mask.specs.Masked.{says_write_fault};
ghost use Rattle.snap_mask.specs.Program.{IsTold};

use crate::status::MaskStatus;
use snap_io::Sink;
use snap_io_streams::streams::write_all;

/// The answer to `--version`.
pub const VERSION: &str = "snap-mask 0.1.0\n";

/// The answer to `--help`.
pub const USAGE: &str = "\
Masks places in JSON lines.

Usage: snap-mask [RULE...] < LINES
       snap-mask --help | --version

RULE, any number of them, one after the other:
  --put SELECTOR TEXT   puts TEXT in place of what SELECTOR reaches
  --sort SELECTOR       puts the list that SELECTOR reaches in order
SELECTOR is as .user.email, .users[0].name, .users[].mail, .**.token, several
with commas between them.
LINES are JSON texts without fractions, one on each line; empty lines are left
out. Each is written as soon as it is read. The first line that is refused ends
the run, and nothing of it is written.

Exit status:
  0   done
  2   wrong words, or a selector that cannot be read
  3   a line is no JSON
  4   a line holds a number that is no whole number of 128 bits
  5   a line is longer than 1,048,576 bytes
  6   the lines could not be read
  7   the answers could not be written
  8   out of memory
  9   a line has a key that JSON has no text for
  10  the input is longer than 1,099,511,627,776 bytes
";

/// Writes the text, and nothing else.
pub fn tell<K: Sink>(text: &str, sink: &mut K) -> MaskStatus
    ensures told { IsTold text.now result (K.written sink.old) (K.written sink.new) }
    ensures cause { CountedIf (says_write_fault result) (K.faults sink.old) (K.faults sink.new) }
{
    match write_all(sink, text.as_bytes()) {
        Ok(()) => MaskStatus::Done,
        Err(_) => MaskStatus::WriteFault,
    }
}
