//! What the program says of itself.
ghost use Rattle.std.specs.Prelude.{◌≡◌};
ghost use Rattle.snap_io.specs.Causes.{CountedIf};
ghost use Rattle.snap_explain.specs.Findings.{says_write_fault};
ghost use Rattle.snap_explain.specs.Program.{IsTold};

use crate::status::ExplainStatus;
use snap_io::Sink;
use snap_io_streams::streams::write_all;

/// The answer to `--version`.
pub const VERSION: &str = "snap-explain 0.1.0\n";

/// The answer to `--help`.
pub const USAGE: &str = "\
Says why input is refused, or would not pass. Nothing is changed.

Usage: snap-explain stream WORKSPACE [--json] [--literal] < REQUESTS
       snap-explain unused WORKSPACE < REQUESTS
       snap-explain review WORD PATH
       snap-explain mask [RULE...] < LINES
       snap-explain front COMMAND... < PAGE
       snap-explain --help | --version

stream says of each document of REQUESTS that is no request for snap run why
that is so, and of each request that would not pass in a run below WORKSPACE
why that is so: what is wrong with the file of its snapshot, or that it would
end the run. Files are read, and none is changed. --literal is that of snap run.
With --json each finding is a JSON object on a line, with a fixed word as its
cause; the man page and docs/FORMAT.md list them.

unused names each file that ends with .snap or .snap.new, in the folders of the
snapshots that REQUESTS ask for, whose snapshot none of them asks for. Each path
is a line, as xargs reads it: a backslash stands before a blank, a quote and a
backslash. A path with an end of line in it is not named. Where a document is no
request, or would end a run, nothing is named. The streams of a suite in shards,
one after the other, are one stream.

review says why snap-review WORD PATH would be refused, where it would be. WORD
is accept, reject, accept-file or reject-file, and PATH that of a source or of a
snapshot, as for snap-review.

mask says of each line of LINES that snap-mask refuses by these rules why that
is so. The rules are those of snap-mask --help.

front says why snap-front COMMAND... has no answer of PAGE, where it has none.
The commands are those of snap-front --help. The page is not written.

Each finding is a line, as
  document 3, line 41, column 1: an unknown key, exprs; the nearest is expr
  document 4, line 52: no snapshot is there: snapshots/parser__sum.snap
  document 5, line 60: the snapshot differs: snapshots/a.snap in line 2 of its body
  src/a.rs, line 3: the literal is not the one that the record saw
  line 12: a number with a fraction at .price
  line 14, column 7: while parsing a quoted scalar, found unknown escape character
  snap-front: a header is a map, line 2, column 1, and a list stands there
What comes after it is read as well. Lines and columns are counted from 1 in
the whole input, columns in characters. A line of LINES of more than 1,048,576
bytes is the last that is read.

Exit status:
  0   nothing is refused, and all would pass; or no file is unused; or the
      review would be done
  1   something is said, or a file is unused
  2   wrong words, or a selector of a rule that cannot be read
  3   for unused, a document is no request, or would end a run: see stream
  5   a file could not be read
  6   the input could not be read
  7   the findings could not be written
  8   out of memory
  9   REQUESTS or PAGE are longer than 67,108,864 bytes
  10  LINES are longer than 1,099,511,627,776 bytes
";

/// Writes the text, and nothing else.
pub fn tell<K: Sink>(text: &str, sink: &mut K) -> ExplainStatus
    ensures told { IsTold text.now result (K.written sink.old) (K.written sink.new) }
    ensures cause { CountedIf (says_write_fault result) (K.faults sink.old) (K.faults sink.new) }
{
    match write_all(sink, text.as_bytes()) {
        Ok(()) => ExplainStatus::Nothing,
        Err(_) => ExplainStatus::WriteFault,
    }
}
