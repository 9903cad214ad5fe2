//! What the program says of itself.
ghost use Rattle.std.specs.Prelude.{◌≡◌, ◌++◌, List, ℕ, None, Some, MatchOption};
ghost use Rattle.snap_io.specs.Causes.{CountedIf};
ghost use Rattle.snap_run.specs.Answers.{text_asked};
ghost use Rattle.snap_run.specs.Status.{IsTold, says_write_fault};

use crate::status::Status;
use snap_content::Text;
use snap_content::characters::is_same;
use snap_io::Sink;
use snap_io_streams::streams::write_all;

/// The answer to `--version`.
pub const VERSION: &str = "snap 0.1.0\n";

/// The answer to `--help`.
pub const USAGE: &str = "\
Snapshot tests: compares values with what you approved before.

Usage: snap run MODE WORKSPACE [FLAG...] < REQUESTS
       snap demo SEED COUNT
       snap --help | --version

MODE says what becomes of a value that does not pass:
  inplace        it is written as the approved snapshot
  new            it is written beside it, as .snap.new, for a review
  no             nothing is written
WORKSPACE is the folder below which the snapshots stand.
FLAG, each at most once:
  --force        what passes is written too, in today's format
  --force-pass   no answer fails the run
  --full         a value passes only under the header that it would be saved with
  --literal      texts of several lines are written as literal blocks

REQUESTS are YAML documents on standard input, each headed by ---, with the keys:
  module         the module of the test, as a::b
  file           its source file, seen from WORKSPACE
  line           its line in that file, a whole number
  name           the name of the snapshot
  function       in its place: the path of the test, as a::b::test_c, which gives
                 the name c, and a second value of it c-2
  suffix         may be left out: a text that comes after the name, as name@suffix
  expr           the expression that the value came of
  value          the value, any tree
  redactions     may be left out: a list of maps, each with at, and put or sort
    at           a selector, as .users[0].id
    put          what stands there in place of the value
    sort         true: the list that stands there is put in order
  sort           may be left out; true: maps are sorted by their keys
Between a document with the one pair duplicates: begin and one with
duplicates: end a name may be used again, for an equal value.
A document with a float or with an alias, as *a, is no request: hand floats over
as texts, and have no aliases written (PyYAML: ignore_aliases; js-yaml: noRefs),
or hand over JSON.

Each answer is a line: passed, updated, pending or rejected, and the snapshot's path.

demo runs COUNT requests of its own twice, in place in the workspace demo; SEED
tells which they are. Three lines say how many they were, how many passed the second
time, and how many bytes their files have. SEED is below 2^64, COUNT at most 10,000.

Exit status:
  0  every request was answered, and none fails
  1  some values are pending or rejected
  2  wrong words
  3  a document is no request
  4  a request was refused: names clash, a value differs in a block of duplicates,
     a test in documentation has no name, or its numbers are used up
  5  a file could not be read or written
  6  the input could not be read
  7  the answers could not be written
  8  out of memory
  9  the input is longer than 67,108,864 bytes
";

/// The text that the words ask for, where they ask for one.
pub fn text_in(words: &[Text]) -> Option<&'static str>
    ensures { MatchOption result (text_asked words.now ≡ None)
        (λ text. text_asked words.now ≡ Some text.now) }
{
    match words {
        [word] => {
            if is_same(word.as_str(), "--help") {
                Some(USAGE)
            } else if is_same(word.as_str(), "--version") {
                Some(VERSION)
            } else {
                None
            }
        }
        _ => None,
    }
}

/// Writes the text, and nothing else.
pub fn tell<K: Sink>(text: &str, sink: &mut K) -> Status
    ensures told { IsTold text.now result (K.written sink.old) (K.written sink.new) }
    ensures cause { CountedIf (says_write_fault result) (K.faults sink.old) (K.faults sink.new) }
{
    match write_all(sink, text.as_bytes()) {
        Ok(()) => Status::AllPassed,
        Err(_) => Status::WriteFault,
    }
}
