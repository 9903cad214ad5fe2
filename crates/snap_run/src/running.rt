//! All that the program does.
ghost use Rattle.std.specs.Prelude.{◌≡◌, ◌≤◌, ◌+◌, List, ℕ, Some, length, false};
ghost use Rattle.snap_io.specs.Causes.{CountedIf};
ghost use Rattle.snap_io.specs.Outside.{outside};
ghost use Rattle.snap_run_requests.specs.Cut.{documents};
ghost use Rattle.snap_run.specs.Answers.{RunWords, words_at};
ghost use Rattle.snap_run.specs.Demonstrations.{Demonstrates};
ghost use Rattle.snap_run.specs.Meaning.{meaning, a_text, a_run, a_demonstration, nothing, reads_input, touches_files};
ghost use Rattle.snap_run.specs.RunKept.{KeptByRun};
ghost use Rattle.snap_assert.specs.Session.{empty_session};
ghost use Rattle.snap_demo.specs.declared.words.DemoWords.{DemoWords};
ghost use Rattle.snap_run.specs.Status.{WordsCause, IsTold, RunsFrom, LengthCause, ended_status, says_read_fault, says_write_fault, says_file_fault, AreSpelled, IsSteady, EndsWell};
ghost use Rattle.snap_io_streams.specs.Streams.{TakesAtMost, input_limit};

use crate::demo::demo;
use crate::documents::run_documents;
use crate::runner::Runner;
use crate::status::Status;
use crate::tally::Tally;
use crate::usage::{tell, text_in};
use crate::words::{Said, said_in};
use snap_assert::session::Session;
use snap_content::Text;
use snap_demo::demo_words;
use snap_io::{Sink, Source, Store};
use snap_io_streams::streams::{ReadError, read_all};
use std::alloc::Global;

/// The status of a run that came to its end.
fn ended(tally: Tally) -> Status
    ensures { result ≡ ended_status tally.fails }
{
    if tally.fails {
        Status::SomeFailed
    } else {
        Status::AllPassed
    }
}

/// What `run` does with the words of a run.
fn run_said<S: Source, K: Sink, F: Store>(
    alloc: Global,
    said: Said<'_>,
    source: &mut S,
    sink: &mut K,
    store: &mut F,
) -> Status
    ensures runs { RunsFrom result (words_at said.entry.workspace.now said.entry.update said.entry.flags)
        (S.left source.old)
        (outside (F.files store.old) (K.written sink.old))
        (outside (F.files store.new) (K.written sink.new)) }
    ensures length { LengthCause input_limit (S.left source.old) (S.left source.new) result }
    ensures taken { TakesAtMost (input_limit + 1) (S.left source.old) (S.left source.new) }
    ensures read { CountedIf (says_read_fault result) (S.faults source.old) (S.faults source.new) }
    ensures write { CountedIf (says_write_fault result) (K.faults sink.old) (K.faults sink.new) }
    ensures file { CountedIf (says_file_fault result) (F.faults store.old) (F.faults store.new) }
{
    let input = match read_all(alloc, source) {
        Ok(input) => input,
        Err(ReadError::Fault) => return Status::ReadFault,
        Err(ReadError::TooLong) => return Status::InputTooLong,
        Err(ReadError::OutOfMemory) => return Status::OutOfMemory,
    };
    let Ok(runner) = Runner::new(alloc, said.workspace, said.update, said.flags) else {
        return Status::OutOfMemory;
    };
    let mut session = Session::new(alloc);
    match run_documents(alloc, &runner, &mut session, &input, sink, store) {
        Ok(tally) => ended(tally),
        Err(status) => status,
    }
}

/// Does what the words ask for. They are those of the command line, without the program's name.
///
/// `run`, a mode, a workspace and flags: the source is read to its end, its requests are asserted in turn over the store, and a line is
/// written for each. `inplace` writes what did not pass, `new` writes it beside the
/// approved snapshot, and `no` writes nothing; `--force` writes what passes too, `--force-pass` lets no answer fail, `--full` lets a
/// value pass only where its file's header tells what the request does, and `--literal` prints texts of several lines as literal blocks.
/// The line of a request is written before
/// the next document runs, and the first refusal ends the run; what was done before stays.
///
/// `demo`, a seed and a count: so many requests of the program's own are run twice in place in the workspace `demo`, without their lines,
/// and three lines tell how many there were, how many passed the second time, and how many bytes their files have. Nothing is read.
///
/// `--help` and `--version`, each alone, write a text; then nothing is read and no file is touched.
pub fn run<S: Source, K: Sink, F: Store>(
    alloc: Global,
    words: &[Text],
    source: &mut S,
    sink: &mut K,
    store: &mut F,
) -> Status
    ensures words { WordsCause words.now result }
    ensures told { (text : List ℕ) → meaning words.now ≡ a_text text
        → IsTold text result (K.written sink.old) (K.written sink.new) }
    ensures runs { (said : RunWords) → meaning words.now ≡ a_run said
        → RunsFrom result said (S.left source.old)
        (outside (F.files store.old) (K.written sink.old))
        (outside (F.files store.new) (K.written sink.new)) }
    ensures demonstrated { (said : DemoWords) → meaning words.now ≡ a_demonstration said
        → Demonstrates result said (outside (F.files store.old) (K.written sink.old))
        (outside (F.files store.new) (K.written sink.new)) }
    // Only a run reads, and a demonstration of no requests touches no file.
    ensures unread { reads_input (meaning words.now) ≡ false → source.new ≡ source.old }
    ensures untouched { touches_files (meaning words.now) ≡ false → store.new ≡ store.old }
    ensures unsaid { meaning words.now ≡ nothing → sink.new ≡ sink.old }
    // Whatever the status is: no file is written but those of the mode, so the approved ones only in place.
    ensures kept { (said : RunWords) (input : List ℕ) → meaning words.now ≡ a_run said
        → S.left source.old ≡ Some input
        → KeptByRun said (documents input) (F.files store.old) (F.files store.new) }
    ensures length { (said : RunWords) → meaning words.now ≡ a_run said
        → LengthCause input_limit (S.left source.old) (S.left source.new) result }
    ensures taken { TakesAtMost (input_limit + 1) (S.left source.old) (S.left source.new) }
    ensures read { CountedIf (says_read_fault result) (S.faults source.old) (S.faults source.new) }
    ensures write { CountedIf (says_write_fault result) (K.faults sink.old) (K.faults sink.new) }
    ensures file { CountedIf (says_file_fault result) (F.faults store.old) (F.faults store.new) }
    // Without faults, a run over documents that spell requests ends well.
    ensures complete { (said : RunWords) (input : List ℕ) → meaning words.now ≡ a_run said
        → S.left source.old ≡ Some input → AreSpelled said (documents input) empty_session
        → length input ≤ input_limit
        → IsSteady (S.faults source.old) (S.faults source.new)
        → IsSteady (K.faults sink.old) (K.faults sink.new)
        → IsSteady (F.faults store.old) (F.faults store.new)
        → EndsWell result }
{
    if let Some(text) = text_in(words) {
        return tell(text, sink);
    }
    if let Some(said) = said_in(words) {
        return run_said(alloc, said, source, sink, store);
    }
    match demo_words(words) {
        Some(said) => demo(alloc, said, sink, store),
        None => Status::BadWords,
    }
}
