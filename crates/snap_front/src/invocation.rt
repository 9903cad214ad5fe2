//! The whole program, over a source and a sink.
ghost use Rattle.std.specs.Prelude.{◌≡◌, None, Some, List, ℕ, false};
ghost use Rattle.snap_io.specs.Causes.{CountedIf};
ghost use Rattle.snap_io_words.specs.Arguments.{arguments_of, words_given};
ghost use Rattle.snap_front.specs.Program.{EndIf, Ends, IsTold, Leaves, LeavesOf, LengthCause, RunOfArguments, asked_of, has_read, is_input_too_long, says_read_fault, says_write_fault, status_of};

use crate::answering::front;
use crate::front_error::FrontError;
use crate::status::FrontStatus;
use crate::usage::{USAGE, VERSION, tell};
use snap_content::{Blob, Text};
use snap_io::{Sink, Source};
use snap_io_streams::streams::{ReadError, read_all, write_all};
use snap_io_words::{text_in, words_in};
use std::alloc::Global;
use std::env::Args;
use std::io;

/// Why the input was not read.
fn status_of(error: ReadError) -> FrontStatus
    ensures { result ≡ status_of error }
{
    match error {
        ReadError::Fault => FrontStatus::ReadFault,
        ReadError::TooLong => FrontStatus::InputTooLong,
        ReadError::OutOfMemory => FrontStatus::OutOfMemory,
    }
}

/// Writes the answer.
fn write_answer<K: Sink>(answer: Blob, sink: &mut K) -> FrontStatus
    ensures told { IsTold answer result (K.written sink.old) (K.written sink.new) }
    ensures cause { CountedIf (says_write_fault result) (K.faults sink.old) (K.faults sink.new) }
{
    match write_all(sink, answer.as_slice()) {
        Ok(()) => FrontStatus::Done,
        Err(_) => FrontStatus::WriteFault,
    }
}

/// Writes the answer to the words, of a document.
fn answer_document<K: Sink>(
    alloc: Global,
    words: &[Text],
    document: &[u8],
    sink: &mut K,
) -> FrontStatus
    ensures leaves { (w : List ℕ) → K.written sink.old ≡ Some w
        → Leaves words.now result document.now w (K.written sink.new) }
    ensures no_read_fault { says_read_fault result ≡ false }
    ensures not_long { is_input_too_long result ≡ false }
    ensures cause { CountedIf (says_write_fault result) (K.faults sink.old) (K.faults sink.new) }
{
    match front(alloc, words, document) {
        Ok(answer) => write_answer(answer, sink),
        Err(FrontError::OutOfMemory) => FrontStatus::OutOfMemory,
        Err(error) => FrontStatus::Failed(error),
    }
}

/// What `front_program` does with words that ask for no text.
fn answer_input<S: Source, K: Sink>(
    alloc: Global,
    words: &[Text],
    source: &mut S,
    sink: &mut K,
) -> FrontStatus
    ensures leaves { LeavesOf words.now result (S.left source.old)
        (K.written sink.old) (K.written sink.new) }
    ensures length { LengthCause result (S.left source.old) (S.left source.new) }
    ensures end { EndIf (has_read result) (S.left source.old) (S.left source.new) }
    ensures read { CountedIf (says_read_fault result) (S.faults source.old) (S.faults source.new) }
    ensures write { CountedIf (says_write_fault result) (K.faults sink.old) (K.faults sink.new) }
{
    match read_all(alloc, source) {
        Ok(document) => answer_document(alloc, words, document.as_slice(), sink),
        Err(error) => status_of(error),
    }
}

/// Reads the source to its end, and writes the answer of `front` to the words and these bytes.
///
/// The words are those of the command line, without the program's name. `--help` and `--version`, each alone, write a text; then
/// nothing is read.
pub fn front_program<S: Source, K: Sink>(
    alloc: Global,
    words: &[Text],
    source: &mut S,
    sink: &mut K,
) -> FrontStatus
    ensures told { (text : List ℕ) → asked_of words.now ≡ Some text
        → IsTold text result (K.written sink.old) (K.written sink.new) }
    ensures untouched { (text : List ℕ) → asked_of words.now ≡ Some text
        → source.new ≡ source.old }
    ensures leaves { asked_of words.now ≡ None → LeavesOf words.now result (S.left source.old)
        (K.written sink.old) (K.written sink.new) }
    ensures length { LengthCause result (S.left source.old) (S.left source.new) }
    ensures end { asked_of words.now ≡ None
        → EndIf (has_read result) (S.left source.old) (S.left source.new) }
    ensures read { CountedIf (says_read_fault result) (S.faults source.old) (S.faults source.new) }
    ensures write { CountedIf (says_write_fault result) (K.faults sink.old) (K.faults sink.new) }
{
    match text_in(words, USAGE, VERSION) {
        Some(text) => tell(text, sink),
        None => answer_input(alloc, words, source, sink),
    }
}

/// The status of the run that the arguments ask for. Arguments that are no texts are wrong words.
fn run_arguments<S: Source, K: Sink>(
    alloc: Global,
    arguments: io::Result<Args<Global>>,
    source: &mut S,
    sink: &mut K,
) -> FrontStatus
    ensures { RunOfArguments (words_given (arguments_of arguments)) result (S.left source.old)
        (S.left source.new) (K.written sink.old) (K.written sink.new) }
{
    match words_in(alloc, arguments) {
        Err(_) => FrontStatus::OutOfMemory,
        Ok(None) => FrontStatus::Failed(FrontError::BadWords),
        Ok(Some(words)) => front_program(alloc, &words, source, sink),
    }
}

/// All that the program does: the run that the arguments ask for. The answer is the exit status. The first argument is the
/// program's name.
pub fn program<S: Source, K: Sink>(
    alloc: Global,
    arguments: io::Result<Args<Global>>,
    source: &mut S,
    sink: &mut K,
) -> u8
    ensures { Ends result (words_given (arguments_of arguments)) (S.left source.old)
        (S.left source.new) (K.written sink.old) (K.written sink.new) }
{
    let status = run_arguments(alloc, arguments, source, sink);
    status.code()
}
