//! The whole program, over a sink and a store.
ghost use Rattle.std.specs.Prelude.{◌≡◌, None, Some, List, ℕ};
ghost use Rattle.snap_io.specs.Causes.{CountedIf};
ghost use Rattle.snap_io_words.specs.Arguments.{arguments_of, words_given};
ghost use Rattle.snap_review.specs.Ends.{ReviewOf, says_file_fault, says_write_fault};
ghost use Rattle.snap_review.specs.Program.{Ends, IsTold, RunOfArguments, asked_of};
ghost use Rattle.snap_review.specs.Wanted.{wanted_by};

use crate::reviewing::review;
use crate::status::ReviewStatus;
use crate::usage::{USAGE, VERSION, tell};
use snap_content::Text;
use snap_io::{Sink, Store};
use snap_io_words::{text_in, words_in};
use std::alloc::Global;
use std::env::Args;
use std::io;

/// Does what the words ask for, as `review` does. The words are those of the command line, without the program's name. `--help` and
/// `--version`, each alone, write a text; then no file is touched.
pub fn review_program<K: Sink, S: Store>(
    alloc: Global,
    words: &[Text],
    sink: &mut K,
    store: &mut S,
) -> ReviewStatus
    ensures told { (text : List ℕ) → asked_of words.now ≡ Some text
        → IsTold text result (K.written sink.old) (K.written sink.new) }
    ensures untouched { (text : List ℕ) → asked_of words.now ≡ Some text
        → store.new ≡ store.old }
    ensures end { asked_of words.now ≡ None
        → ReviewOf (wanted_by words.now) result (S.files store.old) (S.files store.new)
        (K.written sink.old) (K.written sink.new) }
    ensures file { asked_of words.now ≡ None
        → CountedIf (says_file_fault result) (S.faults store.old) (S.faults store.new) }
    ensures write { CountedIf (says_write_fault result) (K.faults sink.old) (K.faults sink.new) }
{
    match text_in(words, USAGE, VERSION) {
        Some(text) => tell(text, sink),
        None => review(alloc, words, sink, store),
    }
}

/// The status of the run that the arguments ask for. Arguments that are no texts are wrong words.
fn run_arguments<K: Sink, S: Store>(
    alloc: Global,
    arguments: io::Result<Args<Global>>,
    sink: &mut K,
    store: &mut S,
) -> ReviewStatus
    ensures { RunOfArguments (words_given (arguments_of arguments)) result (S.files store.old)
        (S.files store.new) (K.written sink.old) (K.written sink.new) }
{
    match words_in(alloc, arguments) {
        Err(_) => ReviewStatus::OutOfMemory,
        Ok(None) => ReviewStatus::BadWords,
        Ok(Some(words)) => review_program(alloc, words.as_slice(), sink, store),
    }
}

/// All that the program does: the run that the arguments ask for. The answer is the exit status. The first argument is the
/// program's name.
pub fn program<K: Sink, S: Store>(
    alloc: Global,
    arguments: io::Result<Args<Global>>,
    sink: &mut K,
    store: &mut S,
) -> u8
    ensures { Ends result (words_given (arguments_of arguments)) (S.files store.old)
        (S.files store.new) (K.written sink.old) (K.written sink.new) }
{
    let status = run_arguments(alloc, arguments, sink, store);
    status.code()
}
