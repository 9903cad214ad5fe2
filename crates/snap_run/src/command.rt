//! One run as the system sees it: words in, lines and a message out, an exit status.
ghost use Rattle.std.specs.Prelude.{◌≡◌, ◌⊎◌, ◌++◌, ◌∷◌, [], true, IfOk, MatchOption};
ghost use Rattle.snap_io.specs.Outside.{outside};
ghost use Rattle.snap_run.specs.Describe.{code_of, description};
ghost use Rattle.snap_io_words.specs.Arguments.{arguments_of, words_given};
ghost use Rattle.snap_run.specs.Program.{IsSaid, IsRunOf, IsNotBegun, Ends, message, tells_document, words_or_none};

use crate::running::run;
use crate::status::Status;
use snap_content::{OutOfMemory, Text};
use snap_io::{Sink, Source, Store};
use snap_io_streams::write_all;
use snap_io_words::words_in;
use std::alloc::Global;
use std::env::Args;
use std::io;

/// What a status says, as a line.
fn message(alloc: Global, status: &Status) -> Result<Text, OutOfMemory>
    ensures { IfOk result (λ text. text ≡ description status.now ++ 10 ∷ []) }
{
    let mut text = status.describe(alloc)?;
    text.push(alloc, '\n')?;
    Ok(text)
}

/// What standard error is told of a status that tells of no document: nothing where all was answered. It needs no memory.
fn fixed_message(status: &Status) -> Option<&'static str>
    ensures { MatchOption result (tells_document status.now ≡ true)
        (λ text. text.now ≡ message status.now) }
{
    match status {
        Status::AllPassed | Status::SomeFailed => Some(""),
        Status::BadWords => Some("snap: bad words\n"),
        Status::ReadFault => Some("snap: read fault\n"),
        Status::WriteFault => Some("snap: write fault\n"),
        Status::OutOfMemory => Some("snap: out of memory\n"),
        Status::InputTooLong => Some("snap: input too long\n"),
        Status::BadRequest { .. } | Status::Refused { .. } | Status::FileIo { .. } => None,
    }
}

/// Tells the sink of errors what a status from 2 on says.
fn tell<E: Sink>(alloc: Global, status: &Status, errors: &mut E)
    ensures { IsSaid status.now (E.faults errors.old) (E.faults errors.new)
        (E.written errors.old) (E.written errors.new) }
{
    if let Some(text) = fixed_message(status) {
        let _ = write_all(errors, text.as_bytes());
    } else if let Ok(text) = message(alloc, status) {
        let _ = write_all(errors, text.as_str().as_bytes());
    }
}

/// Tells the sink of errors what a status from 2 on says, and returns the exit status.
/// Nothing is told only where there is no memory for a message that tells of a document; a fault of the sink has nowhere to be told.
pub fn conclude<E: Sink>(alloc: Global, status: &Status, errors: &mut E) -> u8
    ensures code { result ≡ code_of status.now }
    ensures said { IsSaid status.now (E.faults errors.old) (E.faults errors.new)
        (E.written errors.old) (E.written errors.new) }
{
    tell(alloc, status, errors);
    status.code()
}

/// The status of the run that the arguments ask for. Arguments that are no texts are wrong words.
fn run_arguments<S: Source, K: Sink, F: Store>(
    alloc: Global,
    arguments: io::Result<Args<Global>>,
    source: &mut S,
    sink: &mut K,
    store: &mut F,
) -> Status
    ensures { IsRunOf (words_or_none (words_given (arguments_of arguments))) result (S.left source.old)
        (outside (F.files store.old) (K.written sink.old))
        (outside (F.files store.new) (K.written sink.new))
        ⊎ IsNotBegun result (outside (F.files store.old) (K.written sink.old))
        (outside (F.files store.new) (K.written sink.new)) }
{
    match words_in(alloc, arguments) {
        Ok(Some(words)) => run(alloc, &words, source, sink, store),
        Ok(None) => Status::BadWords,
        Err(_) => Status::OutOfMemory,
    }
}

/// All that the program does: the run that the arguments ask for, with a message where it did not come to its end.
/// The answer is the exit status. The first argument is the program's name.
pub fn program<S: Source, K: Sink, E: Sink, F: Store>(
    alloc: Global,
    arguments: io::Result<Args<Global>>,
    source: &mut S,
    sink: &mut K,
    errors: &mut E,
    store: &mut F,
) -> u8
    ensures { Ends result (words_or_none (words_given (arguments_of arguments)))
        (S.left source.old)
        (outside (F.files store.old) (K.written sink.old))
        (outside (F.files store.new) (K.written sink.new))
        (E.faults errors.old) (E.faults errors.new) (E.written errors.old) (E.written errors.new) }
{
    let status = run_arguments(alloc, arguments, source, sink, store);
    conclude(alloc, &status, errors)
}
