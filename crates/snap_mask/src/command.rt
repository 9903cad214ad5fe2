//! The run that the system's arguments ask for.
ghost use Rattle.snap_io_words.specs.Arguments.{arguments_of, words_given};
ghost use Rattle.snap_mask.specs.Program.{Ends, RunOfArguments};

use crate::masking::mask;
use crate::status::MaskStatus;
use snap_io::{Sink, Source};
use snap_io_words::words_in;
use std::alloc::Global;
use std::env::Args;
use std::io;

/// The status of the run that the arguments ask for. Arguments that are no texts are wrong words, and never taken for none:
/// without words all lines would go out unmasked.
pub fn mask_arguments<S: Source, K: Sink>(
    alloc: Global,
    arguments: io::Result<Args<Global>>,
    source: &mut S,
    sink: &mut K,
) -> MaskStatus
    ensures { RunOfArguments (words_given (arguments_of arguments)) result (S.left source.old)
        (S.left source.new) (K.written sink.old) (K.written sink.new) }
{
    match words_in(alloc, arguments) {
        Err(_) => MaskStatus::OutOfMemory,
        Ok(None) => MaskStatus::BadWords,
        Ok(Some(words)) => mask(alloc, &words, source, sink),
    }
}

/// All that the program does: the run that the arguments ask for. The answer is the exit status. The first argument is the
/// program's name.
pub fn program<S: Source, K: Sink>(
    alloc: Global,
    arguments: io::Result<Args<Global>>,
    source: &mut S,
    sink: &mut K,
) -> u8
    ensures { Ends result (words_given (arguments_of arguments)) (S.left source.old)
        (S.left source.new) (K.written sink.old) (K.written sink.new) }
{
    let status = mask_arguments(alloc, arguments, source, sink);
    status.code()
}
