//! The words of the command line.
ghost use Rattle.std.specs.Prelude.{◌≡◌, Some, IfOk, IfErr, option_map};
ghost use Rattle.snap_io_words.specs.Arguments.{arguments_in, arguments_of, words_after_name, words_given, NeedsMemory};

use snap_content::{OutOfMemory, Text};
use std::alloc::Global;
use std::env::Args;
use std::io;
use std::io::ErrorKind;

/// The arguments after the program's name; none where some argument is no text. That is another answer than no words,
/// which a program may take for its plainest use. Where there are no words, no memory is asked for.
pub fn words_in(
    alloc: Global,
    arguments: io::Result<Args<Global>>,
) -> Result<Option<Vec<Text>>, OutOfMemory>
    ensures given { IfOk result (λ found. option_map (λ words. words.items) found
        ≡ words_given (arguments_of arguments)) }
    ensures memory { IfErr result (λ _. NeedsMemory (arguments_of arguments)) }
{
    match arguments {
        Ok(arguments) => Ok(Some(texts_of(alloc, arguments)?)),
        Err(error) if error.kind() == ErrorKind::OutOfMemory => Err(OutOfMemory),
        Err(_) => Ok(None),
    }
}

/// All arguments but the first.
fn texts_of(alloc: Global, mut arguments: Args<Global>) -> Result<Vec<Text>, OutOfMemory>
    ensures given { IfOk result (λ words. words.items
        ≡ words_after_name (arguments_in arguments)) }
    ensures memory { IfErr result (λ _. NeedsMemory (Some (arguments_in arguments))) }
{
    let mut words = Vec::new(alloc);
    if let None = arguments.next() {
        return Ok(words);
    }
    'arguments: while let Some(argument) = arguments.next() {
        words.push(Text::from_str(alloc, argument.as_str())?)?;
    }
    Ok(words)
}
