//! The run that the system's arguments ask for.
ghost use Rattle.std.specs.Prelude.{◌≡◌, option_copied};
ghost use Rattle.snap_io_words.specs.Arguments.{arguments_of, words_given};
ghost use Rattle.snap_explain.specs.Program.{Ends, EndsBy, unused_of};

use crate::explaining::{explain, words_after};
use crate::status::ExplainStatus;
use snap_content::Text;
use snap_content::characters::is_same;
use snap_explain_review::explain_review;
use snap_explain_unused::name_unused;
use snap_io::{Sink, Source, Store};
use snap_io_words::words_in;
use std::alloc::Global;
use std::env::Args;
use std::io;

/// The workspace in which unused files are to be named, where the words ask for that.
fn unused_workspace(words: &[Text]) -> Option<&Text>
    ensures { option_copied result ≡ unused_of words.now }
{
    match words {
        [tool, workspace] => {
            if is_same(tool.as_str(), "unused") {
                Some(workspace)
            } else {
                None
            }
        }
        _ => None,
    }
}

/// The exit status of the run that the words ask for.
fn code_by_words<S: Source, K: Sink, F: Store>(
    alloc: Global,
    words: &[Text],
    source: &mut S,
    sink: &mut K,
    store: &mut F,
) -> u8
    ensures run { EndsBy result words.now (F.files store.old) (S.left source.old)
        (S.left source.new) (K.written sink.old) (K.written sink.new) }
    ensures same { F.files store.new ≡ F.files store.old }
{
    match unused_workspace(words) {
        Some(workspace) => name_unused(alloc, workspace, source, sink, store).code(),
        None => match words_after(words, "review") {
            Some(review) => explain_review(alloc, review, sink, store).code(),
            None => explain(alloc, words, source, sink, store).code(),
        },
    }
}

/// All that the program does: the run that the arguments ask for. The answer is the exit status. The first argument is the
/// program's name; arguments that are no texts are wrong words. After the word `unused` stands a workspace, in which the files are named
/// that no request of the source asks for; after the word `review` stand those of a review, of which it is told why it would be refused;
/// all other words are those of `explain`.
pub fn program<S: Source, K: Sink, F: Store>(
    alloc: Global,
    arguments: io::Result<Args<Global>>,
    source: &mut S,
    sink: &mut K,
    store: &mut F,
) -> u8
    ensures run { Ends result (words_given (arguments_of arguments)) (F.files store.old)
        (S.left source.old) (S.left source.new) (K.written sink.old) (K.written sink.new) }
    // No file is changed.
    ensures same { F.files store.new ≡ F.files store.old }
{
    match words_in(alloc, arguments) {
        Err(_) => ExplainStatus::OutOfMemory.code(),
        Ok(None) => ExplainStatus::BadWords.code(),
        Ok(Some(words)) => code_by_words(alloc, &words, source, sink, store),
    }
}
