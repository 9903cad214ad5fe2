//! The tool that the words name.
ghost use Rattle.std.specs.Prelude.{◌≡◌, List, ℕ, None, Some, IsTrue, MatchOption, not, option_copied};
ghost use Rattle.std.specs.Char.{is_ascii};
ghost use Rattle.std.specs.List.{find, list_all, list_any};
ghost use Rattle.snap_io.specs.Causes.{CountedIf};
ghost use Rattle.snap_assert_settings.specs.Replaced.{ReplacementView};
ghost use Rattle.snap_run.specs.Answers.{is_literal};
ghost use Rattle.snap_explain.specs.Findings.{LeavesOf, LengthCause, says_read_fault, says_write_fault, says_file_fault};
ghost use Rattle.snap_explain.specs.Program.{IsTold, WordsCause, asked_of, form_if, front_words, is_flag, is_json, mask_rules, one_if, stream_by, stream_in, stream_of, words_after};
ghost use Rattle.snap_explain.specs.Pages.{FrontRun};
ghost use Rattle.snap_explain.specs.Streams.{StreamRun, StreamWords, stream_at};

use crate::form::Form;
use crate::front::explain_front;
use crate::mask::explain_lines;
use crate::status::ExplainStatus;
use crate::stream::{Asked, explain_stream};
use crate::usage::{USAGE, VERSION, tell};
use snap_content::Text;
use snap_content::characters::is_same;
use snap_io::{Sink, Source, Store};
use snap_io_words::text_in;
use std::alloc::Global;

/// The words after this one, where they begin with it.
pub(crate) fn words_after<'a>(words: &'a [Text], name: &str) -> Option<&'a [Text]>
    requires { IsTrue (list_all is_ascii name.now) }
    ensures { MatchOption result (words_after name.now words.now ≡ None)
        (λ rest. words_after name.now words.now ≡ Some rest.now) }
{
    match words {
        [tool, rest @ ..] if is_same(tool.as_str(), name) => Some(rest),
        _ => None,
    }
}

fn is_json(word: &Text) -> bool
    ensures { result ≡ is_json word.now }
{
    is_same(word.as_str(), "--json")
}

fn is_literal(word: &Text) -> bool
    ensures { result ≡ is_literal word.now }
{
    is_same(word.as_str(), "--literal")
}

/// Whether the word is a flag of `stream`.
fn is_flag(word: &Text) -> bool
    ensures { result ≡ is_flag word.now }
{
    is_json(word) || is_literal(word)
}

fn form_if(json: bool) -> Form
    ensures { result ≡ form_if json }
{
    if json { Form::Json } else { Form::Plain }
}

fn one_if(counts: bool) -> usize
    ensures { result ≡ one_if counts }
{
    if counts { 1 } else { 0 }
}

fn stands_json(words: &[Text]) -> bool
    ensures { result ≡ list_any is_json words.now }
{
    words.iter().any(|word| is_json(word))
}

fn stands_literal(words: &[Text]) -> bool
    ensures { result ≡ list_any is_literal words.now }
{
    words.iter().any(|word| is_literal(word))
}

/// The first word that is no flag.
fn first_place(words: &[Text]) -> Option<&Text>
    ensures { option_copied result ≡ find (λ word. not (is_flag word)) words.now }
{
    words.iter().find(|word| !is_flag(word))
}

/// What is asked of a stream by so many words, whose first word that is no flag is the workspace.
fn stream_by(json: bool, literal: bool, count: usize, place: Option<&Text>) -> Option<Asked<'_>>
    ensures { MatchOption result
        (stream_by json literal count (option_copied place.entry) ≡ None)
        (λ asked. stream_by json literal count (option_copied place.entry)
        ≡ Some (stream_at asked.form asked.workspace.now asked.literal)) }
{
    let workspace = place?;
    if count == 1 + one_if(json) + one_if(literal) {
        Some(Asked {
            workspace,
            literal,
            form: form_if(json),
        })
    } else {
        None
    }
}

/// What is asked of a stream by the words after `stream`.
fn stream_in(words: &[Text]) -> Option<Asked<'_>>
    ensures { MatchOption result (stream_in words.now ≡ None)
        (λ asked. stream_in words.now
        ≡ Some (stream_at asked.form asked.workspace.now asked.literal)) }
{
    let json = stands_json(words);
    let literal = stands_literal(words);
    stream_by(json, literal, words.len(), first_place(words))
}

/// What is asked of a stream, where the words begin with `stream`.
fn stream_asked(words: &[Text]) -> Option<Asked<'_>>
    ensures { MatchOption result (stream_of words.now ≡ None)
        (λ asked. stream_of words.now
        ≡ Some (stream_at asked.form asked.workspace.now asked.literal)) }
{
    match words_after(words, "stream") {
        Some(rest) => stream_in(rest),
        None => None,
    }
}

/// The words after `front`.
fn front_words(words: &[Text]) -> Option<&[Text]>
    ensures { MatchOption result (front_words words.now ≡ None)
        (λ rest. front_words words.now ≡ Some rest.now) }
{
    words_after(words, "front")
}

/// What is done with words that do not begin with `front`.
fn explain_others<S: Source, K: Sink, F: Store>(
    alloc: Global,
    words: &[Text],
    source: &mut S,
    sink: &mut K,
    store: &mut F,
) -> ExplainStatus
    ensures words { front_words words.now ≡ None → WordsCause words.now result }
    ensures told { (text : List ℕ) → asked_of words.now ≡ Some text
        → IsTold text result (K.written sink.old) (K.written sink.new) }
    ensures untouched { (text : List ℕ) → asked_of words.now ≡ Some text
        → source.new ≡ source.old }
    ensures refused { result ≡ ExplainStatus.BadWords
        → (source.new ≡ source.old) × (sink.new ≡ sink.old) }
    ensures stream { (said : StreamWords) → stream_of words.now ≡ Some said
        → StreamRun said (F.files store.old) result (S.left source.old) (S.left source.new)
        (K.written sink.old) (K.written sink.new) }
    ensures leaves { (rules : List ReplacementView) → asked_of words.now ≡ None
        → mask_rules words.now ≡ Some rules
        → LeavesOf rules result (S.left source.old) (K.written sink.old) (K.written sink.new) }
    ensures length { stream_of words.now ≡ None
        → LengthCause result (S.left source.old) (S.left source.new) }
    ensures read { CountedIf (says_read_fault result) (S.faults source.old) (S.faults source.new) }
    ensures write { CountedIf (says_write_fault result) (K.faults sink.old) (K.faults sink.new) }
    ensures file { CountedIf (says_file_fault result) (F.faults store.old) (F.faults store.new) }
    ensures same { F.files store.new ≡ F.files store.old }
{
    if let Some(asked) = stream_asked(words) {
        return explain_stream(alloc, asked, source, sink, store);
    }
    match text_in(words, USAGE, VERSION) {
        Some(text) => tell(text, sink),
        None => explain_lines(alloc, words, source, sink),
    }
}

/// Says why input is refused.
///
/// The words are those of the command line, without the program's name: `stream`, a workspace and the flags `--json` and
/// `--literal`, each at most once, or `mask` and after it the rules of the filter of JSON lines. Then the source is read as a run over requests does, or as that filter does, and each
/// document or line that it refuses is told, with its number and why; what comes after one that is refused is read as well. Of a request
/// that would not pass it is told why, by the file of its snapshot. After `front` come the words of the program on pages; then the source is
/// read as a page, and it is told why that program gives no answer, where it gives none. No file is touched.
///
/// With `--json` each finding of a stream is a JSON object on a line.
///
/// `--help` and `--version`, each alone, write a text; then nothing is read.
pub fn explain<S: Source, K: Sink, F: Store>(
    alloc: Global,
    words: &[Text],
    source: &mut S,
    sink: &mut K,
    store: &mut F,
) -> ExplainStatus
    ensures words { WordsCause words.now result }
    ensures told { (text : List ℕ) → asked_of words.now ≡ Some text
        → IsTold text result (K.written sink.old) (K.written sink.new) }
    ensures untouched { (text : List ℕ) → asked_of words.now ≡ Some text
        → source.new ≡ source.old }
    ensures refused { result ≡ ExplainStatus.BadWords
        → (source.new ≡ source.old) × (sink.new ≡ sink.old) }
    ensures front { (rest : List (List ℕ)) → front_words words.now ≡ Some rest
        → FrontRun rest result (S.left source.old) (S.left source.new) (K.written sink.old)
        (K.written sink.new) }
    ensures stream { (said : StreamWords) → stream_of words.now ≡ Some said
        → StreamRun said (F.files store.old) result (S.left source.old) (S.left source.new)
        (K.written sink.old) (K.written sink.new) }
    ensures leaves { (rules : List ReplacementView) → asked_of words.now ≡ None
        → mask_rules words.now ≡ Some rules
        → LeavesOf rules result (S.left source.old) (K.written sink.old) (K.written sink.new) }
    ensures length { stream_of words.now ≡ None → front_words words.now ≡ None
        → LengthCause result (S.left source.old) (S.left source.new) }
    ensures read { CountedIf (says_read_fault result) (S.faults source.old) (S.faults source.new) }
    ensures write { CountedIf (says_write_fault result) (K.faults sink.old) (K.faults sink.new) }
    ensures file { CountedIf (says_file_fault result) (F.faults store.old) (F.faults store.new) }
    // Whatever is returned, the files are as they were.
    ensures same { F.files store.new ≡ F.files store.old }
{
    match front_words(words) {
        Some(rest) => explain_front(alloc, rest, source, sink),
        None => explain_others(alloc, words, source, sink, store),
    }
}
