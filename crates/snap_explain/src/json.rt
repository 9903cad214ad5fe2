//! Findings as JSON, an object on a line of its own.
ghost use Rattle.std.specs.Prelude.{◌≡◌, IfOk, OnOk, IsTrue, codes, option_map, string_bytes};
ghost use Rattle.std.specs.Char.{is_ascii};
ghost use Rattle.std.specs.List.{list_all};
ghost use Rattle.std.specs.Str.{chars};
ghost use Rattle.snap_content.specs.Tree.{TreePairs, string, u64, no_pairs, pair};
ghost use Rattle.snap_content.specs.View.{tree, pair_list};
ghost use Rattle.snap_json.specs.JsonText.{json_text};
ghost use Rattle.snap_json.specs.declared.format.Format.TheVariants.{Condensed};
ghost use Rattle.snap_store.specs.Header.{in_front};
ghost use Rattle.snap_store.specs.MetaTree.{text_pair};
ghost use Rattle.snap_explain.specs.Json.{column_pair, finding_line, finding_pairs, finding_tree};

use crate::position::Place;
use snap_content::{Content, OutOfMemory, Pairs, Text};
use snap_json::to_string;
use snap_store::header::push_field;
use std::alloc::Global;

/// What a finding tells: where, a fixed word for its cause, the key, the selector or the path that it speaks of, where it speaks of one,
/// and the words of its plain form after the place.
#[derive(Clone, Copy, Debug)]
pub(crate) struct Finding<'a> {
    pub document: u64,
    pub place: Place,
    pub cause: &'a str,
    pub key: Option<&'a str>,
    pub selector: Option<&'a str>,
    pub path: Option<&'a str>,
    pub text: &'a str,
}

fn push_text(alloc: Global, pairs: &mut Pairs, name: &str, value: &str) -> Result<(), OutOfMemory>
    requires { IsTrue (list_all is_ascii name.now) }
    ensures { OnOk result ((rest : TreePairs)
        → in_front (pair_list pairs.new) rest ≡ in_front (pair_list pairs.old)
        (pair (string name.now) (string (chars value.now)) rest)) }
{
    let text = Text::from_str(alloc, value)?;
    push_field(alloc, pairs, name, Content::String(text))?;
    Ok(())
}

/// Adds a text where there is one.
fn push_some(
    alloc: Global,
    pairs: &mut Pairs,
    name: &str,
    value: Option<&str>,
) -> Result<(), OutOfMemory>
    requires { IsTrue (list_all is_ascii name.now) }
    ensures { OnOk result ((rest : TreePairs)
        → in_front (pair_list pairs.new) rest ≡ in_front (pair_list pairs.old)
        (text_pair name.now (option_map (λ text. chars text.now) value.entry) rest)) }
{
    match value {
        None => Ok(()),
        Some(value) => push_text(alloc, pairs, name, value),
    }
}

fn push_number(alloc: Global, pairs: &mut Pairs, name: &str, number: u64) -> Result<(), OutOfMemory>
    requires { IsTrue (list_all is_ascii name.now) }
    ensures { OnOk result ((rest : TreePairs)
        → in_front (pair_list pairs.new) rest ≡ in_front (pair_list pairs.old)
        (pair (string name.now) (u64 number) rest)) }
{
    push_field(alloc, pairs, name, Content::U64(number))?;
    Ok(())
}

/// Adds a column where there is one.
fn push_column(alloc: Global, pairs: &mut Pairs, column: Option<u64>) -> Result<(), OutOfMemory>
    ensures { OnOk result ((rest : TreePairs)
        → in_front (pair_list pairs.new) rest ≡ in_front (pair_list pairs.old)
        (column_pair column rest)) }
{
    match column {
        None => Ok(()),
        Some(column) => push_number(alloc, pairs, "column", column),
    }
}

/// Adds the document and the place in the stream.
fn push_place(
    alloc: Global,
    pairs: &mut Pairs,
    document: u64,
    place: Place,
) -> Result<(), OutOfMemory>
    ensures { OnOk result ((rest : TreePairs)
        → in_front (pair_list pairs.new) rest ≡ in_front (pair_list pairs.old)
        (pair (string (codes "document")) (u64 document) (pair (string (codes "line")) (u64 place.line)
        (column_pair place.column rest)))) }
{
    push_number(alloc, pairs, "document", document)?;
    push_number(alloc, pairs, "line", place.line)?;
    push_column(alloc, pairs, place.column)
}

/// Adds what the finding speaks of.
fn push_subject(
    alloc: Global,
    pairs: &mut Pairs,
    key: Option<&str>,
    selector: Option<&str>,
    path: Option<&str>,
) -> Result<(), OutOfMemory>
    ensures { OnOk result ((rest : TreePairs)
        → in_front (pair_list pairs.new) rest ≡ in_front (pair_list pairs.old)
        (text_pair (codes "key") (option_map (λ text. chars text.now) key.entry)
        (text_pair (codes "selector") (option_map (λ text. chars text.now) selector.entry)
        (text_pair (codes "path") (option_map (λ text. chars text.now) path.entry) rest)))) }
{
    push_some(alloc, pairs, "key", key)?;
    push_some(alloc, pairs, "selector", selector)?;
    push_some(alloc, pairs, "path", path)
}

/// Adds the fields of a finding, in their order.
fn push_finding(alloc: Global, pairs: &mut Pairs, finding: &Finding<'_>) -> Result<(), OutOfMemory>
    ensures { OnOk result (in_front (pair_list pairs.new) no_pairs ≡ in_front (pair_list pairs.old)
        (finding_pairs finding.now.document finding.now.place (chars finding.now.cause.now)
        (option_map (λ text. chars text.now) finding.now.key)
        (option_map (λ text. chars text.now) finding.now.selector)
        (option_map (λ text. chars text.now) finding.now.path) (chars finding.now.text.now))) }
{
    push_place(alloc, pairs, finding.document, finding.place)?;
    push_text(alloc, pairs, "cause", finding.cause)?;
    push_subject(alloc, pairs, finding.key, finding.selector, finding.path)?;
    push_text(alloc, pairs, "text", finding.text)
}

/// The finding as a map.
fn finding_tree(alloc: Global, finding: &Finding<'_>) -> Result<Content, OutOfMemory>
    ensures { IfOk result (λ made. tree made
        ≡ finding_tree finding.now.document finding.now.place (chars finding.now.cause.now)
        (option_map (λ text. chars text.now) finding.now.key)
        (option_map (λ text. chars text.now) finding.now.selector)
        (option_map (λ text. chars text.now) finding.now.path) (chars finding.now.text.now)) }
{
    let mut pairs = Pairs::new(alloc);
    push_finding(alloc, &mut pairs, finding)?;
    Ok(Content::Map(pairs))
}

/// The JSON text of a tree. Want of memory is the one error, since each key of a finding is a text.
fn json_text(alloc: Global, content: &Content) -> Result<Text, OutOfMemory>
    ensures { IfOk result (λ text. text ≡ json_text Condensed (tree content.now)) }
{
    match to_string(alloc, content) {
        Ok(text) => Ok(text),
        Err(_) => Err(OutOfMemory),
    }
}

/// The line of a finding.
pub(crate) fn json_line(alloc: Global, finding: &Finding<'_>) -> Result<String, OutOfMemory>
    ensures { IfOk result (λ line. string_bytes line
        ≡ finding_line (finding_tree finding.now.document finding.now.place
        (chars finding.now.cause.now) (option_map (λ text. chars text.now) finding.now.key)
        (option_map (λ text. chars text.now) finding.now.selector)
        (option_map (λ text. chars text.now) finding.now.path) (chars finding.now.text.now))) }
{
    let tree = finding_tree(alloc, finding)?;
    let text = json_text(alloc, &tree);
    drop(tree);
    let text = text?;
    Ok(format!(in alloc; "{text}\n")?)
}
