//! The findings of documents as JSON.
ghost use Rattle.std.specs.Prelude.{◌≡◌, IfOk, option_map, string_bytes};
ghost use Rattle.std.specs.Str.{chars};
ghost use Rattle.snap_explain.specs.Json.{finding_line, key_in, reason_key, reason_selector, refusal_tree, trouble_path, trouble_tree};

use crate::cause_word::{reason_word, trouble_word};
use crate::json::{Finding, json_line};
use crate::position::Place;
use crate::refusal::ReasonWords;
use crate::telling::Told;
use crate::trouble::Trouble;
use snap_content::{OutOfMemory, Text};
use snap_emit::Refusal;
use snap_run_requests::{KeyFault, Reason, RedactionFault};
use std::alloc::Global;

/// A key that is wrong, where one is told: one that isn't known as it was seen.
fn key_in<'a>(fault: &KeyFault, seen: Option<&'a str>) -> Option<&'a str>
    ensures { option_map (λ text. chars text.now) result
        ≡ key_in fault.now (option_map (λ text. chars text.now) seen.entry) }
{
    match fault {
        KeyFault::Missing(key) | KeyFault::Twice(key) | KeyFault::WrongKind(key) => {
            Some(key.name())
        }
        KeyFault::Unknown { .. } => seen,
    }
}

/// The key that a reason speaks of, where it speaks of one.
fn reason_key<'a>(why: &Reason, seen: Option<&'a str>) -> Option<&'a str>
    ensures { option_map (λ text. chars text.now) result
        ≡ reason_key why.now (option_map (λ text. chars text.now) seen.entry) }
{
    match why {
        Reason::Key(fault) => key_in(fault, seen),
        Reason::NoRedaction {
            fault: RedactionFault::Key(fault),
            ..
        } => key_in(fault, seen),
        _ => None,
    }
}

/// The selector that a reason speaks of, where it speaks of one.
fn reason_selector<'a>(why: &Reason, seen: Option<&'a str>) -> Option<&'a str>
    ensures { option_map (λ text. chars text.now) result
        ≡ reason_selector why.now (option_map (λ text. chars text.now) seen.entry) }
{
    match why {
        Reason::NoTree(Refusal::Number)
        | Reason::NoRedaction {
            fault: RedactionFault::NoSelector(_),
            ..
        } => seen,
        _ => None,
    }
}

/// A text, lent.
fn lent(text: &Option<Text>) -> Option<&str>
    ensures { option_map (λ lent. chars lent.now) result ≡ text.now }
{
    match text {
        None => None,
        Some(text) => Some(text.as_str()),
    }
}

/// What is said in JSON of a document with this number that is no request, as a line.
pub(crate) fn json_refusal(
    alloc: Global,
    number: u64,
    told: &Told,
    why: &Reason,
) -> Result<String, OutOfMemory>
    ensures { IfOk result (λ text. string_bytes text
        ≡ finding_line (refusal_tree number told.now.place why.now told.now.seen told.now.detail)) }
{
    let words = ReasonWords { why };
    let text = format!(in alloc; "{words}{}", told.detail)?;
    let seen = lent(&told.seen);
    let finding = Finding {
        document: number,
        place: told.place,
        cause: reason_word(why),
        key: reason_key(why, seen),
        selector: reason_selector(why, seen),
        path: None,
        text: text.as_str(),
    };
    json_line(alloc, &finding)
}

/// The path of the file that a finding speaks of, where it speaks of one.
fn trouble_path(what: &Trouble) -> Option<&str>
    ensures { option_map (λ text. chars text.now) result ≡ trouble_path what.now }
{
    match what {
        Trouble::Unpassed { file, .. } | Trouble::Noted { file, .. } => Some(file.as_str()),
        _ => None,
    }
}

/// What is said in JSON of a document with this number that is a request, as a line.
pub(crate) fn json_trouble(
    alloc: Global,
    number: u64,
    place: Place,
    what: &Trouble,
) -> Result<String, OutOfMemory>
    ensures { IfOk result (λ text. string_bytes text
        ≡ finding_line (trouble_tree number place what.now)) }
{
    let text = format!(in alloc; "{what}")?;
    let finding = Finding {
        document: number,
        place,
        cause: trouble_word(what),
        key: None,
        selector: None,
        path: trouble_path(what),
        text: text.as_str(),
    };
    json_line(alloc, &finding)
}
