//! What is said of a document that is a request, as lines.
ghost use Rattle.std.specs.Prelude.{◌≡◌, ◌++◌, [], None, Some, IfOk, if◌then◌else◌, codes, decimal, encode_utf8_all, option_map, string_bytes};
ghost use Rattle.std.specs.Str.{chars};
ghost use Rattle.snap_explain.specs.Json.{earlier_line, finding_line, finding_tree, note_lines, outside_line, trouble_in, trouble_lines, word_line};
ghost use Rattle.snap_explain.specs.Refusals.{place_text};
ghost use Rattle.snap_explain.specs.Troubles.{trouble_line};

use crate::form::Form;
use crate::json::{Finding, json_line};
use crate::json_findings::json_trouble;
use crate::notes::Notes;
use crate::position::Place;
use crate::trouble::Trouble;
use snap_content::{OutOfMemory, Text};
use std::alloc::Global;

/// What is said in words of a document with this number, as a line.
fn plain_trouble(
    alloc: Global,
    number: u64,
    place: Place,
    what: &Trouble,
) -> Result<String, OutOfMemory>
    ensures { IfOk result (λ text. string_bytes text ≡ trouble_line number place what.now) }
{
    Ok(format!(in alloc; "document {number}, {place}: {what}\n")?)
}

/// What is said of a document with this number, as a line.
fn trouble_in(
    alloc: Global,
    form: Form,
    number: u64,
    place: Place,
    what: &Trouble,
) -> Result<String, OutOfMemory>
    ensures { IfOk result (λ text. string_bytes text ≡ trouble_in form number place what.now) }
{
    match form {
        Form::Plain => plain_trouble(alloc, number, place, what),
        Form::Json => json_trouble(alloc, number, place, what),
    }
}

/// A line on a request that passes, in words.
fn plain_word(
    alloc: Global,
    number: u64,
    place: Place,
    text: &str,
    path: &Text,
) -> Result<String, OutOfMemory>
    ensures { IfOk result (λ line. string_bytes line
        ≡ codes "document " ++ decimal number ++ codes ", " ++ place_text place ++ codes ": " ++ text.now
        ++ codes ": " ++ encode_utf8_all path.now ++ codes "\n") }
{
    Ok(format!(in alloc; "document {number}, {place}: {text}: {path}\n")?)
}

/// The path of a file, as a finding has it.
fn path_of(file: &Text) -> Option<&str>
    ensures { option_map (λ text. chars text.now) result ≡ Some file.now }
{
    Some(file.as_str())
}

/// A line on a request that passes, in JSON.
fn json_word(
    alloc: Global,
    number: u64,
    place: Place,
    word: &'static str,
    text: &str,
    file: &Text,
    path: &Text,
) -> Result<String, OutOfMemory>
    ensures { IfOk result (λ line. string_bytes line
        ≡ finding_line (finding_tree number place (chars word.now) None None (Some file.now)
        (chars (text.now ++ codes ": " ++ encode_utf8_all path.now)))) }
{
    let text = format!(in alloc; "{text}: {path}")?;
    let finding = Finding {
        document: number,
        place,
        cause: word,
        key: None,
        selector: None,
        path: path_of(file),
        text: text.as_str(),
    };
    json_line(alloc, &finding)
}

/// A line on a request that passes: its word as JSON has it, what it says, and the path of the file, as it is and as a scalar is spelled.
fn word_line(
    alloc: Global,
    form: Form,
    number: u64,
    place: Place,
    word: &'static str,
    text: &str,
    file: &Text,
    path: &Text,
) -> Result<String, OutOfMemory>
    ensures { IfOk result (λ line. string_bytes line
        ≡ word_line form number place word.now text.now file.now path.now) }
{
    match form {
        Form::Plain => plain_word(alloc, number, place, text, path),
        Form::Json => json_word(alloc, number, place, word, text, file, path),
    }
}

/// The line on the file of a request that passes, where one of its words holds.
fn file_line(
    alloc: Global,
    form: Form,
    number: u64,
    place: Place,
    holds: bool,
    what: &Trouble,
) -> Result<String, OutOfMemory>
    ensures { IfOk result (λ line. string_bytes line
        ≡ (if holds then trouble_in form number place what.now else [])) }
{
    if holds {
        trouble_in(alloc, form, number, place, what)
    } else {
        Ok(String::new(alloc))
    }
}

/// The line on the earlier document that asks for the same path, where there is one.
fn earlier_line(
    alloc: Global,
    form: Form,
    number: u64,
    place: Place,
    earlier: Option<u64>,
    file: &Text,
    path: &Text,
) -> Result<String, OutOfMemory>
    ensures { IfOk result (λ line. string_bytes line
        ≡ earlier_line form number place earlier file.now path.now) }
{
    match earlier {
        None => Ok(String::new(alloc)),
        Some(earlier) => {
            let text = format!(in alloc; "passes; document {earlier} asks for it too")?;
            let text = text.as_str();
            word_line(alloc, form, number, place, "asked-twice", text, file, path)
        }
    }
}

/// The line on a path that leaves the workspace.
fn outside_line(
    alloc: Global,
    form: Form,
    number: u64,
    place: Place,
    outside: bool,
    file: &Text,
    path: &Text,
) -> Result<String, OutOfMemory>
    ensures { IfOk result (λ line. string_bytes line
        ≡ outside_line form number place outside file.now path.now) }
{
    if outside {
        let text = "passes; it leaves the workspace";
        word_line(
            alloc,
            form,
            number,
            place,
            "outside-workspace",
            text,
            file,
            path,
        )
    } else {
        Ok(String::new(alloc))
    }
}

/// All lines on a request that passes, of which this is to be said.
fn note_lines(
    alloc: Global,
    form: Form,
    number: u64,
    place: Place,
    what: &Trouble,
    notes: Notes,
    file: &Text,
    path: &Text,
) -> Result<String, OutOfMemory>
    requires { what.now ≡ Trouble.Noted notes file.now path.now }
    ensures { IfOk result (λ lines. string_bytes lines
        ≡ note_lines form number place notes file.now path.now) }
{
    let first = file_line(alloc, form, number, place, notes.has_file_word(), what)?;
    let earlier = earlier_line(alloc, form, number, place, notes.earlier, file, path)?;
    let outside = outside_line(alloc, form, number, place, notes.outside, file, path)?;
    Ok(format!(in alloc; "{first}{earlier}{outside}")?)
}

/// What is said of a document with this number, as lines: one, but for a request that passes, of which each word has its own.
pub(crate) fn trouble_lines(
    alloc: Global,
    form: Form,
    number: u64,
    place: Place,
    what: &Trouble,
) -> Result<String, OutOfMemory>
    ensures { IfOk result (λ lines. string_bytes lines
        ≡ trouble_lines form number place what.now) }
{
    match what {
        Trouble::Noted { notes, file, path } => {
            note_lines(alloc, form, number, place, what, *notes, file, path)
        }
        _ => trouble_in(alloc, form, number, place, what),
    }
}
