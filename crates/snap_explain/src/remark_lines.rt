//! What is said of a request, as lines: of what it comes to, and of what is seen in it.
ghost use Rattle.std.specs.Prelude.{◌≡◌, ◌++◌, [], None, IfOk, codes, decimal, encode_utf8_all, if◌then◌else◌, string_bytes};
ghost use Rattle.std.specs.Str.{chars};
ghost use Rattle.snap_explain.specs.Json.{finding_line, finding_tree, trouble_lines};
ghost use Rattle.snap_explain.specs.Refusals.{place_text};
ghost use Rattle.snap_explain.specs.Remarks.{lines_behind, lines_on, missed_line, missed_text, remark_line, remark_lines, scalar_line, scalar_text, twice_line};

use crate::form::Form;
use crate::json::{Finding, json_line};
use crate::position::Place;
use crate::remarks::{Remarks, Scalar};
use crate::trouble::Trouble;
use crate::trouble_lines::trouble_lines;
use snap_content::OutOfMemory;
use std::alloc::Global;

/// A line in words.
fn plain_remark(alloc: Global, number: u64, place: Place, text: &str) -> Result<String, OutOfMemory>
    ensures { IfOk result (λ line. string_bytes line
        ≡ codes "document " ++ decimal number ++ codes ", " ++ place_text place ++ codes ": " ++ text.now ++ codes "\n") }
{
    Ok(format!(in alloc; "document {number}, {place}: {text}\n")?)
}

/// A line in JSON.
fn json_remark(
    alloc: Global,
    number: u64,
    place: Place,
    word: &'static str,
    text: &str,
) -> Result<String, OutOfMemory>
    ensures { IfOk result (λ line. string_bytes line
        ≡ finding_line (finding_tree number place (chars word.now) None None None (chars text.now))) }
{
    let finding = Finding {
        document: number,
        place,
        cause: word,
        key: None,
        selector: None,
        path: None,
        text,
    };
    json_line(alloc, &finding)
}

/// A line that tells this of a request that passes: its word as JSON has it, and what it says.
fn remark_line(
    alloc: Global,
    form: Form,
    number: u64,
    place: Place,
    word: &'static str,
    text: &str,
) -> Result<String, OutOfMemory>
    ensures { IfOk result (λ line. string_bytes line
        ≡ remark_line form number place word.now text.now) }
{
    match form {
        Form::Plain => plain_remark(alloc, number, place, text),
        Form::Json => json_remark(alloc, number, place, word, text),
    }
}

/// What is said of the redaction at this place of the list, which hits nothing.
fn missed_text(alloc: Global, missed: usize) -> Result<String, OutOfMemory>
    ensures { IfOk result (λ text. string_bytes text ≡ missed_text missed) }
{
    Ok(format!(in alloc; "passes; redactions[{missed}] hits nothing in its value")?)
}

/// The line on a redaction that hits nothing, where there is one.
fn missed_line(
    alloc: Global,
    form: Form,
    number: u64,
    place: Place,
    missed: Option<usize>,
) -> Result<String, OutOfMemory>
    ensures { IfOk result (λ line. string_bytes line ≡ missed_line form number place missed) }
{
    match missed {
        None => Ok(String::new(alloc)),
        Some(missed) => {
            let text = missed_text(alloc, missed)?;
            remark_line(
                alloc,
                form,
                number,
                place,
                "missed-redaction",
                text.as_str(),
            )
        }
    }
}

/// The line on a key that stands twice, where one does.
fn twice_line(
    alloc: Global,
    form: Form,
    number: u64,
    place: Place,
    twice: bool,
) -> Result<String, OutOfMemory>
    ensures { IfOk result (λ line. string_bytes line ≡ twice_line form number place twice) }
{
    if twice {
        let text = "passes; a map in its value has a key twice";
        remark_line(alloc, form, number, place, "value-key-twice", text)
    } else {
        Ok(String::new(alloc))
    }
}

/// What is said of a scalar that other readers take otherwise.
fn scalar_text(alloc: Global, scalar: &Scalar) -> Result<String, OutOfMemory>
    ensures { IfOk result (λ text. string_bytes text ≡ scalar_text scalar.now) }
{
    let how = scalar.otherwise.text();
    Ok(format!(in alloc; "passes; {} is {how}", scalar.text)?)
}

/// The line on a scalar that other readers take otherwise, where there is one.
fn scalar_line(
    alloc: Global,
    form: Form,
    number: u64,
    scalar: &Option<Scalar>,
) -> Result<String, OutOfMemory>
    ensures { IfOk result (λ line. string_bytes line ≡ scalar_line form number scalar.now) }
{
    match scalar {
        None => Ok(String::new(alloc)),
        Some(scalar) => {
            let text = scalar_text(alloc, scalar)?;
            remark_line(
                alloc,
                form,
                number,
                scalar.place,
                "read-otherwise",
                text.as_str(),
            )
        }
    }
}

/// All lines on what is seen in a request that passes.
fn remark_lines(
    alloc: Global,
    form: Form,
    number: u64,
    place: Place,
    remarks: &Remarks,
) -> Result<String, OutOfMemory>
    ensures { IfOk result (λ lines. string_bytes lines ≡ remark_lines form number place remarks.now) }
{
    let missed = missed_line(alloc, form, number, place, remarks.missed)?;
    let twice = twice_line(alloc, form, number, place, remarks.twice)?;
    let scalar = scalar_line(alloc, form, number, &remarks.scalar)?;
    Ok(format!(in alloc; "{missed}{twice}{scalar}")?)
}

/// The lines on what is seen in a request of which this is to be said besides: none where it doesn't pass.
fn lines_behind(
    alloc: Global,
    form: Form,
    number: u64,
    place: Place,
    what: &Trouble,
    remarks: &Remarks,
) -> Result<String, OutOfMemory>
    ensures { IfOk result (λ lines. string_bytes lines
        ≡ lines_behind form number place what.now remarks.now) }
{
    match what {
        Trouble::Noted { .. } => remark_lines(alloc, form, number, place, remarks),
        _ => Ok(String::new(alloc)),
    }
}

/// All lines on a request of which this is to be said.
fn all_lines(
    alloc: Global,
    form: Form,
    number: u64,
    place: Place,
    what: &Trouble,
    remarks: &Remarks,
) -> Result<String, OutOfMemory>
    ensures { IfOk result (λ lines. string_bytes lines
        ≡ trouble_lines form number place what.now ++ lines_behind form number place what.now remarks.now) }
{
    let front = trouble_lines(alloc, form, number, place, what)?;
    let behind = lines_behind(alloc, form, number, place, what, remarks)?;
    Ok(format!(in alloc; "{front}{behind}")?)
}

/// All lines on a request: on what it comes to, where something is to be said of that, and on what is seen in it, where it passes.
pub(crate) fn lines_on(
    alloc: Global,
    form: Form,
    number: u64,
    place: Place,
    found: &Option<Trouble>,
    remarks: &Remarks,
) -> Result<String, OutOfMemory>
    ensures { IfOk result (λ lines. string_bytes lines
        ≡ lines_on form number place found.now remarks.now) }
{
    match found {
        None => remark_lines(alloc, form, number, place, remarks),
        Some(what) => all_lines(alloc, form, number, place, what, remarks),
    }
}
