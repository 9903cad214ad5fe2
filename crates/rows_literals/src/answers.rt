//! What an assertion came to.
use rows::add_text_column;
use snap_assert::{AssertError, Outcome, Verdict, Warning};
use snap_content::{OutOfMemory, Text};
use std::alloc::Global;

fn verdict_name(verdict: Verdict) -> &'static str {
    match verdict {
        Verdict::Passed => "Passed",
        Verdict::Updated => "Updated",
        Verdict::Pending => "Pending",
        Verdict::Rejected => "Rejected",
    }
}

fn warning_name(warning: &Warning) -> &'static str {
    match warning {
        Warning::LegacyFile => " LegacyFile",
        Warning::NumberAsText => " NumberAsText",
        Warning::Unreadable(_) => " Unreadable",
        Warning::LegacyContents => " LegacyContents",
        Warning::OpenLiteral => " OpenLiteral",
        Warning::InlineInDoctest => " InlineInDoctest",
    }
}

/// The verdict, and the warnings in their order.
fn outcome_text(alloc: Global, outcome: &Outcome) -> Result<Text, OutOfMemory> {
    let mut told = Text::from_str(alloc, verdict_name(outcome.verdict))?;
    for index in 0..outcome.warnings.len() {
        if let Some(warning) = outcome.warnings.get(index) {
            told.push_str(alloc, warning_name(warning))?;
        }
    }
    Ok(told)
}

fn add_outcome(alloc: Global, line: &mut Text, outcome: &Outcome) -> Result<(), OutOfMemory> {
    let told = outcome_text(alloc, outcome)?;
    add_text_column(alloc, line, told.as_str())
}

/// Why there is no verdict; of a fault also the path that it names.
fn add_refusal(alloc: Global, line: &mut Text, error: &AssertError) -> Result<(), OutOfMemory> {
    if let AssertError::FileIo(path) = error {
        let told = format!(in alloc; "! {error} {}", path.as_str())?;
        return add_text_column(alloc, line, told.as_str());
    }
    let told = format!(in alloc; "! {error}")?;
    add_text_column(alloc, line, told.as_str())
}

/// Adds the verdict with the warnings, or why there is none.
pub(crate) fn add_answer(
    alloc: Global,
    line: &mut Text,
    answer: &Result<Outcome, AssertError>,
) -> Result<(), OutOfMemory> {
    match answer {
        Ok(outcome) => add_outcome(alloc, line, outcome),
        Err(error) => add_refusal(alloc, line, error),
    }
}
