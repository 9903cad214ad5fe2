//! The texts of a request.
ghost use Rattle.std.specs.Prelude.{◌≡◌, ◌++◌, ◌/◌, ◌%◌, ◌<◌, ◌^◌, IfOk, OnOk};
ghost use Rattle.std.specs.Fmt.{decimal};
ghost use Rattle.snap_demo.specs.Requests.{demo_file, demo_name, note_of};

use snap_content::{OutOfMemory, Text};
use std::alloc::Global;

/// Adds the decimal digits of a number at the end.
pub(crate) fn push_number(text: &mut Text, alloc: Global, number: u128) -> Result<(), OutOfMemory>
    ensures { OnOk result (text.new ≡ text.old ++ decimal number) }
{
    let digits = format!(in alloc; "{number}")?;
    text.push_ascii(alloc, digits.as_str())
}

/// The source file of the request with this number, counted from 0: a hundred requests share a folder.
pub(crate) fn source_file(alloc: Global, index: u32) -> Result<Text, OutOfMemory>
    ensures { IfOk result (λ text. text ≡ demo_file index) }
{
    let mut text = Text::from_ascii(alloc, "src/d")?;
    push_number(&mut text, alloc, u128::from(index / 100))?;
    text.push_ascii(alloc, "/demo.rs")?;
    Ok(text)
}

/// The name of the request with this number, counted from 0.
pub(crate) fn request_name(alloc: Global, index: u32) -> Result<Text, OutOfMemory>
    ensures { IfOk result (λ text. text ≡ demo_name index) }
{
    let mut text = Text::from_ascii(alloc, "r")?;
    push_number(&mut text, alloc, u128::from(index))?;
    Ok(text)
}

/// The note of a request, by its number: four texts in turn, two of which need quotes.
pub(crate) fn note(alloc: Global, number: u64) -> Result<Text, OutOfMemory>
    ensures { IfOk result (λ text. text ≡ note_of (number / 4 % 4)) }
{
    match number / 4 % 4 {
        0 => Text::from_ascii(alloc, "plain"),
        1 => Text::from_ascii(alloc, "0o17"),
        2 => Text::from_ascii(alloc, "two words"),
        _ => Text::from_ascii(alloc, "a: b"),
    }
}
