//! What is printed of headers.
use crate::prints::add_printed;
use crate::refusals::refusal_line;
use snap_content::{OutOfMemory, Text};
use snap_emit::{Header, parse_header};
use std::alloc::Global;

/// Whether a number in the header is kept as its text, and what is printed of its tree; or why the text is refused.
pub(crate) fn header_line(alloc: Global, text: &str) -> Result<Text, OutOfMemory> {
    let path = Text::from_str(alloc, "a.snap")?;
    match parse_header(alloc, text, &path) {
        Ok(header) => told_line(alloc, &header),
        Err(error) => refusal_line(alloc, &error),
    }
}

fn told_line(alloc: Global, header: &Header) -> Result<Text, OutOfMemory> {
    let kept = if header.number_as_text {
        "true\t"
    } else {
        "false\t"
    };
    let mut line = Text::from_ascii(alloc, kept)?;
    add_printed(alloc, &mut line, &header.content, false)?;
    Ok(line)
}
