//! What the parser makes of a text, as lines.
ghost use Rattle.std.specs.Prelude.{◌≡◌, ◌<◌, IfOk, true};
ghost use Rattle.snap_parse_events.specs.Meaning.{is_stream_end};
ghost use Rattle.snap_parse_events.specs.Parsing.{events_left};

use crate::marks::{add_mark, add_refusal, add_style};
use rows::add_text_column;
use snap_content::{OutOfMemory, Text};
use snap_parse_events::{Event, Parser};
use snap_scan_tokens::{Marker, Tag};
use std::alloc::Global;

/// A line for each event, `MARK NAME` and its fields, up to StreamEnd; or `! MARK CODE` where the text is refused.
/// A mark is its index, line and column.
pub(crate) fn event_lines(alloc: Global, text: &str) -> Result<Text, OutOfMemory> {
    let mut lines = Text::empty();
    let mut parser = Parser::new(alloc, text);
    'events: while add_next(alloc, &mut lines, &mut parser)? {}
    Ok(lines)
}

/// Adds the line of the next event, and says whether further ones are to come.
fn add_next(alloc: Global, lines: &mut Text, parser: &mut Parser) -> Result<bool, OutOfMemory>
    ensures { IfOk result (λ more. more ≡ true → events_left parser.new < events_left parser.old) }
{
    match parser.next() {
        Ok((event, mark)) => {
            add_event(alloc, lines, &event, mark)?;
            Ok(!is_end(&event))
        }
        Err(error) => {
            add_refusal(alloc, lines, &error)?;
            Ok(false)
        }
    }
}

fn is_end(event: &Event) -> bool
    ensures { result ≡ is_stream_end event.now }
{
    matches!(event, Event::StreamEnd)
}

fn add_event(
    alloc: Global,
    lines: &mut Text,
    event: &Event,
    mark: Marker,
) -> Result<(), OutOfMemory> {
    add_mark(alloc, lines, mark)?;
    lines.push_str(alloc, " ")?;
    lines.push_str(alloc, name(event))?;
    add_fields(alloc, lines, event)?;
    lines.push_str(alloc, "\n")
}

fn name(event: &Event) -> &'static str {
    match event {
        Event::StreamStart => "StreamStart",
        Event::StreamEnd => "StreamEnd",
        Event::DocumentStart => "DocumentStart",
        Event::DocumentEnd => "DocumentEnd",
        Event::Alias(_) => "Alias",
        Event::Scalar(_, _, _, _) => "Scalar",
        Event::SequenceStart(_) => "SequenceStart",
        Event::SequenceEnd => "SequenceEnd",
        Event::MappingStart(_) => "MappingStart",
        Event::MappingEnd => "MappingEnd",
    }
}

/// Adds the fields of an event, a tab before each.
fn add_fields(alloc: Global, lines: &mut Text, event: &Event) -> Result<(), OutOfMemory> {
    match event {
        Event::Alias(id) | Event::SequenceStart(id) | Event::MappingStart(id) => {
            add_number(alloc, lines, *id)
        }
        Event::Scalar(text, style, id, tag) => {
            add_text_column(alloc, lines, text.as_str())?;
            add_style(alloc, lines, *style)?;
            add_number(alloc, lines, *id)?;
            add_tag(alloc, lines, tag)
        }
        _ => Ok(()),
    }
}

fn add_tag(alloc: Global, lines: &mut Text, tag: &Option<Tag>) -> Result<(), OutOfMemory> {
    match tag {
        None => Ok(()),
        Some(tag) => {
            add_text_column(alloc, lines, tag.handle().as_str())?;
            add_text_column(alloc, lines, tag.suffix().as_str())
        }
    }
}

fn add_number(alloc: Global, lines: &mut Text, number: usize) -> Result<(), OutOfMemory> {
    let digits = format!(in alloc; "\t{number}")?;
    lines.push_str(alloc, digits.as_str())
}
