//! Events handed on to receivers.
use snap_content::{OutOfMemory, Text};
use snap_parse_events::{Event, EventReceiver, LoadError, MarkedEventReceiver, Parser};
use snap_scan_tokens::{Marker, ScanError, ScanInfo};
use std::alloc::{AllocError, Global};
use std::process::Abort;
use std::test::Fail;

/// Counts its events, and finds no memory for those after a limit.
#[derive(Drop)]
struct Counting {
    count: usize,
    limit: usize,
}

impl EventReceiver for Counting {
    fn on_event(&mut self, _ev: Event<'_>) -> Result<(), OutOfMemory> {
        if self.count >= self.limit {
            return Err(OutOfMemory);
        }
        self.count = self.count.saturating_add(1);
        Ok(())
    }
}

fn up_to(limit: usize) -> Counting {
    Counting { count: 0, limit }
}

#[test]
fn all_events_of_a_text_are_handed_on(rt: HostRuntime) {
    let mut parser = Parser::new(rt.alloc(), "a");
    let mut receiver = up_to(100);
    assert_eq!(rt; parser.load(&mut receiver, true), Ok(()));
    assert_eq!(rt; receiver.count, 5);
    assert_eq!(rt; parser.load(&mut receiver, true), Ok(()));
    assert_eq!(rt; receiver.count, 6);
    assert_eq!(rt; parser.load(&mut receiver, false), Ok(()));
    assert_eq!(rt; receiver.count, 7);
}

#[test]
fn an_open_document_is_not_loaded(rt: HostRuntime) {
    let mut parser = Parser::new(rt.alloc(), "a");
    let mut receiver = up_to(100);
    let _ = parser.next();
    assert!(rt; is_event(&mut parser, &Event::DocumentStart));
    assert_eq!(rt;
        parser.load(&mut receiver, true),
        Err(LoadError::InsideDocument)
    );
    assert_eq!(rt; receiver.count, 0);
    let _ = parser.next();
    assert!(rt; is_event(&mut parser, &Event::DocumentEnd));
    assert_eq!(rt; parser.load(&mut receiver, true), Ok(()));
    assert_eq!(rt; receiver.count, 1);
}

fn is_event(parser: &mut Parser, wanted: &Event) -> bool {
    match parser.next() {
        Ok((event, _)) => event == *wanted,
        Err(_) => false,
    }
}

#[test]
fn a_receiver_that_finds_no_memory_stops_loading(rt: HostRuntime) {
    let mut parser = Parser::new(rt.alloc(), "a");
    let mut receiver = up_to(2);
    assert_eq!(rt;
        parser.load(&mut receiver, true),
        Err(LoadError::OutOfMemory)
    );
    assert_eq!(rt; receiver.count, 2);
    assert_eq!(rt;
        parser.load(&mut receiver, true),
        Err(LoadError::InsideDocument)
    );
    assert!(rt; is_event(&mut parser, &Event::DocumentEnd));
}

/// Writes a letter for each event, and the columns of marks.
#[derive(Drop)]
struct Letters {
    alloc: Global,
    text: Text,
}

impl MarkedEventReceiver for Letters {
    fn on_event(&mut self, ev: Event<'_>, mark: Marker) -> Result<(), OutOfMemory> {
        self.text.push_str(self.alloc, letter(&ev))?;
        let digit = if mark.col() == 0 { "0" } else { "1" };
        self.text.push_str(self.alloc, digit)
    }
}

fn letter(event: &Event) -> &'static str {
    match event {
        Event::StreamStart => "<",
        Event::StreamEnd => ">",
        Event::DocumentStart => "d",
        Event::DocumentEnd => ".",
        Event::Alias(_) => "*",
        Event::Scalar(_, _, _, _) => "s",
        Event::SequenceStart(_) => "[",
        Event::SequenceEnd => "]",
        Event::MappingStart(_) => "{",
        Event::MappingEnd => "}",
    }
}

fn writing(alloc: Global) -> Letters {
    Letters {
        alloc,
        text: Text::empty(),
    }
}

const DOCUMENTS: &str = "--- [a]\n--- {b: c}\n";

#[test]
fn one_by_one_gives_what_all_give(rt: HostRuntime) {
    let mut all = writing(rt.alloc());
    let mut parser = Parser::new(rt.alloc(), DOCUMENTS);
    assert_eq!(rt; parser.load(&mut all, true), Ok(()));
    assert_eq!(rt; all.text.as_str(), "<0d0[1s1]1.0d0{1s1s1}1.0>0");
    let mut each = writing(rt.alloc());
    let mut parser = Parser::new(rt.alloc(), DOCUMENTS);
    assert_eq!(rt; parser.load(&mut each, false), Ok(()));
    assert_eq!(rt; each.text.as_str(), "<0d0[1s1]1.0");
    assert_eq!(rt; parser.load(&mut each, false), Ok(()));
    assert_eq!(rt; parser.load(&mut each, false), Ok(()));
    assert_eq!(rt; each.text.as_str(), all.text.as_str());
}

/// The number of the refusal of a text whose second document has an alias of the first one's anchor.
const ALIAS_BEHIND: &str = "--- &x a\n--- *x\n";

#[test]
fn names_are_forgotten_between_documents(rt: HostRuntime) {
    let mut parser = Parser::new(rt.alloc(), ALIAS_BEHIND);
    let mut receiver = up_to(100);
    match parser.load(&mut receiver, true) {
        Err(LoadError::Scan(ScanError::Syntax(_, info))) => assert_eq!(rt; info, ScanInfo::P3),
        _ => assert!(rt; false),
    }
    assert_eq!(rt; receiver.count, 5);
}

#[test]
fn a_refusal_is_printed_with_its_place(rt: HostRuntime) -> Result<(), AllocError> {
    let mut parser = Parser::new(rt.alloc(), ALIAS_BEHIND);
    let mut receiver = up_to(100);
    match parser.load(&mut receiver, true) {
        Err(error) => {
            let shown = format!(in rt.alloc(); "{error}")?;
            let wanted = "while parsing node, found unknown anchor at line 2 column 5";
            assert_eq!(rt; shown.as_str(), wanted);
        }
        Ok(()) => assert!(rt; false),
    }
    Ok(())
}

#[test]
fn a_refusal_is_kept_for_good(rt: HostRuntime) {
    let mut parser = Parser::new(rt.alloc(), "a: b: c");
    let mut receiver = up_to(100);
    let first = parser.load(&mut receiver, true);
    assert!(rt; matches!(first, Err(LoadError::Scan(_))));
    let count = receiver.count;
    assert!(rt; parser.next().is_err());
    assert_eq!(rt; receiver.count, count);
}

#[test]
fn names_last_where_events_are_asked_for_one_by_one(rt: HostRuntime) {
    let mut parser = Parser::new(rt.alloc(), ALIAS_BEHIND);
    for _ in 0..5usize {
        assert!(rt; parser.next().is_ok());
    }
    assert!(rt; is_event(&mut parser, &Event::Alias(1)));
}

/// A hundred thousand times `- `.
fn deep(alloc: Global) -> Result<Text, OutOfMemory> {
    let mut text = Text::empty();
    for _ in 0..100_000u32 {
        text.push_str(alloc, "- ")?;
    }
    Ok(text)
}

#[test]
fn deep_texts_need_no_deep_stack(rt: HostRuntime) -> Result<(), OutOfMemory> {
    let text = deep(rt.alloc())?;
    let mut parser = Parser::new(rt.alloc(), text.as_str());
    let mut receiver = up_to(1_000_000);
    assert_eq!(rt; parser.load(&mut receiver, true), Ok(()));
    assert_eq!(rt; receiver.count, 200_005);
    Ok(())
}
