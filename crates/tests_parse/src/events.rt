//! Events one by one: what ends a stream comes again.
use snap_parse_events::{Event, Parser};

#[test]
fn an_error_comes_again(rt: HostRuntime) {
    let mut parser = Parser::new(rt.alloc(), "}");
    let _ = parser.next();
    let _ = parser.next();
    let first = parser.next();
    assert!(rt; first.is_err());
    assert_eq!(rt; parser.next(), first);
}

/// Whether the next event is the end of the stream.
fn is_at_end(parser: &mut Parser) -> bool {
    match parser.next() {
        Ok((event, _)) => event == Event::StreamEnd,
        Err(_) => false,
    }
}

#[test]
fn the_end_of_the_stream_comes_again(rt: HostRuntime) {
    let mut parser = Parser::new(rt.alloc(), "");
    assert!(rt; !is_at_end(&mut parser));
    assert!(rt; is_at_end(&mut parser));
    assert!(rt; is_at_end(&mut parser));
}
