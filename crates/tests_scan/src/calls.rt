//! The calls of a scanner, in any order, and what they tell.
use snap_content::Lent;
use snap_scan::{
    ScanError, ScanInfo, ScanResult, Scanner, TEncoding, TScalarStyle, Token, TokenType,
};
use std::alloc::Global;
use std::test::Fail;

/// Asks for tokens ahead, each time in another way.
fn fetch_ahead(scanner: &mut Scanner, round: usize) -> ScanResult {
    match round % 4 {
        1 => scanner.fetch_next_token(),
        2 => scanner.fetch_more_tokens(),
        3 => fetch_twice(scanner),
        _ => Ok(()),
    }
}

fn fetch_twice(scanner: &mut Scanner) -> ScanResult {
    scanner.fetch_next_token()?;
    scanner.fetch_more_tokens()
}

/// Whether a scanner gives this token when more than it was fetched.
fn gives(scanner: &mut Scanner, expected: &Token, round: usize) -> Result<bool, ScanError> {
    fetch_ahead(scanner, round)?;
    match scanner.next_token()? {
        Some(token) => Ok(token == *expected),
        None => Ok(false),
    }
}

/// Whether a scanner has given all, and has come to where another one is.
fn is_at_end(scanner: &mut Scanner, other: &Scanner) -> Result<bool, ScanError> {
    fetch_ahead(scanner, 3)?;
    let last = scanner.next_token()?;
    Ok(last.is_none() && scanner.stream_ended() && scanner.mark() == other.mark())
}

/// Whether a scanner whose calls are mixed gives the tokens that `next` alone gives.
fn gives_the_same(alloc: Global, source: &str) -> Result<bool, ScanError> {
    let mut plain = Scanner::new(alloc, source);
    let mut mixed = Scanner::new(alloc, source);
    let mut round: usize = 0;
    'tokens: while let Some(expected) = plain.next() {
        if !gives(&mut mixed, &expected, round)? {
            return Ok(false);
        }
        round = round.wrapping_add(1);
    }
    is_at_end(&mut mixed, &plain)
}

#[test]
fn mixed_calls_give_the_same_tokens(rt: HostRuntime) -> Result<(), Fail> {
    for source in [
        "",
        "a",
        "a: [1, {b: c}]\nd: |\n  e\n",
        "? a\n: - b\n  - \"c\"\n",
        "%YAML 1.2\n--- !!str &x 'a'\n...\n--- *x\n",
        "[a, 'b': c, {d}]",
        "- - - a\n  - b\n- c\n",
        "a: 1\0b",
    ] {
        assert!(rt; gives_the_same(rt.alloc(), source)?, "{source:?}");
    }
    Ok(())
}

/// The text of a token that is a scalar.
fn scalar_of<'a>(token: Token<'a>) -> Option<Lent<'a>> {
    match token {
        Token(_mark, TokenType::Scalar(_style, text)) => Some(text),
        _other => None,
    }
}

/// The last scalar of a text, whose scanner is gone.
fn last_scalar<'a>(alloc: Global, source: &'a str) -> Option<Lent<'a>> {
    let mut scanner = Scanner::new(alloc, source);
    let mut found = None;
    'tokens: while let Some(token) = scanner.next() {
        if let Some(text) = scalar_of(token) {
            found = Some(text);
        }
    }
    found
}

fn ends_with_scalar(alloc: Global, source: &str, text: &str) -> bool {
    match &last_scalar(alloc, source) {
        Some(found) => found.as_str() == text,
        None => false,
    }
}

#[test]
fn a_scalar_outlives_its_scanner(rt: HostRuntime) -> Result<(), Fail> {
    for (source, text) in [("a: b c", "b c"), ("[a, 'b']", "b"), ("a: 1\0b: 2", "1")] {
        assert!(rt; ends_with_scalar(rt.alloc(), source, text), "{source:?}");
    }
    Ok(())
}

/// Whether a token stands at this place among the three of the text `a`.
fn is_of_a(token: &Option<Token>, place: usize) -> bool {
    match token {
        Some(Token(_mark, TokenType::StreamStart(TEncoding::Utf8))) => place == 0,
        Some(Token(_mark, TokenType::Scalar(TScalarStyle::Plain, text))) => {
            place == 1 && text.as_str() == "a"
        }
        Some(Token(_mark, TokenType::StreamEnd)) => place == 2,
        _ => false,
    }
}

#[test]
fn a_scanner_tells_when_its_stream_starts_and_ends(rt: HostRuntime) -> Result<(), Fail> {
    let mut scanner = Scanner::new(rt.alloc(), "a");
    assert!(rt; !scanner.stream_started() && !scanner.stream_ended());
    fetch_twice(&mut scanner)?;
    assert!(rt; scanner.stream_started() && !scanner.stream_ended());
    for place in [0, 1, 2] {
        assert!(rt; !scanner.stream_ended(), "{place}");
        let token = scanner.next_token()?;
        assert!(rt; is_of_a(&token, place), "{place}");
    }
    fetch_twice(&mut scanner)?;
    assert!(rt; scanner.stream_ended() && scanner.next_token()?.is_none());
    Ok(())
}

/// Fetches up to the failure of a text.
fn failed<'a>(alloc: Global, source: &'a str) -> Scanner<'a> {
    let mut scanner = Scanner::new(alloc, source);
    'tokens: while let Some(_token) = scanner.next() {}
    scanner
}

/// The error that one of the three calls answers that can answer one.
fn error_of(scanner: &mut Scanner, call: usize) -> Option<ScanError> {
    match call {
        0 => scanner.fetch_next_token().err(),
        1 => scanner.fetch_more_tokens().err(),
        _ => scanner.next_token().err(),
    }
}

#[test]
fn each_call_answers_the_first_failure_for_good(rt: HostRuntime) -> Result<(), Fail> {
    let mut scanner = failed(rt.alloc(), "}: a\n\"b");
    let failure = scanner.get_error();
    let mark = scanner.mark();
    assert_eq!(rt; failure, Some(ScanError::new(mark, ScanInfo::S36)));
    assert_eq!(rt; (mark.index(), mark.line(), mark.col()), (1, 1, 1));
    for call in [0, 1, 2, 0, 1, 2] {
        assert_eq!(rt; error_of(&mut scanner, call), failure, "{call}");
        assert!(rt; scanner.next().is_none() && scanner.get_error() == failure);
        assert_eq!(rt; scanner.mark(), mark, "{call}");
    }
    Ok(())
}
