//! Places in a text, kinds of characters, and what errors say.
use snap_content::{Lent, OutOfMemory, Text};
use snap_scan_tokens::characters::{
    Kind, before_nul, character_at, is_alpha, is_blank, is_blank_or_end, is_break, is_break_or_end,
    is_digit, is_flow_sign, is_uri,
};
use snap_scan_tokens::folding::Fold;
use snap_scan_tokens::{
    Cursor, Marker, ScanError, ScanInfo, TEncoding, TScalarStyle, Token, TokenType,
};
use std::process::Abort;
use std::test::Fail;

#[test]
fn characters_pass_one_by_one(rt: HostRuntime) {
    let mut cursor = Cursor::new("é\na\0b");
    assert_eq!(rt; cursor.rest(), "é\na");
    assert_eq!(rt; cursor.ch(), 'é');
    assert_eq!(rt; cursor.peek(2), 'a');
    assert_eq!(rt; cursor.peek(3), '\0');
    cursor.skip();
    assert_eq!(rt; place(cursor.mark()), (1, 1, 1));
    cursor.skip();
    assert_eq!(rt; place(cursor.mark()), (2, 2, 0));
    cursor.skip();
    cursor.force_line();
    assert_eq!(rt; place(cursor.mark()), (3, 3, 0));
    cursor.skip();
    assert_eq!(rt; place(cursor.mark()), (3, 3, 0));
}

/// The index, the line and the column of a mark.
fn place(mark: Marker) -> (usize, usize, usize) {
    (mark.index(), mark.line(), mark.col())
}

#[test]
fn runs_pass_at_once(rt: HostRuntime) {
    let mut cursor = Cursor::new(" \t# c\r\nx\ry");
    cursor.skip_comment();
    assert_eq!(rt; cursor.rest(), "\r\nx\ry");
    cursor.skip_break();
    assert_eq!(rt; place(cursor.mark()), (7, 2, 0));
    cursor.skip_while(Kind::Alpha);
    cursor.skip_break();
    assert_eq!(rt; place(cursor.mark()), (9, 2, 2));
}

#[test]
fn documents_begin_and_end_at_their_signs(rt: HostRuntime) {
    assert!(rt; Cursor::new("---\n").is_document_start());
    assert!(rt; !Cursor::new("---a").is_document_start());
    assert!(rt; Cursor::new("...").is_document_end());
    assert!(rt; Cursor::new("--- a").is_document_indicator());
}

#[test]
fn characters_have_kinds(rt: HostRuntime) {
    assert!(rt; is_break('\r') && !is_break(' '));
    assert!(rt; is_blank('\t') && !is_blank('\n'));
    assert!(rt; is_break_or_end('\0') && !is_break_or_end('\t'));
    assert!(rt; is_blank_or_end(' ') && !is_blank_or_end('a'));
    assert!(rt; is_flow_sign('{') && !is_flow_sign(':'));
    assert!(rt; is_digit('9') && !is_digit('a'));
    assert!(rt; is_alpha('_') && !is_alpha('é'));
    assert!(rt; is_uri('~') && !is_uri('%'));
    assert!(rt; Kind::Word.has('a') && !Kind::Word.has(':'));
    assert!(rt; Fold::Broken.is_folded() && !Fold::Inline.is_folded());
    assert_eq!(rt; character_at("aé", 1), 'é');
    assert_eq!(rt; before_nul("a\0b"), "a");
}

#[test]
fn errors_are_printed(rt: HostRuntime) -> Result<(), Fail> {
    let mut cursor = Cursor::new("a\nbc");
    cursor.skip_while(Kind::Word);
    cursor.skip_break();
    cursor.skip();
    for (info, text) in [
        (ScanInfo::S1, "simple key expect ':' at line 2 column 2"),
        (ScanInfo::S5, "unexpected character: ``' at line 2 column 2"),
        (
            ScanInfo::S28,
            "while scanning a block scalar, found a tab character where an indentation space is expected at line 2 column 2",
        ),
        (
            ScanInfo::S36,
            "mapping values are not allowed in this context at line 2 column 2",
        ),
        (
            ScanInfo::P1,
            "did not find expected <stream-start> at line 2 column 2",
        ),
        (ScanInfo::P9, "unexpected eof at line 2 column 2"),
    ] {
        let error = ScanError::new(cursor.mark(), info);
        let printed = format!(in rt.alloc(); "{error}")?;
        assert_eq!(rt; printed.as_str(), text);
    }
    assert_eq!(rt; ScanInfo::S23.text(), "recursion limit exceeded");
    assert_eq!(rt; ScanInfo::S25.text(), "\"-\" is only valid inside a block");
    let printed = format!(in rt.alloc(); "{}", ScanError::from(OutOfMemory))?;
    assert_eq!(rt; printed.as_str(), "OutOfMemory");
    Ok(())
}

#[test]
fn tokens_are_compared(rt: HostRuntime) -> Result<(), Fail> {
    let mark = Cursor::new("").mark();
    let start = Token(mark, TokenType::StreamStart(TEncoding::Utf8));
    assert!(rt; start == Token(mark, TokenType::StreamStart(TEncoding::Utf8)));
    let scalar = Token(
        mark,
        TokenType::Scalar(TScalarStyle::Plain, Lent::borrowed("a")),
    );
    assert!(rt; scalar != start);
    let anchor = TokenType::Anchor(Text::from_str(rt.alloc(), "a")?);
    assert!(rt; anchor != TokenType::Alias(Text::from_str(rt.alloc(), "a")?));
    Ok(())
}
