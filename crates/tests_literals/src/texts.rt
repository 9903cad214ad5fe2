//! Outside vectors: each call once with ample memory, and each rule's plainest cases.
use snap_text_literals::frame::inline_legacy_text;
use snap_text_literals::inline::inline_normal_text;
use snap_text_literals::legacy::legacy_text;
use snap_text_literals::literal::{from_inline_literal, to_inline};
use snap_text_literals::normal::normal_text;
use snap_text_literals::{
    LiteralError, literal_is_open, min_indentation, normalize_inline, read_literal, required_hashes,
};
use std::test::Fail;

#[test]
fn literals(rt: HostRuntime) -> Result<(), Fail> {
    let alloc = rt.alloc();
    for (source, text) in [
        ("\"\"", ""),
        ("\"a\\n\\t\\r\\0\\\\\\\"\\'b\"", "a\n\t\r\0\\\"'b"),
        (
            "\"\\x41\\x7f\\u{e9}\\u{10ffff}\"",
            "A\u{7f}\u{e9}\u{10ffff}",
        ),
        ("\"a\\\n \t\n  b\"", "ab"),
        ("r\"a\\n\"", "a\\n"),
        ("r##\"a\"#b\"##", "a\"#b"),
    ] {
        assert_eq!(rt; read_literal(alloc, source)?.as_str(), text);
    }
    Ok(())
}

#[test]
fn refusals(rt: HostRuntime) -> Result<(), Fail> {
    let alloc = rt.alloc();
    for source in [
        "",
        "\"a\"b",
        "\"a\rb\"",
        "\"\\x80\"",
        "\"\\u{d800}\"",
        "r#\"a\"",
    ] {
        assert!(rt; matches!(&read_literal(alloc, source), Err(LiteralError::NotLiteral)));
    }
    Ok(())
}

#[test]
fn spellings(rt: HostRuntime) -> Result<(), Fail> {
    let alloc = rt.alloc();
    for (text, indentation, literal) in [
        ("hello\n\rworld", "", "\"hello\\n\\rworld\""),
        ("a\nb", "  ", "\"\n  a\n  b\n  \""),
        ("a\n\nb", "\t", "\"\n\ta\n\n\tb\n\t\""),
        ("a\"#b\\", "", "r##\"a\"#b\\\"##"),
        (
            "\0\u{7f}\u{85}\u{1}\tx",
            "",
            "\"\\0\\u{7f}\\u{85}\\u{1}\\tx\"",
        ),
    ] {
        assert_eq!(rt; to_inline(alloc, text, indentation)?.as_str(), literal);
    }
    Ok(())
}

#[test]
fn forms(rt: HostRuntime) -> Result<(), Fail> {
    let alloc = rt.alloc();
    assert_eq!(rt;
        min_indentation(alloc, "\n    1\n  2\n    ")?.as_str(),
        "  "
    );
    assert_eq!(rt;
        normalize_inline(alloc, "\n    1\n    2\n    ")?.as_str(),
        "\n1\n2\n"
    );
    assert_eq!(rt;
        inline_normal_text(alloc, "\n    1\r\r\n    2\n    ")?.as_str(),
        "\n1\n2"
    );
    assert_eq!(rt;
        inline_legacy_text(alloc, "\n  \u{22ee}1\n  \u{22ee} 2\n")?.as_str(),
        "1\n 2"
    );
    assert_eq!(rt;
        from_inline_literal(alloc, "\nfoo\nbar\n")?.as_str(),
        "foo\nbar"
    );
    assert_eq!(rt; normal_text(alloc, "a\r\nb\n")?.as_str(), "a\nb");
    assert_eq!(rt; legacy_text(alloc, "\n---\na")?.as_str(), "a");
    assert!(rt; literal_is_open("a\nb"));
    assert!(rt; !literal_is_open("\na\nb"));
    assert_eq!(rt; required_hashes("\"#\"#"), 2);
    Ok(())
}
