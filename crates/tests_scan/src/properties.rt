//! What the readers answer where memory is ample, and how far they read.
use snap_scan_properties::anchor::scan_anchor;
use snap_scan_properties::directive::{Directive, scan_directive};
use snap_scan_properties::tag::scan_tag;
use snap_scan_tokens::cursor::Cursor;
use std::process::Abort;
use std::test::Fail;

fn check_anchor(rt: &(impl Abort + AllocGlobal + Eprint), text: &str, name: &str, end: usize) {
    let mut cursor = Cursor::new(text);
    if cursor.ch() == '&' || cursor.ch() == '*' {
        match scan_anchor(rt.alloc(), &mut cursor) {
            Ok(found) => assert_eq!(rt; found.as_str(), name, "{:?}", text),
            Err(error) => assert!(rt; false, "{:?}: {:?}", text, error),
        }
    }
    assert_eq!(rt; cursor.mark().index(), end, "{:?}", text);
}

fn check_tag(
    rt: &(impl Abort + AllocGlobal + Eprint),
    text: &str,
    handle: &str,
    suffix: &str,
    end: usize,
) {
    let mut cursor = Cursor::new(text);
    if cursor.ch() == '!' {
        match scan_tag(rt.alloc(), &mut cursor) {
            Ok(tag) => {
                assert_eq!(rt; tag.handle.as_str(), handle, "{:?}", text);
                assert_eq!(rt; tag.suffix.as_str(), suffix, "{:?}", text);
            }
            Err(error) => assert!(rt; false, "{:?}: {:?}", text, error),
        }
    }
    assert_eq!(rt; cursor.mark().index(), end, "{:?}", text);
}

#[test]
fn anchors(rt: HostRuntime) -> Result<(), Fail> {
    for (text, name, end) in [("&a-b_9 x", "a-b_9", 6), ("*x", "x", 2), ("&a: b", "a", 2)] {
        check_anchor(&rt, text, name, end);
    }
    Ok(())
}

#[test]
fn tags(rt: HostRuntime) -> Result<(), Fail> {
    for (text, handle, suffix, end) in [
        ("! x", "", "!", 1),
        ("!x", "!", "x", 2),
        ("!!x", "!!", "x", 3),
        ("!a!x", "!a!", "x", 4),
        ("!a%21x", "!", "a!x", 6),
        ("!<tag:a,2000:x> z", "", "tag:a,2000:x", 15),
        ("!%c3%a9 x", "!", "\u{e9}", 7),
        ("!%E2%82%AC%f0%9f%98%80", "!", "\u{20ac}\u{1f600}", 22),
    ] {
        check_tag(&rt, text, handle, suffix, end);
    }
    Ok(())
}

#[test]
fn directives(rt: HostRuntime) -> Result<(), Fail> {
    let mut cursor = Cursor::new("%YAML 1.234567891 # all\r\n---");
    if cursor.ch() == '%' {
        let directive = scan_directive(rt.alloc(), &mut cursor);
        assert!(rt; matches!(directive, Ok(Directive::Version(1, 234567891))));
    }
    assert_eq!(rt; cursor.mark().index(), 25);
    Ok(())
}

fn check_shorthand(
    rt: &(impl Abort + AllocGlobal + Eprint),
    text: &str,
    handle: &str,
    prefix: &str,
    end: usize,
) {
    let mut cursor = Cursor::new(text);
    if cursor.ch() == '%' {
        match scan_directive(rt.alloc(), &mut cursor) {
            Ok(Directive::Tag(first, second)) => {
                assert_eq!(rt; first.as_str(), handle, "{:?}", text);
                assert_eq!(rt; second.as_str(), prefix, "{:?}", text);
            }
            _ => assert!(rt; false, "{:?}", text),
        }
    }
    assert_eq!(rt; cursor.mark().index(), end, "{:?}", text);
}

#[test]
fn shorthands(rt: HostRuntime) -> Result<(), Fail> {
    for (text, handle, prefix, end) in [
        ("%TAG ! tag:a,2000:", "!", "tag:a,2000:", 18),
        ("%TAG\t!e!  !x%20 \nb", "!e!", "!x ", 17),
        ("%NEW what ever", "", "", 14),
    ] {
        check_shorthand(&rt, text, handle, prefix, end);
    }
    Ok(())
}
