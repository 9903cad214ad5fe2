//! The smallest text of each fault, and where its mark is.
use snap_scan_properties::anchor::scan_anchor;
use snap_scan_properties::directive::scan_directive;
use snap_scan_properties::tag::scan_tag;
use snap_scan_tokens::cursor::Cursor;
use snap_scan_tokens::info::{ScanError, ScanInfo};
use std::alloc::Global;

/// Where an error is, and what is wrong there.
fn place_of(error: ScanError) -> Option<(usize, ScanInfo)> {
    match error {
        ScanError::Syntax(mark, info) => Some((mark.index(), info)),
        ScanError::OutOfMemory => None,
    }
}

fn alias_fault(alloc: Global, cursor: &mut Cursor) -> Option<(usize, ScanInfo)> {
    if cursor.ch() != '*' {
        return None;
    }
    match scan_anchor(alloc, cursor) {
        Ok(_name) => None,
        Err(error) => place_of(error),
    }
}

fn tag_fault(alloc: Global, cursor: &mut Cursor) -> Option<(usize, ScanInfo)> {
    if cursor.ch() != '!' {
        return None;
    }
    match scan_tag(alloc, cursor) {
        Ok(_tag) => None,
        Err(error) => place_of(error),
    }
}

fn directive_fault(alloc: Global, cursor: &mut Cursor) -> Option<(usize, ScanInfo)> {
    if cursor.ch() != '%' {
        return None;
    }
    match scan_directive(alloc, cursor) {
        Ok(_directive) => None,
        Err(error) => place_of(error),
    }
}

#[test]
fn directives(rt: HostRuntime) {
    for (text, info, index) in [
        ("%YAML 1.2+", ScanInfo::S6, 0),
        ("%YAML 1", ScanInfo::S7, 0),
        ("%", ScanInfo::S8, 1),
        ("%X~", ScanInfo::S9, 1),
        ("%YAML 1234567891", ScanInfo::S10, 0),
        ("%YAML ", ScanInfo::S11, 0),
        ("%TAG !.>", ScanInfo::S12, 0),
        ("%TAG ", ScanInfo::S15, 0),
        ("%TAG !-", ScanInfo::S16, 0),
    ] {
        let found = directive_fault(rt.alloc(), &mut Cursor::new(text));
        assert_eq!(rt; found, Some((index, info)), "{:?}", text);
    }
}

#[test]
fn tags_and_aliases(rt: HostRuntime) {
    for (text, info) in [
        ("!<1", ScanInfo::S13),
        ("!`", ScanInfo::S14),
        ("!!", ScanInfo::S17),
        ("!%", ScanInfo::S18),
        ("!%a1", ScanInfo::S19),
        ("!%c3%41", ScanInfo::S20),
        ("!%ed%a0%80", ScanInfo::S21),
    ] {
        let found = tag_fault(rt.alloc(), &mut Cursor::new(text));
        assert_eq!(rt; found, Some((0, info)), "{:?}", text);
    }
    let found = alias_fault(rt.alloc(), &mut Cursor::new("*"));
    assert_eq!(rt; found, Some((0, ScanInfo::S22)));
}

#[test]
fn octets(rt: HostRuntime) {
    for (text, info) in [
        ("!%c3", ScanInfo::S18),
        ("!%80", ScanInfo::S19),
        ("!%bf", ScanInfo::S19),
        ("!%f8", ScanInfo::S19),
        ("!%c0%80", ScanInfo::S21),
        ("!%e0%80%80", ScanInfo::S21),
        ("!%f4%90%80%80", ScanInfo::S21),
        ("!%f5%80%80%80", ScanInfo::S21),
    ] {
        let found = tag_fault(rt.alloc(), &mut Cursor::new(text));
        assert_eq!(rt; found, Some((0, info)), "{:?}", text);
    }
}
