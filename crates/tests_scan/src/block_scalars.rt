//! Block scalars and their faults, as insta's own scanner reads them.
use snap_scan_blocks::{BlockScalar, scan_block_scalar};
use snap_scan_tokens::{Cursor, Marker, ScanError, ScanInfo};
use std::alloc::Global;
use std::process::Abort;
use std::test::Fail;

/// Reads the block scalar at the beginning of a text, as where the innermost block begins in a column.
fn block<'a>(
    alloc: Global,
    source: &'a str,
    indent: Option<usize>,
) -> Result<BlockScalar<'a>, ScanError> {
    let mut cursor = Cursor::new(source);
    match cursor.ch() {
        '|' => scan_block_scalar(alloc, &mut cursor, indent, true),
        '>' => scan_block_scalar(alloc, &mut cursor, indent, false),
        _ => Err(ScanError::OutOfMemory),
    }
}

/// The index, the line and the column of a mark.
fn place(mark: Marker) -> (usize, usize, usize) {
    (mark.index(), mark.line(), mark.col())
}

#[test]
fn texts(rt: HostRuntime) -> Result<(), Fail> {
    for (source, text) in [
        ("|", ""),
        ("|\n a\n b\n", "a\nb\n"),
        ("|-\n a\n b\n\n", "a\nb"),
        ("|+\n a\n\n\n", "a\n\n\n"),
        ("|\n\n\n", ""),
        ("|+\n\n\n", "\n\n"),
        (">\n a\n b\n\n c\n  d\n e\n", "a b\nc\n d\ne\n"),
        (">+\n\n a\n", "\na\n"),
        (">\n a\n\n  b\n c\n", "a\n\n b\nc\n"),
        (">\n a\n \tb\n", "a\n\tb\n"),
        ("|2-\n   a\n  b\nc", " a\nb"),
        ("|-2\n  a", "a"),
        ("|1+ # c\n a\n\n", "a\n\n"),
        ("|#c\n a", "a"),
        ("|\n  \n   a\n  b\n", "\na\n"),
        ("| \r\n a\r\n b\r\n", "a\nb\n"),
        ("|\n a\r b\n", "a\n"),
        ("|\n a\0b", "a"),
    ] {
        let scalar = block(rt.alloc(), source, None)?;
        assert_eq!(rt; scalar.text.as_str(), text, "{source:?}");
    }
    Ok(())
}

#[test]
fn places(rt: HostRuntime) -> Result<(), Fail> {
    for (source, at) in [
        ("|\n a\n", (3, 2, 1)),
        ("|\n  \n   a\n", (8, 3, 3)),
        ("|2\r:", (3, 1, 3)),
        ("|+\n\n\n", (5, 4, 0)),
    ] {
        let scalar = block(rt.alloc(), source, None)?;
        assert_eq!(rt; place(scalar.mark), at, "{source:?}");
    }
    Ok(())
}

#[test]
fn an_indentation_counts_from_the_innermost_block(rt: HostRuntime) -> Result<(), Fail> {
    let given = block(rt.alloc(), "|1\n  x", Some(0))?;
    assert_eq!(rt; given.text.as_str(), " x");
    let found = block(rt.alloc(), "|\n  x\n", Some(2))?;
    assert_eq!(rt; found.text.as_str(), "");
    let greatest = block(rt.alloc(), "|9\n  x\n", Some(usize::MAX))?;
    assert_eq!(rt; greatest.text.as_str(), "");
    Ok(())
}

/// What is wrong with a text, and where.
fn refusal(error: &ScanError) -> Option<(ScanInfo, (usize, usize, usize))> {
    match error {
        ScanError::Syntax(mark, info) => Some((*info, place(*mark))),
        ScanError::OutOfMemory => None,
    }
}

#[test]
fn faults(rt: HostRuntime) -> Result<(), Fail> {
    for (source, fault, at) in [
        ("|0", ScanInfo::S26, (0, 1, 0)),
        ("|-0", ScanInfo::S26, (0, 1, 0)),
        ("|[", ScanInfo::S27, (0, 1, 0)),
        ("|12", ScanInfo::S27, (0, 1, 0)),
        ("|\n\t", ScanInfo::S28, (2, 2, 0)),
        ("|\n a\n\tb", ScanInfo::S28, (5, 3, 0)),
        (">2\n  a\n \tb", ScanInfo::S28, (8, 3, 1)),
    ] {
        match &block(rt.alloc(), source, None) {
            Ok(_) => return Err(Fail::from("no fault")),
            Err(error) => assert_eq!(rt; refusal(error), Some((fault, at)), "{source:?}"),
        }
    }
    Ok(())
}
