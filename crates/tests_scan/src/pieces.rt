//! An escape, and a text that is gathered from pieces.
use snap_content::{Lent, OutOfMemory};
use snap_scan_tokens::escapes::{hexadecimal, scan_escape};
use snap_scan_tokens::folding::{Gap, Gathered};
use snap_scan_tokens::{Cursor, ScanInfo};
use std::alloc::Global;
use std::process::Abort;
use std::test::Fail;

#[test]
fn escapes(rt: HostRuntime) {
    assert_eq!(rt; hexadecimal('F'), Some(15));
    assert_eq!(rt; hexadecimal('g'), None);
    let mut cursor = Cursor::new("x7e\r\nq");
    assert_eq!(rt; scan_escape(&mut cursor), Ok(Some('~')));
    assert_eq!(rt; scan_escape(&mut cursor), Ok(None));
    assert_eq!(rt; scan_escape(&mut cursor), Err(ScanInfo::S31));
}

/// A text that is gathered from a source: a piece, a doubled quote, a line end, a further piece.
fn gathered(alloc: Global, source: &str) -> Result<Lent<'_>, OutOfMemory> {
    let mut cursor = Cursor::new(source);
    let mut text = Gathered::new(cursor.rest());
    let mut gap = Gap::none();
    gap.add_break(alloc)?;
    text.push(alloc, '\'', cursor.rest())?;
    text.join(alloc, &gap, cursor.rest())?;
    cursor.skip();
    text.extend(cursor.rest());
    text.join(alloc, &Gap::escaped(), cursor.rest())?;
    text.pass(alloc, cursor.rest())?;
    text.finish(alloc)
}

#[test]
fn texts_are_gathered(rt: HostRuntime) -> Result<(), Fail> {
    assert_eq!(rt; gathered(rt.alloc(), "ab")?.as_str(), "' a");
    Ok(())
}
