//! Blocks of duplicates, and the session after them.
use snap_assert::{Session, with_allow_duplicates};
use std::test::Fail;

#[test]
fn a_block_is_open_while_the_closure_runs(rt: HostRuntime) -> Result<(), Fail> {
    let mut session = Session::new(rt.alloc());
    let answer = with_allow_duplicates(&mut session, |_| 5)?;
    assert_eq!(rt; answer, 5);
    assert!(rt; !session.end_duplicates());
    Ok(())
}

#[test]
fn a_closure_may_close_the_block(rt: HostRuntime) -> Result<(), Fail> {
    let mut session = Session::new(rt.alloc());
    let closed = with_allow_duplicates(&mut session, |inner| inner.end_duplicates())?;
    assert!(rt; closed);
    assert!(rt; !session.end_duplicates());
    Ok(())
}

#[test]
fn a_block_ends_once(rt: HostRuntime) -> Result<(), Fail> {
    let mut session = Session::new(rt.alloc());
    session.begin_duplicates()?;
    assert!(rt; session.end_duplicates());
    assert!(rt; !session.end_duplicates());
    Ok(())
}
