//! A block of duplicates that is open while a closure runs.
ghost use Rattle.std.specs.Prelude.{◌≡◌, IfOk, OnErr};
ghost use Rattle.std.specs.Fn.{FnOnceReturnsAtMut};
ghost use Rattle.snap_assert.specs.Session.{session_of, opened, closed};

use crate::session::Session;
use snap_content::OutOfMemory;

/// Opens a block of duplicates, calls the closure, and closes the innermost block where one is then open.
/// After running out of memory the closure was not called and the session is as it was.
pub fn with_allow_duplicates<R, F: FnOnce(&mut Session) -> R>(
    session: &mut Session,
    f: F,
) -> Result<R, OutOfMemory>
    requires { (s : _) → session_of s.now ≡ opened (session_of session.old) → F.pre f s }
    ensures ok { IfOk result (λ r. (before : Session) × (after : Session)
        × (session_of before ≡ opened (session_of session.old))
        × FnOnceReturnsAtMut F.FnOnce f before r after
        × (session_of session.new ≡ closed (session_of after))) }
    ensures err { OnErr result (session_of session.new ≡ session_of session.old) }
{
    session.begin_duplicates()?;
    let answer = f(session);
    let _ = session.end_duplicates();
    Ok(answer)
}
