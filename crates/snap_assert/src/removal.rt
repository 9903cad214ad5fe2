//! Removing files one by one.
ghost use Rattle.std.specs.Prelude.{IfErr, OnOk, map};
ghost use Rattle.snap_io.specs.Changes.{Change.removes};
ghost use Rattle.snap_io.specs.Outside.{Given, Becomes};
ghost use Rattle.snap_io.specs.StandsAfter.{StandsAfter};
ghost use Rattle.snap_assert.specs.Halts.{named_by};
ghost use Rattle.snap_assert.specs.Kept.{Keeps, is_none};
ghost use Rattle.snap_assert.specs.Outcomes.{WorkCause};
ghost use Rattle.snap_assert.specs.Listed.{IsCovered, IsCoveredAt};
ghost use Rattle.snap_assert.specs.Prepared.{IsPrepared};
ghost use Rattle.snap_assert.specs.Removed.{remove_each, is_among, NamesOneOf};
ghost use Rattle.snap_assert.specs.Steps.{Asked};

use crate::error::AssertError;
use crate::listed::Listed;
use crate::prepare::Prepared;
use snap_content::Text;
use snap_io::Store;
use snap_store::named;
use std::alloc::Global;

/// Removes each of these files. After an error some of them may be gone; no file is written, and no other is changed.
pub fn remove_files<S: Store>(
    alloc: Global,
    store: &mut S,
    paths: &[Text],
) -> Result<(), AssertError>
    ensures ok { OnOk result (Becomes (S.files store.old) (S.files store.new)
        (remove_each paths.now)) }
    ensures kept { Given (S.files store.old)
        (λ m. Keeps is_none (is_among paths.now) m (S.files store.new)) }
    ensures named { NamesOneOf paths.now result }
    ensures halted { IfErr result (λ e. StandsAfter (map removes paths.now) (named_by e)
        (S.files store.old) (S.files store.new)) }
    ensures cause { WorkCause (S.faults store.old) (S.faults store.new) result }
{
    for path in paths {
        named::remove(alloc, store, path)?;
    }
    Ok(())
}

/// Removes the strays, which are forgotten then; what the assertion may write is kept in mind. No file is written, and none removed but
/// these.
pub fn clear<S: Store>(
    alloc: Global,
    listed: &mut Listed,
    store: &mut S,
    prepared: &Prepared,
    strays: &[Text],
) -> Result<(), AssertError>
    ensures ok { OnOk result (Becomes (S.files store.old) (S.files store.new)
        (remove_each strays.now)) }
    ensures covered { OnOk result ((asked : Asked) → IsPrepared asked prepared.now
        → Given (S.files store.old) (λ m. IsCovered m listed.old
        → IsCoveredAt asked.path (remove_each strays.now m) listed.new)) }
    ensures kept { Given (S.files store.old)
        (λ m. Keeps is_none (is_among strays.now) m (S.files store.new)) }
    ensures named { NamesOneOf strays.now result }
    ensures halted { IfErr result (λ e. StandsAfter (map removes strays.now) (named_by e)
        (S.files store.old) (S.files store.new)) }
    ensures cause { WorkCause (S.faults store.old) (S.faults store.new) result }
{
    remove_files(alloc, store, strays)?;
    listed.forget(strays);
    listed.keep_path(&prepared.path)?;
    listed.keep_path(&prepared.pending)?;
    Ok(())
}
