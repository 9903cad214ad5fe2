//! What is to be said of a request that passes.
ghost use Rattle.std.specs.Prelude.{◌≡◌, Bool, IfOk, IfErr, MatchOption, true, false};
ghost use Rattle.snap_io.specs.Causes.{Counted};
ghost use Rattle.snap_io.specs.Outside.{Given};
ghost use Rattle.snap_print.specs.Spell.{spell_text};
ghost use Rattle.snap_assert.specs.Previews.{IsForeseen};
ghost use Rattle.snap_assert.specs.Steps.{Asked};
ghost use Rattle.snap_explain.specs.Notes.{has_word};
ghost use Rattle.snap_explain.specs.Troubles.{PassesWith, Passes, IsNoted, is_tell_file, is_tell_write};

use crate::misfit::{is_pending, spelled};
use crate::notes::{Notes, notes_by};
use crate::outside::is_outside;
use crate::telling::TellError;
use crate::trouble::Trouble;
use snap_assert::preview::Preview;
use snap_content::{OutOfMemory, Text};
use snap_io::Store;
use std::alloc::Global;

/// All that is to be said of a pass.
fn notes_on<F: Store>(
    alloc: Global,
    workspace: &Text,
    store: &mut F,
    earlier: Option<u64>,
    preview: &Preview,
) -> Result<Notes, TellError>
    ensures notes { IfOk result (λ notes. (fully : Bool) (asked : Asked)
        → preview.now.judged.passed ≡ true
        → IsForeseen fully asked preview.now (F.files store.old)
        → Given (F.files store.old) (λ m. PassesWith workspace.now earlier fully asked notes m)) }
    ensures unsaid { IfErr result (λ error. is_tell_write error ≡ false) }
    ensures same { F.files store.new ≡ F.files store.old }
    ensures cause { Counted is_tell_file (F.faults store.old) (F.faults store.new) result }
{
    let pending = is_pending(alloc, store, &preview.path)?;
    let outside = is_outside(alloc, workspace, &preview.path)?;
    let warnings = preview.judged.warnings.as_slice();
    Ok(notes_by(pending, warnings, earlier, outside))
}

/// The notes with the path of the file, where something is to be said.
fn noted(alloc: Global, notes: Notes, path: &Text) -> Result<Option<Trouble>, OutOfMemory>
    ensures { IfOk result (λ found. MatchOption found (has_word notes ≡ false)
        (λ what. (has_word notes ≡ true) × (what ≡ Trouble.Noted notes path.now (spell_text path.now)))) }
{
    if !notes.has_word() {
        return Ok(None);
    }
    let spelled = spelled(alloc, path)?;
    let file = path.try_clone(alloc)?;
    Ok(Some(Trouble::Noted {
        notes,
        file,
        path: spelled,
    }))
}

/// What is to be said of a request that passes, where something is: this earlier document asks for the same path.
pub(crate) fn note<F: Store>(
    alloc: Global,
    workspace: &Text,
    store: &mut F,
    earlier: Option<u64>,
    preview: &Preview,
) -> Result<Option<Trouble>, TellError>
    ensures found { IfOk result (λ found. (fully : Bool) (asked : Asked)
        → preview.now.judged.passed ≡ true
        → IsForeseen fully asked preview.now (F.files store.old)
        → MatchOption found (Passes workspace.now earlier fully asked (F.files store.old))
        (λ what. IsNoted workspace.now earlier fully asked (F.files store.old) what)) }
    ensures unsaid { IfErr result (λ error. is_tell_write error ≡ false) }
    ensures same { F.files store.new ≡ F.files store.old }
    ensures cause { Counted is_tell_file (F.faults store.old) (F.faults store.new) result }
{
    let notes = notes_on(alloc, workspace, store, earlier, preview)?;
    Ok(noted(alloc, notes, &preview.path)?)
}
