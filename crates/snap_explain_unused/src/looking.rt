//! The unused files of the folders that requests touch.
ghost use Rattle.std.specs.Prelude.{◌≡◌, [], IfOk, IfErr, OnOk, false};
ghost use Rattle.snap_io.specs.Causes.{Counted};
ghost use Rattle.snap_path.specs.Paths.{joined};
ghost use Rattle.snap_explain_unused.specs.Found.{Adds, FindsIn, KeepsOne, LooksBeside, LooksInto};
ghost use Rattle.snap_explain_unused.specs.Stops.{is_file_fault, is_refused};
ghost use Rattle.snap_explain_unused.specs.Unused.{is_left};

use crate::asking::Stop;
use crate::ending::{base_of, is_snapshot};
use crate::path_set::{add, holds};
use snap_content::{OutOfMemory, Text};
use snap_io::Store;
use snap_path::{path_join, path_parent};
use std::alloc::Global;
use std::collections::BTreeSet;

/// Whether the path is that of a snapshot, or of a pending one, and none of the paths is the snapshot's.
fn is_left(alloc: Global, asked: &BTreeSet<Text>, path: &Text) -> Result<bool, OutOfMemory>
    ensures { IfOk result (λ left. left ≡ is_left asked.now.keys path.now) }
{
    let base = base_of(path.as_str());
    if !is_snapshot(base) {
        return Ok(false);
    }
    let base = Text::from_str(alloc, base)?;
    Ok(!holds(asked, &base))
}

/// Keeps the path of the name in the folder, where no request asked for that.
fn keep_name(
    alloc: Global,
    asked: &BTreeSet<Text>,
    folder: &Text,
    name: &Text,
    unused: &mut BTreeSet<Text>,
) -> Result<(), OutOfMemory>
    ensures { OnOk result (KeepsOne asked.now.keys (joined folder.now name.now) unused.old.keys
        unused.new.keys) }
{
    let path = path_join(alloc, folder, name)?;
    let left = is_left(alloc, asked, &path)?;
    if !left {
        return Ok(());
    }
    add(unused, path)?;
    Ok(())
}

/// Keeps the paths of these names in the folder for which no request asked.
fn keep_names(
    alloc: Global,
    asked: &BTreeSet<Text>,
    folder: &Text,
    names: &[Text],
    unused: &mut BTreeSet<Text>,
) -> Result<(), OutOfMemory>
    ensures { OnOk result (Adds asked.now.keys folder.now names.now unused.old.keys
        unused.new.keys) }
{
    for name in names {
        keep_name(alloc, asked, folder, name, unused)?;
    }
    Ok(())
}

/// Keeps the paths of the folder's files for which no request asked. No file is touched.
fn look_into<F: Store>(
    alloc: Global,
    asked: &BTreeSet<Text>,
    folder: &Text,
    store: &mut F,
    unused: &mut BTreeSet<Text>,
) -> Result<(), Stop>
    ensures looked { OnOk result (LooksInto asked.now.keys folder.now (F.files store.old)
        unused.old.keys unused.new.keys) }
    ensures taken { IfErr result (λ stop. is_refused stop ≡ false) }
    ensures same { F.files store.new ≡ F.files store.old }
    ensures cause { Counted is_file_fault (F.faults store.old) (F.faults store.new) result }
{
    let names = store.list(alloc, folder)?;
    keep_names(alloc, asked, folder, names.as_slice(), unused)?;
    Ok(())
}

/// Looks into the folder of the path, where that was not done before.
fn look_beside<F: Store>(
    alloc: Global,
    asked: &BTreeSet<Text>,
    path: &Text,
    store: &mut F,
    folders: &mut BTreeSet<Text>,
    unused: &mut BTreeSet<Text>,
) -> Result<(), Stop>
    ensures looked { OnOk result (LooksBeside asked.now.keys path.now (F.files store.old)
        folders.old.keys folders.new.keys unused.old.keys unused.new.keys) }
    ensures taken { IfErr result (λ stop. is_refused stop ≡ false) }
    ensures same { F.files store.new ≡ F.files store.old }
    ensures cause { Counted is_file_fault (F.faults store.old) (F.faults store.new) result }
{
    let folder = path_parent(alloc, path)?;
    if holds(folders, &folder) {
        return Ok(());
    }
    look_into(alloc, asked, &folder, store, unused)?;
    add(folders, folder)?;
    Ok(())
}

/// Keeps the paths of the files beside these paths for which no request asked. Each folder is listed once, and no file is touched.
pub(crate) fn find_unused<F: Store>(
    alloc: Global,
    asked: &BTreeSet<Text>,
    store: &mut F,
    unused: &mut BTreeSet<Text>,
) -> Result<(), Stop>
    requires { unused.now.keys ≡ [] }
    ensures found { OnOk result (FindsIn asked.now.keys (F.files store.old) unused.new.keys) }
    ensures taken { IfErr result (λ stop. is_refused stop ≡ false) }
    ensures same { F.files store.new ≡ F.files store.old }
    ensures cause { Counted is_file_fault (F.faults store.old) (F.faults store.new) result }
{
    let mut folders = BTreeSet::new(alloc);
    for path in asked.iter() {
        look_beside(alloc, asked, path, store, &mut folders, unused)?;
    }
    Ok(())
}
