//! The names that a path tells: its last component, and the name and the module of a snapshot.
ghost use Rattle.std.specs.Prelude.{◌≡◌, IfOk, option_map};
ghost use Rattle.std.specs.Str.{chars};
ghost use Rattle.snap_path.specs.Names.{stem_of, snapshot_name, module_name};
ghost use Rattle.snap_path.specs.Paths.{name_of};

use crate::components::{cut_at_last, last_component};
use snap_content::characters::is_same;
use snap_content::{OutOfMemory, Text};
use std::alloc::Global;

/// The last component; none exactly where there is no component.
pub fn path_name(path: &Text) -> Option<&str>
    ensures { option_map (λ name. chars name.now) result ≡ name_of path.now }
{
    match last_component(path.as_str()) {
        Some((_, name)) => Some(name),
        None => None,
    }
}

/// The name without its last part after a dot. A dot in front begins no such part.
fn stem(name: &str) -> &str
    ensures { chars result.now ≡ stem_of (chars name.now) }
{
    if is_same(name, "..") {
        return name;
    }
    match cut_at_last(name, ".") {
        Some((front, _)) if !is_same(front, "") => front,
        _ => name,
    }
}

/// The name and the module of the snapshot at the path: what stands after and before the last two
/// underscores of its last component, without the last part after a dot.
/// Without underscores the module is empty, and without a component both are.
pub fn names_of_path(alloc: Global, path: &Text) -> Result<(Text, Text), OutOfMemory>
    ensures name { IfOk result (λ names. names.0 ≡ snapshot_name path.now) }
    ensures module { IfOk result (λ names. names.1 ≡ module_name path.now) }
{
    let Some(name) = path_name(path) else {
        return Ok((Text::empty(), Text::empty()));
    };
    let stem = stem(name);
    match cut_at_last(stem, "__") {
        None => Ok((Text::from_str(alloc, stem)?, Text::empty())),
        Some((module, name)) => {
            let module = Text::from_str(alloc, module)?;
            Ok((Text::from_str(alloc, name)?, module))
        }
    }
}
