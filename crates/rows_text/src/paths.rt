//! What is asked of paths.
use rows::{add_escaped, first_column, text_of};
use snap_content::{OutOfMemory, Text};
use snap_path::{names_of_path, path_front, path_join, path_name, path_parent, path_relative_from};
use std::alloc::Global;

/// The answer to the question of that name.
pub(crate) fn path_line(alloc: Global, name: &str, columns: &str) -> Result<Text, OutOfMemory> {
    let (first, second) = first_column(columns);
    let path = text_of(alloc, first)?;
    match name {
        "name" => name_line(alloc, &path),
        "names" => names_line(alloc, &path),
        "parent" => parent_line(alloc, &path),
        _ => seen_line(alloc, name, &path, second),
    }
}

/// The last component, if there is one.
fn name_line(alloc: Global, path: &Text) -> Result<Text, OutOfMemory> {
    let mut line = Text::empty();
    match path_name(path) {
        Some(name) => {
            line.push_ascii(alloc, "name ")?;
            add_escaped(alloc, &mut line, name)?;
        }
        None => line.push_ascii(alloc, "no name")?,
    }
    Ok(line)
}

/// The name and the module of a snapshot.
fn names_line(alloc: Global, path: &Text) -> Result<Text, OutOfMemory> {
    let (name, module) = names_of_path(alloc, path)?;
    two_columns(alloc, &name, &module)
}

/// The parent, and the front of the names in a folder.
fn parent_line(alloc: Global, path: &Text) -> Result<Text, OutOfMemory> {
    let parent = path_parent(alloc, path)?;
    let front = path_front(alloc, path)?;
    two_columns(alloc, &parent, &front)
}

fn two_columns(alloc: Global, first: &Text, second: &Text) -> Result<Text, OutOfMemory> {
    let mut line = Text::empty();
    add_escaped(alloc, &mut line, first.as_str())?;
    line.push_ascii(alloc, "\t")?;
    add_escaped(alloc, &mut line, second.as_str())?;
    Ok(line)
}

/// The path with another one after it, or as it is seen from another one.
fn seen_line(alloc: Global, name: &str, path: &Text, column: &str) -> Result<Text, OutOfMemory> {
    let other = text_of(alloc, column)?;
    let made = seen(alloc, name, path, &other)?;
    let mut line = Text::empty();
    add_escaped(alloc, &mut line, made.as_str())?;
    Ok(line)
}

fn seen(alloc: Global, name: &str, path: &Text, other: &Text) -> Result<Text, OutOfMemory> {
    if name == "join" {
        path_join(alloc, path, other)
    } else {
        path_relative_from(alloc, path, other)
    }
}
