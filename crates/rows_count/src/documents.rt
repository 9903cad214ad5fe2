//! Counting documents.
use snap_parse::YamlLoader;
use std::alloc::Global;

/// How many documents the loader makes of a text; none where the text is refused.
pub(crate) fn counted(alloc: Global, text: &str) -> Option<usize> {
    match YamlLoader::load_from_str(alloc, text) {
        Ok(documents) => Some(documents.len()),
        Err(_) => None,
    }
}
