//! Redactions of the tree of a case.
use crate::replacements::put;
use rows::text_of;
use snap_content::Content;
use snap_select::Selector;
use std::alloc::Global;

/// Makes of a tree what the redactions of the columns do, which stand two by two.
pub(crate) fn redact_each(
    alloc: Global,
    tree: &mut Content,
    columns: &str,
) -> Result<(), anyhow::Error> {
    let mut selector = None;
    for column in columns.split('\t') {
        match selector.take() {
            None => selector = Some(column),
            Some(at) => redact_at(alloc, tree, at, column)?,
        }
    }
    Ok(())
}

/// Makes of a tree what one redaction does.
fn redact_at(
    alloc: Global,
    tree: &mut Content,
    selector: &str,
    replacement: &str,
) -> Result<(), anyhow::Error> {
    let text = text_of(alloc, selector)?;
    let selector = Selector::parse(alloc, text.as_str())?;
    put(alloc, tree, &selector, replacement)
}
