//! Metadata as a tree: what a map tells, and the map of the fields that stand.
ghost use Rattle.std.specs.Prelude.{◌≡◌, IfOk, IsTrue, codes, option_map};
ghost use Rattle.std.specs.Char.{is_ascii};
ghost use Rattle.std.specs.List.{list_all};
ghost use Rattle.snap_content.specs.Plain.{Plain, content_of};
ghost use Rattle.snap_content.specs.View.{tree, pair_trees};
ghost use Rattle.snap_store.specs.Header.{FieldsEnd};
ghost use Rattle.snap_store.specs.MetaTree.{TreeEnd, meta_tree};
ghost use Rattle.snap_fields.specs.Fields.{last_filled_in, text_at};
ghost use Rattle.snap_store.specs.Fields.{tell_binary, kind_told, fields_told};
ghost use Rattle.snap_store.specs.Views.{meta_of};

use crate::header::header_content;
use crate::metadata::{MetaData, SnapshotKind};
use snap_content::characters::is_same;
use snap_content::{Content, Error, OutOfMemory, Text};
use snap_fields::fields::{filled_named, line_named, text_named};
use std::alloc::Global;

impl MetaData {
    /// The metadata that a tree tells: the fields of a `Map`, as in the header of a file, of which others are passed over.
    /// `UnexpectedDataType` where the tree is no `Map`, also where it is a `Struct` or wraps a `Map`, and `MissingField` for
    /// a binary without a text `extension`.
    pub fn from_content(alloc: Global, content: &Content) -> Result<MetaData, Error>
        ensures end { TreeEnd (tree content.now) result }
        ensures read { (plain : Plain) → tree content.now ≡ content_of plain
            → FieldsEnd plain result }
    {
        let Content::Map(pairs) = content else {
            return Err(Error::UnexpectedDataType);
        };
        match read_kind(alloc, pairs.as_slice())? {
            None => Err(Error::MissingField),
            Some(kind) => Ok(read_fields(alloc, pairs.as_slice(), kind)?),
        }
    }

    /// A `Map` of the fields that stand, in their order, with names and texts as `String` and the line as `U32`.
    pub fn to_content(&self, alloc: Global) -> Result<Content, OutOfMemory>
        ensures { IfOk result (λ made. tree made ≡ meta_tree (meta_of self.now)) }
    {
        header_content(alloc, self, self.assertion_line)
    }
}

fn read_fields(
    alloc: Global,
    pairs: &[(Content, Content)],
    kind: SnapshotKind,
) -> Result<MetaData, OutOfMemory>
    ensures { IfOk result (λ made. meta_of made ≡ fields_told (pair_trees pairs.now) kind) }
{
    Ok(MetaData {
        source: read_text(alloc, pairs, "source")?,
        assertion_line: line_named(pairs, "assertion_line"),
        description: read_text(alloc, pairs, "description")?,
        expression: read_text(alloc, pairs, "expression")?,
        input_file: read_text(alloc, pairs, "input_file")?,
        info: read_info(alloc, pairs)?,
        kind,
    })
}

/// The kind; none for a binary without an extension.
fn read_kind(
    alloc: Global,
    pairs: &[(Content, Content)],
) -> Result<Option<SnapshotKind>, OutOfMemory>
    ensures { IfOk result (λ kind. kind ≡ kind_told (pair_trees pairs.now)) }
{
    if !says_binary(pairs) {
        return Ok(Some(SnapshotKind::Text));
    }
    let Some(extension) = read_text(alloc, pairs, "extension")? else {
        return Ok(None);
    };
    Ok(Some(SnapshotKind::Binary { extension }))
}

fn says_binary(pairs: &[(Content, Content)]) -> bool
    ensures { result ≡ tell_binary (pair_trees pairs.now) }
{
    match text_named(pairs, "snapshot_kind") {
        None => false,
        Some(word) => is_same(word, "binary"),
    }
}

fn read_info(alloc: Global, pairs: &[(Content, Content)]) -> Result<Option<Content>, OutOfMemory>
    ensures { IfOk result (λ info. option_map tree info
        ≡ last_filled_in (codes "info") (pair_trees pairs.now)) }
{
    match filled_named(pairs, "info") {
        None => Ok(None),
        Some(value) => Ok(Some(value.try_clone(alloc)?)),
    }
}

fn read_text(
    alloc: Global,
    pairs: &[(Content, Content)],
    name: &str,
) -> Result<Option<Text>, OutOfMemory>
    requires { IsTrue (list_all is_ascii name.now) }
    ensures { IfOk result (λ value. value ≡ text_at name.now (pair_trees pairs.now)) }
{
    match text_named(pairs, name) {
        None => Ok(None),
        Some(value) => Ok(Some(Text::from_str(alloc, value)?)),
    }
}
