//! What is known of a snapshot beside its contents.
ghost use Rattle.std.specs.Prelude.{◌≡◌, None, IfOk, option_map};
ghost use Rattle.std.specs.Str.{chars};
ghost use Rattle.snap_content.specs.View.{tree};

use snap_content::{Content, OutOfMemory, Text};
use std::alloc::Global;
use std::mem;

/// What a snapshot's contents are.
#[derive(Debug, PartialEq, Eq, Drop)]
pub enum SnapshotKind {
    Text,
    Binary { extension: Text },
}

impl SnapshotKind {
    /// An equal kind.
    pub fn try_clone(&self, alloc: Global) -> Result<SnapshotKind, OutOfMemory>
        ensures { IfOk result (λ copy. copy ≡ self.now) }
    {
        match self {
            SnapshotKind::Text => Ok(SnapshotKind::Text),
            SnapshotKind::Binary { extension } => Ok(SnapshotKind::Binary {
                extension: extension.try_clone(alloc)?,
            }),
        }
    }
}

/// What is known of a snapshot beside its contents.
#[derive(Debug, Drop)]
pub struct MetaData {
    pub(crate) source: Option<Text>,
    pub(crate) assertion_line: Option<u32>,
    pub(crate) description: Option<Text>,
    pub(crate) expression: Option<Text>,
    pub(crate) info: Option<Content>,
    pub(crate) input_file: Option<Text>,
    pub(crate) kind: SnapshotKind,
}

impl MetaData {
    ghost use Rattle.snap_store.specs.Meta.{empty_meta, shown_text};
    ghost use Rattle.snap_store.specs.Views.{meta_of};

    /// No field stands, and the kind is text.
    pub const fn empty() -> MetaData
        ensures { meta_of result ≡ empty_meta }
    {
        MetaData {
            source: None,
            assertion_line: None,
            description: None,
            expression: None,
            info: None,
            input_file: None,
            kind: SnapshotKind::Text,
        }
    }

    /// The source file of the assertion.
    pub fn source(&self) -> Option<&str>
        ensures { option_map (λ text. chars text.now) result ≡ (meta_of self.now).source }
    {
        self.source.as_ref().map(|text| text.as_str())
    }

    /// The line of the assertion in its source file.
    pub fn assertion_line(&self) -> Option<u32>
        ensures { result ≡ (meta_of self.now).assertion_line }
    {
        self.assertion_line
    }

    /// The description. An empty one is kept and written, and not shown here.
    pub fn description(&self) -> Option<&str>
        ensures { option_map (λ text. chars text.now) result
            ≡ shown_text (meta_of self.now).description }
    {
        match &self.description {
            Some(text) if text.len() > 0 => Some(text.as_str()),
            _ => None,
        }
    }

    /// The description as it is kept, which may be empty.
    pub fn raw_description(&self) -> Option<&str>
        ensures { option_map (λ text. chars text.now) result ≡ (meta_of self.now).description }
    {
        self.description.as_ref().map(|text| text.as_str())
    }

    /// The expression whose value was taken.
    pub fn expression(&self) -> Option<&str>
        ensures { option_map (λ text. chars text.now) result ≡ (meta_of self.now).expression }
    {
        self.expression.as_ref().map(|text| text.as_str())
    }

    /// What the assertion adds about the value, as a tree.
    pub fn private_info(&self) -> Option<&Content>
        ensures { option_map (λ info. tree info.now) result ≡ (meta_of self.now).info }
    {
        self.info.as_ref()
    }

    /// The file that the value was made from.
    pub fn input_file(&self) -> Option<&str>
        ensures { option_map (λ text. chars text.now) result ≡ (meta_of self.now).input_file }
    {
        self.input_file.as_ref().map(|text| text.as_str())
    }

    /// What the contents are.
    pub fn kind(&self) -> &SnapshotKind
        ensures { result.now ≡ (meta_of self.now).kind }
    {
        &self.kind
    }

    pub fn set_source(&mut self, value: Option<Text>)
        ensures { meta_of self.new ≡ record (meta_of self.old) { source = value } }
    {
        self.source = value;
    }

    pub fn set_assertion_line(&mut self, value: Option<u32>)
        ensures { meta_of self.new ≡ record (meta_of self.old) { assertion_line = value } }
    {
        self.assertion_line = value;
    }

    pub fn set_description(&mut self, value: Option<Text>)
        ensures { meta_of self.new ≡ record (meta_of self.old) { description = value } }
    {
        self.description = value;
    }

    pub fn set_expression(&mut self, value: Option<Text>)
        ensures { meta_of self.new ≡ record (meta_of self.old) { expression = value } }
    {
        self.expression = value;
    }

    pub fn set_info(&mut self, value: Option<Content>)
        ensures { meta_of self.new ≡ record (meta_of self.old) { info = option_map tree value } }
    {
        drop(mem::replace(&mut self.info, value));
    }

    pub fn set_input_file(&mut self, value: Option<Text>)
        ensures { meta_of self.new ≡ record (meta_of self.old) { input_file = value } }
    {
        self.input_file = value;
    }

    pub fn set_kind(&mut self, value: SnapshotKind)
        ensures { meta_of self.new ≡ record (meta_of self.old) { kind = value } }
    {
        self.kind = value;
    }

    /// The same metadata.
    pub fn try_clone(&self, alloc: Global) -> Result<MetaData, OutOfMemory>
        ensures { IfOk result (λ copy. meta_of copy ≡ meta_of self.now) }
    {
        Ok(MetaData {
            source: clone_text(alloc, &self.source)?,
            assertion_line: self.assertion_line,
            description: clone_text(alloc, &self.description)?,
            expression: clone_text(alloc, &self.expression)?,
            input_file: clone_text(alloc, &self.input_file)?,
            kind: self.kind.try_clone(alloc)?,
            info: clone_info(alloc, &self.info)?,
        })
    }
}

/// An equal text, where there is one.
pub fn clone_text(alloc: Global, value: &Option<Text>) -> Result<Option<Text>, OutOfMemory>
    ensures { IfOk result (λ copy. copy ≡ value.now) }
{
    match value {
        None => Ok(None),
        Some(text) => Ok(Some(text.try_clone(alloc)?)),
    }
}

/// An equal tree, where there is one.
pub fn clone_info(alloc: Global, value: &Option<Content>) -> Result<Option<Content>, OutOfMemory>
    ensures { IfOk result (λ copy. option_map tree copy ≡ option_map tree value.now) }
{
    match value {
        None => Ok(None),
        Some(info) => Ok(Some(info.try_clone(alloc)?)),
    }
}
