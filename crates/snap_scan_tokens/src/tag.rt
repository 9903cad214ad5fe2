//! The two texts of a tag, behind a box.
ghost use Rattle.std.specs.Prelude.{◌≡◌, IfOk};

use snap_content::{OutOfMemory, Text};
use std::alloc::Global;
use std::marker::Model;

/// The handle of a tag, as `!!`, and what stands after it; of a directive, the handle and the prefix that it stands for.
#[derive(Debug, Drop, PartialEq, Eq)]
pub struct TagTexts {
    pub handle: Text,
    pub suffix: Text,
}

/// A tag, seen as its two texts. They are held behind a box, since tags are rare: a token and an event stay small.
#[derive(Debug, Drop)]
pub struct Tag {
    texts: Box<TagTexts>,
}

impl Model for Tag {
    ghost use Rattle.snap_scan_tokens.specs.declared.tag.TagTexts.{TagTexts};

    ghost Value = { TagTexts };

    ghost view = { λ tag. tag.texts.value };
}

impl Tag {
    /// The tag of these texts.
    pub fn new(alloc: Global, texts: TagTexts) -> Result<Tag, OutOfMemory>
        ensures { IfOk result (λ tag. tag ≡ texts) }
    {
        Ok(Tag {
            texts: Box::new(alloc, texts)?,
        })
    }

    /// The handle; it is empty at `!<suffix>`.
    pub fn handle(&self) -> &Text
        ensures { result.now ≡ self.now.handle }
    {
        &self.texts.handle
    }

    /// What stands after the handle.
    pub fn suffix(&self) -> &Text
        ensures { result.now ≡ self.now.suffix }
    {
        &self.texts.suffix
    }

    /// The texts, out of their box.
    pub fn into_texts(self) -> TagTexts
        ensures { result ≡ self }
    {
        Box::into_inner(self.texts)
    }
}

impl PartialEq for Tag {
    ghost use Rattle.std.specs.Prelude.{◌==◌, ◌&&◌};
    ghost use Rattle.std.specs.Cmp.Lexicographic.{pointwise};
    ghost use Rattle.std.specs.Cmp.Rules.{comparing};
    ghost use Rattle.std.proofs.Common.{rules};

    ghost eq = { λ a b. pointwise ◌==◌ a.handle b.handle && pointwise ◌==◌ a.suffix b.suffix };

    ghost laws = { Prim.search (comparing, rules) };

    fn eq(&self, other: &Tag) -> bool {
        self.handle() == other.handle() && self.suffix() == other.suffix()
    }
}

impl Eq for Tag {
    ghost use Rattle.std.specs.Cmp.Rules.{comparing};
    ghost use Rattle.std.proofs.Common.{rules};

    ghost laws = { Prim.search (comparing, rules) };
}
