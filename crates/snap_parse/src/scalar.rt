//! The value of a scalar.
ghost use Rattle.std.specs.Prelude.{◌≡◌, IfOk};
ghost use Rattle.std.specs.Str.{chars};
ghost use Rattle.snap_parse.specs.Documents.{plain_value, scalar_value};
ghost use Rattle.snap_yaml.specs.View.{value_of};

use snap_content::{Lent, OutOfMemory};
use snap_scan_tokens::{TScalarStyle, Tag};
use snap_yaml::Yaml;
use std::alloc::Global;

/// The value of a plain scalar, by its tag where it has one. The one error is out of memory.
pub fn plain_value(alloc: Global, text: &str, tag: Option<Tag>) -> Result<Yaml, OutOfMemory>
    ensures { IfOk result (λ made. value_of made ≡ plain_value (chars text.now) tag) }
{
    match tag {
        None => Yaml::from_str(alloc, text),
        Some(tag) => Yaml::tagged(alloc, tag.handle().as_str(), tag.suffix().as_str(), text),
    }
}

/// The value of a scalar. A text that is held already becomes its text, and a borrowed one is copied once.
pub(crate) fn scalar(
    alloc: Global,
    text: Lent<'_>,
    style: TScalarStyle,
    tag: Option<Tag>,
) -> Result<Yaml, OutOfMemory>
    ensures { IfOk result (λ made. value_of made ≡ scalar_value text.entry style tag) }
{
    match style {
        TScalarStyle::Plain => plain_value(alloc, text.as_str(), tag),
        _ => Ok(Yaml::String(text.into_text(alloc)?)),
    }
}
