//! Values as texts.
ghost use Rattle.std.specs.Prelude.{◌≡◌, false, true, IfOk, OnOk, IsErrOf};
ghost use Rattle.snap_content.specs.View.{tree};
ghost use Rattle.snap_json.specs.declared.error.JsonError.TheVariants.{JsonKey};
ghost use Rattle.snap_assert_settings.specs.Redactions.{redactions_of};
ghost use Rattle.snap_assert_settings.specs.Settings.{PrintsAs};
ghost use Rattle.snap_assert_serialize.specs.Serialized.{text_in, refuses, PrintsAfter, SerializedEnd};

use crate::format::SerializationFormat;
use snap_assert_settings::redactions::Redactions;
use snap_assert_settings::settings::Settings;
use snap_content::{Content, Text, ToContent};
use snap_emit::body_to_string;
use snap_json::{JsonError, to_string_compact, to_string_pretty};
use snap_select::Redactor;
use std::alloc::Global;

/// The text of a tree. `JsonKey` comes exactly where JSON is asked for and refuses a key.
fn text_in(
    alloc: Global,
    content: &Content,
    format: SerializationFormat,
    literal: bool,
) -> Result<Text, JsonError>
    ensures text { IfOk result (λ text. text ≡ text_in format literal (tree content.now)) }
    ensures accepted { OnOk result (refuses format (tree content.now) ≡ false) }
    ensures refused { IsErrOf result JsonKey → refuses format (tree content.now) ≡ true }
{
    match format {
        SerializationFormat::Yaml => Ok(body_to_string(alloc, content, literal)?),
        SerializationFormat::Json => to_string_pretty(alloc, content),
        SerializationFormat::JsonCompact => to_string_compact(alloc, content),
    }
}

/// The text of the tree, its maps sorted where the settings say so, and then redacted by them. `literal` writes texts of several
/// lines as literal blocks, in YAML alone, which stands without a line `---`. `JsonKey` comes exactly where JSON is asked for and
/// refuses a key of what is printed, and never for YAML.
pub fn serialize_content(
    alloc: Global,
    content: Content,
    settings: &Settings,
    format: SerializationFormat,
    literal: bool,
) -> Result<Text, JsonError>
    ensures { SerializedEnd format literal
        (PrintsAs (λ v. (⟦<dyn Redactor as Redactor>⟧ v).allows) settings.now (tree content))
        result }
{
    let printed = settings.printed_tree(alloc, content)?;
    let text = text_in(alloc, &printed, format, literal);
    drop(printed);
    text
}

/// The text of the value's tree, as `serialize_content` prints it.
pub fn serialize_value<T: ToContent>(
    alloc: Global,
    value: &T,
    settings: &Settings,
    format: SerializationFormat,
    literal: bool,
) -> Result<Text, JsonError>
    ensures { SerializedEnd format literal
        (PrintsAs (λ v. (⟦<dyn Redactor as Redactor>⟧ v).allows) settings.now
        (T.meaning value.now)) result }
{
    let content = value.to_content(alloc)?;
    serialize_content(alloc, content, settings, format, literal)
}

/// The same, where the value's tree is redacted by the given redactions first, and after them sorted and redacted as the settings say.
pub fn serialize_value_redacted<T: ToContent>(
    alloc: Global,
    value: &T,
    redactions: &Redactions,
    settings: &Settings,
    format: SerializationFormat,
    literal: bool,
) -> Result<Text, JsonError>
    ensures { SerializedEnd format literal
        (PrintsAfter (λ v. (⟦<dyn Redactor as Redactor>⟧ v).allows)
        (redactions_of redactions.now) settings.now (T.meaning value.now)) result }
{
    let content = value.to_content(alloc)?;
    let redacted = redactions.apply(alloc, content)?;
    serialize_content(alloc, redacted, settings, format, literal)
}
